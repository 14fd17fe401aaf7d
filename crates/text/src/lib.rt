// Bytes and words, and text: files (sizes of files, the words of their bytes) and report (what planread prints for an answer).
#![tactic(auto)]

pub mod files;
pub mod report;
