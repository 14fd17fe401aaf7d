// What planread prints for the bytes of its two files. The program only reads the files and writes this text. That the text has room is asked of the
// slice that it is written to: docs/CONTRACTS.md names `reply`, so that it may not ask for an array. The text is
// answered by its length, as in `text::report`.
ghost use Rattle.std.specs.Prelude.{◌≡◌, ◌≤◌, length, take};
ghost use Rattle.io.specs.Counts.{IsPrefixLen};
ghost use Rattle.reader.specs.Reply.{bad_file, text_room, lent, Answered, Reply};

use text::{files, report};
use words::BUFFER_WORDS;

// The text is at the start of out, and the answer is its length.
pub fn reply(job: &[u8], plan: &[u8], out: &mut [u8]) -> usize
    requires { text_room ≤ length out.old }
    ensures counts { IsPrefixLen result out.new }
    ensures text { Reply job.now plan.now (take result out.new) }
{
    if !(files::is_sized(job.len()) && files::is_sized(plan.len())) {
        return bad_file(out);
    }
    let mut job_words = file_words();
    let mut plan_words = file_words();
    let n = files::decode(job, &mut job_words);
    let m = files::decode(plan, &mut plan_words);
    let mut buffer = lent_words();
    reply_words(&job_words[..n], &plan_words[..m], &mut buffer, out)
}

pub fn bad_file(out: &mut [u8]) -> usize
    requires { text_room ≤ length out.old }
    ensures counts { IsPrefixLen result out.new }
    ensures text { take result out.new ≡ bad_file }
{
    report::line(out, b"bad file\n")
}

const FILE_WORDS: usize = files::MAX_BYTES / 4;

// Zeros, as values whose length alone is known: a goal does not write them out. Those of a file's bytes, of its words and of the lent buffer are
// functions of their own, since zeros are of two types and more is known of the lent ones.
fn file_words() -> [u32; FILE_WORDS]
    ensures { 8192 ≡ length result }
{
    [0; FILE_WORDS]
}

#[tactic(auto, unfolding(crate::specs::Reply::lent))]
fn lent_words() -> [u32; BUFFER_WORDS]
    ensures { result ≡ lent }
{
    [0; BUFFER_WORDS]
}

fn reply_words(job: &[u32], plan: &[u32], buffer: &mut [u32], out: &mut [u8]) -> usize
    requires { (buffer.old ≡ lent) × (text_room ≤ length out.old) }
    ensures counts { IsPrefixLen result out.new }
    ensures text { Answered job.now plan.now (take result out.new) }
{
    let (starts, facts) = plan.split_at(files::starts_length(plan));
    let answer = finder::find_reading(job, starts, facts, buffer);
    report::report(answer, buffer, out)
}
