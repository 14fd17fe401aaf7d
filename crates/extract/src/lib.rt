// Writing out a reading that the table says there is, into a buffer that the caller lends: search (the moments of two parts), parts (the
// parts of a node), write (the words, node by node).
#![tactic(auto)]

ghost use Rattle.std.specs.Prelude.{List, ℕ, length};
ghost use Rattle.extract.specs.Code.Source.{unseen_of};
ghost use Rattle.extract.specs.Code.Contract.{EmittableBy, EmittedBy};

use model::{Arrays, Triple};

mod parts;
mod search;
mod write;

// What a reading is written from: a job's words, its procedure and a plan's trajectory as arrays, the moments at which some action starts,
// and the table of ends.
#[derive(Clone, Copy)]
pub struct Source<'a> {
    pub words: &'a [u32],
    pub arrays: &'a Arrays,
    pub started: u64,
    pub table: &'a [u64],
}

// Writes a reading of the root from moment 0 to the last at the front of the buffer, and returns how many words it has.
pub fn emit(source: &Source, buffer: &mut [u32]) -> usize
    requires { (starts : List ℕ) × (durations : List ℕ) × EmittableBy source.now (length buffer.old) (unseen_of source.now starts durations) }
    ensures { (starts durations : List ℕ) → EmittableBy source.now (length buffer.old) (unseen_of source.now starts durations) → EmittedBy source.now buffer.old buffer.new result (unseen_of source.now starts durations) }
{
    let root = Triple {
        node: source.arrays.count - 1,
        begin: 0,
        end: source.arrays.last,
    };
    write::write_reading(source, root, 0, buffer)
}
