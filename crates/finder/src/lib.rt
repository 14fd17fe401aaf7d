// Finding a reading of a job's procedure in a plan.
#![tactic(auto)]

ghost use Rattle.std.specs.Prelude.{◌≤◌, length};
ghost use Rattle.answers.specs.Packed.{length_of};
ghost use Rattle.answers.specs.Code.Packed.{InRange};
ghost use Rattle.finder.specs.Find.{Searched, Outcome};
ghost use Rattle.finder.specs.Code.Seek.{Seekable, Readied};

use answers::{Answer, NO_READING, Refusal, answered};
use extract::Source;
use job::check_job;
use model::Arrays;
use reading::pauses::all_starts;
use theory::{arrays_of, buffer_refusal, compare_facts, judge};
use words::ENDS;

// Seeks a reading of a plan that passes: fills the table, counts the triples, and writes a reading of the root if there is one.
// It is not inlined, so that its tables are on the stack while it runs, and not all the time that its caller does.
#[inline(never)]
fn seek(job: &[u32], starts: &[u32], arrays: &Arrays, buffer: &mut [u32]) -> Answer
    requires { Seekable job.now starts.now arrays.now (length buffer.old) }
    ensures searched { Searched job.now starts.now buffer.old result buffer.new }
    ensures in_range { InRange result × (length_of result ≤ 4032) }
{
    let last = arrays.last;
    let started = all_starts(&arrays.starts);
    let mut table = [0u64; ENDS];
    let count = reading::table::tabulate(job, arrays, started, &mut table);
    if reading::table::has_end(&table, arrays.count - 1, 0, last) {
        let source = Source {
            words: job,
            arrays,
            started,
            table: &table,
        };
        let length = extract::emit(&source, buffer);
        return Answer::Accepted { length, count };
    }
    Answer::Refused {
        number: u64::from(NO_READING),
        position: 0,
        count,
    }
}

// Runs every row but the buffer's, and returns the arrays of a plan that passes. Its plan is off the stack before a reading is sought, and there is
// one alone, since it is read where it stands.
#[inline(never)]
fn readied(job: &[u32], starts: &[u32], facts: &[u32]) -> Result<Arrays, Refusal>
    ensures { Readied job.now starts.now facts.now result }
{
    let judged = judge(job, check_job(job), starts);
    match &judged {
        Ok(plan) => {
            compare_facts(job, &plan.history, facts)?;
            Ok(arrays_of(job, starts, plan))
        }
        Err(refusal) => Err(*refusal),
    }
}

// The find call on any lists: runs every row, then seeks a reading. A buffer that is too short is refused before there is room for a plan.
pub fn find_reading(job: &[u32], starts: &[u32], facts: &[u32], buffer: &mut [u32]) -> Answer
    ensures outcome { Outcome job.now starts.now facts.now buffer.old result buffer.new }
    ensures in_range { InRange result × (length_of result ≤ 4032) }
{
    if let Err(refusal) = buffer_refusal(buffer.len()) {
        return answered(Err(refusal));
    }
    match readied(job, starts, facts) {
        Ok(arrays) => seek(job, starts, &arrays, buffer),
        Err(refusal) => answered(Err(refusal)),
    }
}
