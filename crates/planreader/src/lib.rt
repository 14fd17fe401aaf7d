// The calls of the library, which crate planreader_c hands to C. Each answers one 64-bit number: refusal number, position, length and count.
#![tactic(auto)]

ghost use Rattle.std.specs.Prelude.{◌≡◌, length};
ghost use Rattle.answers.specs.Packed.{packed, Unpacked};
ghost use Rattle.facts.specs.Facts.{facts_of};
ghost use Rattle.theory.specs.Answers.{check_answer, fill_answer, written};
ghost use Rattle.planreader.specs.Promised.{Promised};

pub mod stepping;

use answers::pack;
use finder::find_reading;
use theory::{check_plan, fill_plan};

pub fn check(job: &[u32], starts: &[u32], facts: &[u32]) -> u64
    ensures answer { result ≡ packed (check_answer job.now starts.now facts.now) }
    ensures fields { Unpacked result (check_answer job.now starts.now facts.now) }
{
    pack(check_plan(job, starts, facts))
}

pub fn fill(job: &[u32], starts: &[u32], buffer: &mut [u32]) -> u64
    ensures answer { result ≡ packed (fill_answer (length buffer.old) job.now starts.now) }
    ensures fields { Unpacked result (fill_answer (length buffer.old) job.now starts.now) }
    ensures words { buffer.new ≡ written (fill_answer (length buffer.old) job.now starts.now) (facts_of job.now starts.now) buffer.old }
{
    pack(fill_plan(job, starts, buffer))
}

pub fn find(job: &[u32], starts: &[u32], facts: &[u32], buffer: &mut [u32]) -> u64
    ensures { Promised job.now starts.now facts.now buffer.old result buffer.new }
{
    pack(find_reading(job, starts, facts, buffer))
}
