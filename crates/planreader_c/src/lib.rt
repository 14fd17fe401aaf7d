// The calls of the host in C, by the names of its header: each is the library's call of that name, with its contract.
#![tactic(auto)]

ghost use Rattle.std.specs.Prelude.{◌≡◌, length};
ghost use Rattle.answers.specs.Packed.{packed, Unpacked};
ghost use Rattle.facts.specs.Facts.{facts_of};
ghost use Rattle.theory.specs.Answers.{check_answer, fill_answer, written};
ghost use Rattle.planreader.specs.Promised.{Promised};

pub mod stepping;

#[unsafe(no_mangle)]
pub extern "C" fn check(job: &[u32], starts: &[u32], facts: &[u32]) -> u64
    ensures answer { result ≡ packed (check_answer job.now starts.now facts.now) }
    ensures fields { Unpacked result (check_answer job.now starts.now facts.now) }
{
    planreader::check(job, starts, facts)
}

#[unsafe(no_mangle)]
pub extern "C" fn fill(job: &[u32], starts: &[u32], buffer: &mut [u32]) -> u64
    ensures answer { result ≡ packed (fill_answer (length buffer.old) job.now starts.now) }
    ensures fields { Unpacked result (fill_answer (length buffer.old) job.now starts.now) }
    ensures words { buffer.new ≡ written (fill_answer (length buffer.old) job.now starts.now) (facts_of job.now starts.now) buffer.old }
{
    planreader::fill(job, starts, buffer)
}

#[unsafe(no_mangle)]
pub extern "C" fn find(job: &[u32], starts: &[u32], facts: &[u32], buffer: &mut [u32]) -> u64
    ensures { Promised job.now starts.now facts.now buffer.old result buffer.new }
{
    planreader::find(job, starts, facts, buffer)
}
