// The calls of the host in C that step a plan by hand. `trial` is lent words: the moment, the number of starts, the starts.
ghost use Rattle.std.specs.Prelude.{◌≡◌, length};
ghost use Rattle.answers.specs.Packed.{packed, Unpacked};
ghost use Rattle.theory.specs.Answers.{written};
ghost use Rattle.moves.specs.Trials.{Start, On, fresh, after};
ghost use Rattle.moves.specs.Calls.{trial_in, begin_answer, move_answer, shown_facts, show_answer, handed_back};

use planreader::stepping as calls;

#[unsafe(no_mangle)]
pub extern "C" fn trial_begin(job: &[u32], trial: &mut [u32]) -> u64
    ensures answer { result ≡ packed (begin_answer (length trial.old) job.now) }
    ensures fields { Unpacked result (begin_answer (length trial.old) job.now) }
    ensures words { trial.new ≡ handed_back (begin_answer (length trial.old) job.now) fresh trial.old }
{
    calls::trial_begin(job, trial)
}

#[unsafe(no_mangle)]
pub extern "C" fn trial_start(job: &[u32], trial: &mut [u32], action: u32) -> u64
    ensures answer { result ≡ packed (move_answer job.now trial.old (Start action)) }
    ensures fields { Unpacked result (move_answer job.now trial.old (Start action)) }
    ensures words { trial.new ≡ handed_back (move_answer job.now trial.old (Start action)) (after job.now (trial_in trial.old) (Start action)) trial.old }
{
    calls::trial_start(job, trial, action)
}

#[unsafe(no_mangle)]
pub extern "C" fn trial_on(job: &[u32], trial: &mut [u32]) -> u64
    ensures answer { result ≡ packed (move_answer job.now trial.old On) }
    ensures fields { Unpacked result (move_answer job.now trial.old On) }
    ensures words { trial.new ≡ handed_back (move_answer job.now trial.old On) (after job.now (trial_in trial.old) On) trial.old }
{
    calls::trial_on(job, trial)
}

#[unsafe(no_mangle)]
pub extern "C" fn trial_show(job: &[u32], trial: &[u32], buffer: &mut [u32]) -> u64
    ensures answer { result ≡ packed (show_answer (length buffer.old) job.now trial.now) }
    ensures fields { Unpacked result (show_answer (length buffer.old) job.now trial.now) }
    ensures words { buffer.new ≡ written (show_answer (length buffer.old) job.now trial.now) (shown_facts job.now (trial_in trial.now)) buffer.old }
{
    calls::trial_show(job, trial, buffer)
}
