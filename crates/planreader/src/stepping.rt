// The calls that step a plan by hand. `trial` is lent words: the moment, the number of starts, the starts.
ghost use Rattle.std.specs.Prelude.{◌≡◌, length};
ghost use Rattle.answers.specs.Packed.{packed, Unpacked};
ghost use Rattle.theory.specs.Answers.{written};
ghost use Rattle.moves.specs.Trials.{Start, On, fresh, after};
ghost use Rattle.moves.specs.Calls.{trial_in, begin_answer, move_answer, shown_facts, show_answer, handed_back};

use answers::pack;
use trial::calls::{begin_words, on_words, show_words, start_words};

pub fn trial_begin(job: &[u32], trial: &mut [u32]) -> u64
    ensures answer { result ≡ packed (begin_answer (length trial.old) job.now) }
    ensures fields { Unpacked result (begin_answer (length trial.old) job.now) }
    ensures words { trial.new ≡ handed_back (begin_answer (length trial.old) job.now) fresh trial.old }
{
    pack(begin_words(job, trial))
}

pub fn trial_start(job: &[u32], trial: &mut [u32], action: u32) -> u64
    ensures answer { result ≡ packed (move_answer job.now trial.old (Start action)) }
    ensures fields { Unpacked result (move_answer job.now trial.old (Start action)) }
    ensures words { trial.new ≡ handed_back (move_answer job.now trial.old (Start action)) (after job.now (trial_in trial.old) (Start action)) trial.old }
{
    pack(start_words(job, trial, action))
}

pub fn trial_on(job: &[u32], trial: &mut [u32]) -> u64
    ensures answer { result ≡ packed (move_answer job.now trial.old On) }
    ensures fields { Unpacked result (move_answer job.now trial.old On) }
    ensures words { trial.new ≡ handed_back (move_answer job.now trial.old On) (after job.now (trial_in trial.old) On) trial.old }
{
    pack(on_words(job, trial))
}

pub fn trial_show(job: &[u32], trial: &[u32], buffer: &mut [u32]) -> u64
    ensures answer { result ≡ packed (show_answer (length buffer.old) job.now trial.now) }
    ensures fields { Unpacked result (show_answer (length buffer.old) job.now trial.now) }
    ensures words { buffer.new ≡ written (show_answer (length buffer.old) job.now trial.now) (shown_facts job.now (trial_in trial.now)) buffer.old }
{
    pack(show_words(job, trial, buffer))
}
