// Row 6: the words of a plan's starts, and their order.
ghost use Rattle.std.specs.Prelude.{◌≡◌, ◌<◌, length};
ghost use Rattle.answers.specs.Rows.{first_of};
ghost use Rattle.job.specs.Code.WellFormed.{WellFormed};
ghost use Rattle.starts.specs.Rows.{is_start, ascends, wrong_word, numbered};
ghost use Rattle.answers.specs.Code.Ruled.{ruled};

use answers::{Refusal, START_WORD, refuse};
use words::*;

// Returns whether a word is a start of the job.
fn is_start(job: &[u32], s: u32) -> bool
    requires { 0 < length job.now }
    ensures { result ≡ is_start job.now s }
{
    let head = job[0];
    (kind_of(s) == START)
        & start_spare(s)
        & (start_moment(s) <= last_of(head))
        & (start_action(s) < actions_of(head))
}

// Returns whether the word at `i` is above the word before it, if there is one.
fn is_above(starts: &[u32], i: usize) -> bool
    requires { i < length starts.now }
    ensures { result ≡ ascends starts.now i }
{
    if i == 0 {
        return true;
    }
    starts[i - 1] < starts[i]
}

// Row 6: refuses the first word that is no start of the job or not above the word before it.
pub fn wrong_word(job: &[u32], starts: &[u32]) -> Result<(), Refusal>
    requires { WellFormed job.now }
    ensures { result ≡ ruled (first_of (numbered 6 (wrong_word job.now starts.now)) (length starts.now)) tt }
{
    for (i, &s) in starts.iter().enumerate() {
        if !(is_start(job, s) & is_above(starts, i)) {
            return Err(refuse(START_WORD, i));
        }
    }
    Ok(())
}
