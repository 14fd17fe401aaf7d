// Rows 7 and 8: when starts finish. A latest finish is 0 for none: no moment is before it, so that no test of it is needed.
ghost use Rattle.std.specs.Prelude.{◌≡◌, length};
ghost use Rattle.answers.specs.Rows.{first_of};
ghost use Rattle.starts.specs.Rows.{ends_late, in_hand_already, numbered};
ghost use Rattle.starts.specs.Code.Given.{Timed};
ghost use Rattle.answers.specs.Code.Ruled.{ruled};

use answers::{Refusal, START_ENDS_LATE, START_IN_HAND, refuse, refused_at};
use history::{Actions, finish_of};
use words::*;

// Row 7: refuses the first start that finishes after the last moment.
pub fn late_end(tables: &Actions<'_>, starts: &[u32]) -> Result<(), Refusal>
    requires { Timed tables.now.job.now tables.now.durations.now starts.now }
    ensures { result ≡ ruled (first_of (numbered 7 (ends_late tables.now.job.now starts.now)) (length starts.now)) tt }
{
    let last = last_of(tables.job[0]);
    refused_at(
        START_ENDS_LATE,
        starts
            .iter()
            .position(|&s| last < finish_of(tables.durations, s)),
    )
}

// Row 8: refuses the first start whose action is in hand already. `latest` has the latest finish of each action's starts so far.
pub fn restart(tables: &Actions<'_>, starts: &[u32]) -> Result<(), Refusal>
    requires { Timed tables.now.job.now tables.now.durations.now starts.now }
    ensures { result ≡ ruled (first_of (numbered 8 (in_hand_already tables.now.job.now starts.now)) (length starts.now)) tt }
{
    let mut latest = [0usize; ACTIONS];
    for (i, &s) in starts.iter().enumerate() {
        let a = start_action(s);
        if start_moment(s) < latest[a] {
            return Err(refuse(START_IN_HAND, i));
        }
        latest[a] = finish_of(tables.durations, s);
    }
    Ok(())
}
