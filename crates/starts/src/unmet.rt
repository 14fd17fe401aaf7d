// Row 10: needs that are not met, by the history of the plan. A moment is a plain number, and a function asks that it is below 64: a type for it
// would be taken apart again at each entry of the history.
ghost use Rattle.std.specs.Prelude.{◌≡◌, ◌+◌, ◌*◌, ◌<◌, length, get_or};
ghost use Rattle.words.specs.Scan.{any};
ghost use Rattle.answers.specs.Rows.{first_of};
ghost use Rattle.starts.specs.Rows.{unmet, needs_unmet, numbered};
ghost use Rattle.starts.specs.Code.Given.{Recorded};
ghost use Rattle.answers.specs.Code.Ruled.{ruled};

use answers::{Refusal, START_NEEDS, refuse};
use history::Actions;
use words::*;

// Returns whether the law `w` needs what the history does not say of moment `t`.
fn is_unmet(head: u32, history: &[u8; STATES], t: usize, w: u32) -> bool
    requires { t < 64 }
    ensures { result ≡ unmet head (λ f. get_or history.now (t * 256 + f) 0) w }
{
    let role = role_of(head, w);
    let value = history[t * FLUENTS + fluent_of(head, w)];
    ((role == NEEDS_TRUE) & !(value == HOLDS)) | ((role == NEEDS_FALSE) & !(value == FAILS))
}

// Returns whether one of an action's laws needs what the history does not say of moment `t`.
pub fn has_unmet(head: u32, history: &[u8; STATES], t: usize, laws: &[u32]) -> bool
    requires { t < 64 }
    ensures { result ≡ any (unmet head (λ f. get_or history.now (t * 256 + f) 0)) laws.now }
{
    laws.iter().any(|&w| is_unmet(head, history, t, w))
}

// Row 10: refuses the first start whose needs are not known at its moment.
pub fn check_needs(
    tables: &Actions<'_>,
    history: &[u8; STATES],
    starts: &[u32],
) -> Result<(), Refusal>
    requires { Recorded tables.now.job.now tables.now.places.now tables.now.ends.now history.now starts.now }
    ensures { result ≡ ruled (first_of (numbered 10 (needs_unmet tables.now.job.now starts.now)) (length starts.now)) tt }
{
    let head = tables.job[0];
    for (i, &s) in starts.iter().enumerate() {
        let laws = tables.laws_of(start_action(s));
        if has_unmet(head, history, start_moment(s), laws) {
            return Err(refuse(START_NEEDS, i));
        }
    }
    Ok(())
}
