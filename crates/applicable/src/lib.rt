// What one new start in a trial is tested for. Planning calls an action applicable in a state where it may start. The moment and the action come
// apart, since the number of an action that the job lacks fits no word of a start; what is asked of the starts is what the trial and its rows have
// shown.
#![tactic(auto)]

ghost use Rattle.std.specs.Prelude.{◌≡◌, ◌<◌, ◌≤◌, length};
ghost use Rattle.words.specs.Fields.{start_word};
ghost use Rattle.words.specs.Scan.{any};
ghost use Rattle.history.specs.Code.Tables.{Durations, Named};
ghost use Rattle.starts.specs.Rows.{clashing};
ghost use Rattle.starts.specs.Code.Given.{Tabled};
ghost use Rattle.job.specs.Parts.{actions};
ghost use Rattle.moves.specs.Trials.{busy};
ghost use Rattle.applicable.specs.Code.Given.{FacingAll, Present, held_refusal, StartTested};
ghost use Rattle.answers.specs.Code.Ruled.{ruled};

use answers::{
    GROUP_OVER_LIMIT, Refusal, START_CLASHES, START_ENDS_LATE, START_IN_HAND, START_NEEDS,
    START_OUTSIDE_WINDOWS, START_WORD, refuse,
};
use history::carry::Held;
use history::{Actions, finish_of};
use starts::{has_clash, has_unmet};
use theory::Plan;
use words::*;

// Returns whether some start in the list is one of action `a` that is in hand at moment `u`.
fn some_busy(tables: &Actions<'_>, starts: &[u32], u: usize, a: usize) -> bool
    requires { Durations tables.now.job.now tables.now.durations.now × Named tables.now.job.now starts.now }
    ensures { result ≡ any (busy tables.now.job.now u a) starts.now }
{
    starts.iter().any(|&s| {
        start_action(s) == a && start_moment(s) <= u && u < finish_of(tables.durations, s)
    })
}

// Returns whether some start in the list, of which none is later, clashes with action `a` started at moment `u`.
fn some_clash(tables: &Actions<'_>, starts: &[u32], u: usize, a: usize) -> bool
    requires { FacingAll tables.now.job.now tables.now.durations.now tables.now.effects.now starts.now u a }
    ensures { result ≡ any (λ s. clashing tables.now.job.now s (start_word u a)) starts.now }
{
    starts.iter().any(|&s| {
        u < finish_of(tables.durations, s) && has_clash(tables, start_action(s), a)
    })
}

// Runs rows 8, 9, 15 and 16 of action `a` started at moment `u`, in this order. Of the starts only those in hand then count.
fn held_refusal(
    tables: &Actions<'_>,
    plan: &Plan,
    starts: &[u32],
    u: usize,
    a: usize,
) -> Result<(), Refusal>
    requires present { Present tables.now.job.now starts.now u plan.now }
    requires tabled { Tabled tables.now.job.now tables.now.durations.now tables.now.effects.now }
    requires action { a < actions tables.now.job.now }
    requires few { length starts.now ≤ 4096 }
    ensures { result ≡ ruled (held_refusal tables.now.job.now starts.now u a) tt }
{
    let mut held = Held::none();
    held.hold(starts);
    held.keep(tables.durations, u);
    let in_hand = held.starts();
    if some_busy(tables, in_hand, u, a) {
        return Err(refuse(START_IN_HAND, 0));
    }
    if some_clash(tables, in_hand, u, a) {
        return Err(refuse(START_CLASHES, 0));
    }
    if !plan.shifts.may_start(u, a) {
        return Err(refuse(START_OUTSIDE_WINDOWS, 0));
    }
    if plan.groups.some_full(in_hand, a) {
        return Err(refuse(GROUP_OVER_LIMIT, 0));
    }
    Ok(())
}

// Runs rows 6 to 9, 15, 16 and 10 of action `a` started at moment `u`, in this order. If none refuses, there are fewer than 4,096
// starts.
// It is not inlined, so that its tables are on the stack while it runs, and not all the time that its caller does.
#[inline(never)]
pub fn start_refusal(
    job: &[u32],
    plan: &Plan,
    starts: &[u32],
    u: usize,
    a: usize,
) -> Result<(), Refusal>
    requires { Present job.now starts.now u plan.now }
    ensures { StartTested job.now starts.now u a result }
{
    let head = job[0];
    if actions_of(head) <= a {
        return Err(refuse(START_WORD, 0));
    }
    if last_of(head) < u + plan.durations[a] {
        return Err(refuse(START_ENDS_LATE, 0));
    }
    let tables = plan.tables(job);
    held_refusal(&tables, plan, starts, u, a)?;
    if has_unmet(head, &plan.history, u, tables.laws_of(a)) {
        return Err(refuse(START_NEEDS, 0));
    }
    Ok(())
}
