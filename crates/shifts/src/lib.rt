// Row 15: starts outside the shift windows of their action. Actions and moments are plain numbers, taken from words: a type for one would be
// taken apart again at each set and each entry of a table, so that a function asks that they are below 64. Sets have u32 members, so they are cast.
#![tactic(auto)]

ghost use Rattle.std.specs.Prelude.{not, ◌||◌, ◌≡◌, ◌<◌, length, get_or};
ghost use Rattle.answers.specs.Rows.{first_of};
ghost use Rattle.bitset.specs.Code.Members.{has, IsSetOf};
ghost use Rattle.history.specs.Code.Tables.{Durations};
ghost use Rattle.starts.specs.Rows.{inside_window, outside_windows, numbered};
ghost use Rattle.starts.specs.Code.Given.{StartsFormed};
ghost use Rattle.shifts.specs.Code.ShiftSets.{ShiftTable};
ghost use Rattle.answers.specs.Code.Ruled.{ruled};

use answers::{Refusal, START_OUTSIDE_WINDOWS, refused_at};
use bitset::{between, has, single, union};
use words::*;

// As sets: the actions that have shift windows, and for each action the moments at which it may start in one of them. They
// are two sets, since `may_start` then is one expression with no branch.
#[derive(Clone, Copy)]
pub struct Shifts {
    pub windowed: u64,
    pub inside: [u64; ACTIONS],
}

// Returns the moments at which an action of duration `d` may start in the window `w`.
fn moments_in(w: u32, d: usize) -> u64
    ensures { IsSetOf result (λ u. inside_window d u w) }
{
    let to = shift_window_to(w);
    if to < d {
        return 0;
    }
    between(shift_window_from(w) as u32, (to - d) as u32)
}

// Returns the windows of all actions, in one pass over the job.
pub fn shifts_of(job: &[u32], durations: &[usize; ACTIONS]) -> Shifts
    requires { Durations job.now durations.now }
    ensures { ShiftTable job.now result }
{
    let mut windowed: u64 = 0;
    let mut inside = [0u64; ACTIONS];
    for &w in job.iter().rev() {
        if kind_of(w) == SHIFT_WINDOW {
            let a = shift_window_action(w);
            windowed = union(windowed, single(a as u32));
            inside[a] = union(inside[a], moments_in(w, durations[a]));
        }
    }
    Shifts { windowed, inside }
}

impl Shifts {
    // Returns whether action `a` may start at moment `u`, by its shift windows.
    pub fn may_start(&self, u: usize, a: usize) -> bool
        requires { (u < 64) × (a < 64) }
        ensures { result ≡ (not (has self.now.windowed a) || has (get_or self.now.inside a 0) u) }
    {
        !has(self.windowed, a as u32) | has(self.inside[a], u as u32)
    }
}

// Row 15: refuses the first start outside the shift windows of its action.
pub fn outside_windows(job: &[u32], shifts: &Shifts, starts: &[u32]) -> Result<(), Refusal>
    requires { ShiftTable job.now shifts.now × StartsFormed job.now starts.now }
    ensures { result ≡ ruled (first_of (numbered 15 (outside_windows job.now starts.now)) (length starts.now)) tt }
{
    refused_at(
        START_OUTSIDE_WINDOWS,
        starts
            .iter()
            .position(|&s| !shifts.may_start(start_moment(s), start_action(s))),
    )
}
