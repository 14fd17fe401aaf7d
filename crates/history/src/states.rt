// The history of a plan: the state (the values of the fluents) at moment 0, and from each moment to the next, where the starts in hand are
// carried along. Actions and moments are plain numbers, since a type for them would be taken apart again at each entry of a table, and the list in
// hand has room for as many starts as a plan may have.
ghost use Rattle.std.specs.Prelude.{◌≡◌, List, ◌∷◌, [], ℕ, ◌+◌, ◌<◌, ◌≤◌, length};
ghost use Rattle.words.specs.Fields.{known_value};
ghost use Rattle.job.specs.Parts.{actions, fluents, laws_of};
ghost use Rattle.job.specs.Code.WellFormed.{WellFormed};
ghost use Rattle.history.specs.Values.{lists};
ghost use Rattle.history.specs.Code.Tables.{Ruled, Named, StateAt, HistoryUpto};
ghost use Rattle.history.specs.Held.{starting_at, Ascending};
ghost use Rattle.history.specs.Code.Held.{Carried};
ghost use Rattle.history.specs.Code.Stores.{Overlaid, Mapped};
ghost use Rattle.history.specs.Code.Lent.{WalkableBy, SteppableBy};
ghost use Rattle.history.specs.Code.Passes.{changed, changed_by, AfterPass};

use crate::carry::{Held, starting_at};
use crate::tables::{finish_of, laws_of, row_of, store_row};
use words::{
    ACTIONS, EFFECTS, FLUENTS, KNOWN, OPEN, STATES, fluent_of, fluents_of, kind_of, known_value,
    start_action,
};

// The state at moment 0: what the words say that is initially known.
fn initial_state(job: &[u32]) -> [u8; FLUENTS]
    requires { WellFormed job.now }
    ensures { StateAt job.now [] 0 result }
{
    let head = job[0];
    row_of(job, |w| {
        (kind_of(w) == KNOWN).then(|| (fluent_of(head, w), known_value(head, w)))
    })
}

// The value of a fluent that had `old`, after an action that makes `value` of it finishes, or while that action hides it.
fn changed(hiding: bool, value: u8, old: u8) -> u8
    ensures { result ≡ changed hiding value old }
{
    if value == OPEN {
        old
    } else if hiding {
        OPEN
    } else {
        value
    }
}

// Applies action `a` to the first `n` fluents of the state: each changes as `changed` says.
fn apply(effects: &[u8; EFFECTS], a: usize, n: usize, hiding: bool, state: &mut [u8; FLUENTS])
    requires { (a < 64) × (n ≤ 256) × (n ≤ length state.old) }
    ensures { Mapped n (changed_by effects.now a hiding) state.old state.new }
{
    for f in 0..n {
        state[f] = changed(hiding, effects[a * FLUENTS + f], state[f]);
    }
}

// A job and the tables of its actions, lent: where each stands, how long it lasts, where its laws end, and what it makes of each fluent.
#[derive(Clone, Copy)]
pub struct Actions<'a> {
    pub job: &'a [u32],
    pub places: &'a [usize; ACTIONS],
    pub durations: &'a [usize; ACTIONS],
    pub ends: &'a [usize; ACTIONS],
    pub effects: &'a [u8; EFFECTS],
}

impl Actions<'_> {
    // Returns the laws of action `a`.
    pub fn laws_of(&self, a: usize) -> &[u32]
        requires { Ruled self.now.job.now self.now.places.now self.now.ends.now × (a < actions self.now.job.now) }
        ensures { result.now ≡ laws_of self.now.job.now a }
    {
        laws_of(self.job, self.places, self.ends, a)
    }

    // Applies the start `s`, if it acts in a pass to moment `t`: in the hiding pass each does, in the other one that finishes then.
    fn apply_start(&self, s: u32, hiding: bool, t: usize, state: &mut [u8; FLUENTS])
        requires { WalkableBy self.now (s ∷ []) × (fluents self.now.job.now ≤ length state.old) }
        ensures { AfterPass self.now.job.now hiding t (s ∷ []) state.old state.new }
    {
        if hiding | (finish_of(self.durations, s) == t) {
            apply(
                self.effects,
                start_action(s),
                fluents_of(self.job[0]),
                hiding,
                state,
            );
        }
    }

    // Applies all starts that act in a pass to moment `t`: from the last to the first, so that the first prevails.
    // Which pass it is stays a bool, as in `acts` and `leaves`, the definitions of a pass.
    fn apply_starts(&self, starts: &[u32], hiding: bool, t: usize, state: &mut [u8; FLUENTS])
        requires { WalkableBy self.now starts.now × (fluents self.now.job.now ≤ length state.old) }
        ensures { AfterPass self.now.job.now hiding t starts.now state.old state.new }
    {
        for &s in starts.iter().rev() {
            self.apply_start(s, hiding, t, state);
        }
    }

    // Carries the walk from moment `t` to the next, at which the starts in `starting` begin. Of the starts in hand, those that finish then
    // give their effects and leave the list, and the others hide. Those that begin join the list and do not hide yet.
    fn step(&self, starting: &[u32], t: usize, held: &mut Held, state: &mut [u8; FLUENTS])
        requires { SteppableBy self.now starting.now t held.old state.old }
        ensures { (S : List ℕ) → Named self.now.job.now S → Ascending S → starting.now ≡ starting_at S (t + 1)
            → Carried self.now.job.now S t held.old.words held.old.count state.old
            → Carried self.now.job.now S (t + 1) held.new.words held.new.count state.new }
    {
        self.apply_starts(held.starts(), false, t + 1, state);
        let kept = held.hold_next(self.durations, starting, t);
        self.apply_starts(&held.words[..kept], true, t + 1, state);
    }

    // The one walk of the states, up to moment `last`. The first `next` starts have begun.
    pub fn history(&self, starts: &[u32], last: usize) -> [u8; STATES]
        requires { WalkableBy self.now starts.now × Ascending starts.now × (length starts.now ≤ 4096) × (last < 64) }
        ensures { HistoryUpto self.now.job.now starts.now last result }
    {
        let mut table = [OPEN; STATES];
        let mut state = initial_state(self.job);
        store_row(&state, 0, &mut table);
        let mut held = Held::none();
        held.hold_first(starts);
        let mut next = held.count;
        for t in 0..last {
            let starting = starting_at(starts, next, t + 1);
            self.step(starting, t, &mut held, &mut state);
            next += starting.len();
            store_row(&state, t + 1, &mut table);
        }
        table
    }
}
