// The starts in hand, in a list that a walk of the states carries: those that finish leave it, and those that begin join it. The list has room
// for 4,096, and a function asks that no more are to be put in: a slice does not say how long it is at most. Functions ask that each duration is
// below 64: docs/CONTRACTS.md names `keep_unfinished`, so that it may not ask for a struct that says so in place of an array.
ghost use Rattle.std.specs.Prelude.{◌≡◌, List, [], ◌∷◌, ◌++◌, ℕ, ◌+◌, ◌<◌, ◌≤◌, length, get_or, take, drop};
ghost use Rattle.words.specs.Scan.{take_while};
ghost use Rattle.history.specs.Held.{begins_at, Lasting, Ascending, HeldList, HoldsNext};
ghost use Rattle.history.specs.Code.Held.{unfinished_by, Filtered};

use crate::tables::finish_of;
use words::{ACTIONS, MOST_STARTS, copy_words, start_moment};

// Returns how many of the first starts begin at moment `t`, up to the first that does not.
// This and the count of a run in `words` are the library's `take_while` and `count`: one function for both would only name these two.
fn starting_count(starts: &[u32], t: usize) -> usize
    ensures { result ≡ length (take_while (begins_at t) starts.now) }
{
    starts.iter().take_while(|&&s| start_moment(s) == t).count()
}

// Returns the starts from position `from` on that begin at moment `t`, up to the first that does not.
pub(crate) fn starting_at<'a>(starts: &'a [u32], from: usize, t: usize) -> &'a [u32]
    requires { from ≤ length starts.now }
    ensures { result.now ≡ take_while (begins_at t) (drop from starts.now) }
{
    let rest = &starts[from..];
    &rest[..starting_count(rest, t)]
}

// Keeps of the first `count` starts those that finish after moment `t`, in their order. Returns their number.
// Memory is fixed, so that a list stands in a buffer for the longest one, with its number of words beside.
pub fn keep_unfinished(
    durations: &[usize; ACTIONS],
    t: usize,
    held: &mut [u32],
    count: usize,
) -> usize
    requires { ((a : ℕ) → get_or durations.now a 0 < 64) × (count ≤ length held.old) }
    ensures { Filtered (unfinished_by durations.now t) count held.old result held.new }
{
    let mut n = 0;
    for i in 0..count {
        let s = held[i];
        if t < finish_of(durations, s) {
            held[n] = s;
            n += 1;
        }
    }
    n
}

// The starts in hand: the first `count` of these words. Memory is fixed, so a list that shrinks and grows is an array and a count.
#[derive(Drop)]
pub struct Held {
    pub words: [u32; MOST_STARTS],
    pub count: usize,
    pub ghost size: { length words ≡ 4096 },
    pub ghost inside: { count ≤ 4096 },
}

impl Held {
    // A list of no starts.
    #[inline(always)]
    pub fn none() -> Held
        ensures { result.count ≡ 0 }
    {
        Held {
            words: [0; MOST_STARTS],
            count: 0,
        }
    }

    // The starts in the list.
    pub fn starts(&self) -> &[u32]
        ensures { result.now ≡ take self.now.count self.now.words }
    {
        &self.words[..self.count]
    }

    // Makes the list one of these starts.
    pub fn hold(&mut self, starts: &[u32])
        requires { length starts.now ≤ 4096 }
        ensures { (self.new.count ≡ length starts.now) × (take self.new.count self.new.words ≡ starts.now) }
    {
        copy_words(starts, 0, &mut self.words);
        self.count = starts.len();
    }

    // Puts a start behind the others.
    pub fn push(&mut self, s: u32)
        requires { self.old.count < 4096 }
        ensures { (self.new.count ≡ self.old.count + 1) × (take self.new.count self.new.words ≡ take self.old.count self.old.words ++ s ∷ []) }
    {
        self.words[self.count] = s;
        self.count += 1;
    }

    // Keeps the starts that finish after moment `t`, in their order.
    pub fn keep(&mut self, durations: &[usize; ACTIONS], t: usize)
        requires { (a : ℕ) → get_or durations.now a 0 < 64 }
        ensures { Filtered (unfinished_by durations.now t) self.old.count self.old.words self.new.count self.new.words }
    {
        self.count = keep_unfinished(durations, t, &mut self.words, self.count);
    }

    // Makes the list of moment 0: the starts that begin then.
    pub(crate) fn hold_first(&mut self, starts: &[u32])
        requires { Ascending starts.now × (length starts.now ≤ 4096) }
        ensures { (job : List ℕ) → Lasting job starts.now → HeldList job starts.now 0 self.new.words self.new.count }
    {
        self.hold(starting_at(starts, 0, 0));
    }

    // Carries the list from moment `t` to the next: the starts that finish then leave it, and those in `starting`, which begin then, join it
    // behind the others. Returns how many others there are.
    pub(crate) fn hold_next(
        &mut self,
        durations: &[usize; ACTIONS],
        starting: &[u32],
        t: usize,
    ) -> usize
        requires { ((a : ℕ) → get_or durations.now a 0 < 64) × (t < 64) × (self.old.count + length starting.now ≤ length self.old.words) }
        ensures list { HoldsNext durations.now starting.now t self.old.words self.old.count self.new.words self.new.count }
        ensures kept { result + length starting.now ≡ self.new.count }
    {
        let kept = keep_unfinished(durations, t + 1, &mut self.words, self.count);
        copy_words(starting, kept, &mut self.words);
        self.count = kept + starting.len();
        kept
    }
}
