// Bounds on begins by ends: where a condition ties the end of member w to the begin of member j, the begins of j with which w may still end at a
// moment or later, and at a moment or sooner.
// Sets have u32 members and arrays usize indices; no From joins them, so both are cast. Functions ask that a row is below 16 and a member below the
// number of members, four at most: a type for them would be made and taken apart again at each entry.
ghost use Rattle.std.specs.Prelude.{◌≡◌, ℕ, ◌<◌, ◌≤◌};
ghost use Rattle.bitset.specs.Code.Members.{In};
ghost use Rattle.narrowing.specs.Code.Tables.{BoundsHave, Bounded};
ghost use Rattle.narrowing.specs.Code.Open.{choice_at, InDomains};

use crate::Open;
use keeping::{BOUNDS, Choice, FILLED, SOONER};
use words::{MEMBERS, MOMENTS};

// The begins of row p with which an end may be one of `ends`.
fn beside(bounds: &[u64; BOUNDS], p: usize, ends: u64) -> u64
    requires { p < 16 }
    ensures { (y e : ℕ) → In ends e → Bounded bounds.now p y e → In result y }
{
    if ends == 0 {
        return 0;
    }
    let late = bounds[p * MOMENTS + bitset::lowest(ends) as usize];
    let soon = bounds[SOONER + p * MOMENTS + bitset::highest(ends) as usize];
    bitset::inter(late, soon)
}

// What the ends of all members leave of the begins of member j.
fn bounded(bounds: &[u64; BOUNDS], count: usize, members: &[Choice; MEMBERS], j: usize) -> u64
    requires { (count ≤ 4) × (j < count) }
    ensures { ((bs es : ℕ → ℕ) → BoundsHave count bounds.now bs es → In (choice_at members.now j).begins (bs j) → ((i : ℕ) → i < count → In (choice_at members.now i).ends (es i)) → In result (bs j)) × ((x : ℕ) → In result x → In (choice_at members.now j).begins x) }
{
    let mut r = members[j].begins;
    let all = bitset::upto(count as u32 - 1);
    for w in bitset::members(bitset::inter(bounds[FILLED + j], all)) {
        let w = w as usize;
        let kept = beside(bounds, w * MEMBERS + j, members[w].ends);
        r = bitset::inter(r, kept);
    }
    r
}

// The set with the begins that the bounds leave. It has no ends where they leave none. It takes the bounds and the number of members alone: all that
// it reads of the tables, of which more is known.
pub fn tighten(bounds: &[u64; BOUNDS], count: usize, state: Open) -> Open
    requires { (count ≤ 4) × (state.last < count) }
    ensures { (result.from ≡ state.from) × (result.last ≡ state.last) × (result.left ≡ state.left) × ((bs es : ℕ → ℕ) → BoundsHave count bounds.now bs es → InDomains count state bs es → InDomains count result bs es) }
{
    let mut members = state.members;
    for j in 0..count {
        if bounds[FILLED + j] != 0 {
            let kept = bounded(bounds, count, &members, j);
            if kept == 0 {
                let none = Choice { begins: 0, ends: 0 };
                return Open {
                    members: [none; MEMBERS],
                    ..state
                };
            }
            members[j].begins = kept;
        }
    }
    Open { members, ..state }
}
