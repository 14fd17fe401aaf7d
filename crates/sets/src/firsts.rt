// A search from a moment: the member that begins there and the member that ends last are fixed in turn.
// A moment that is an index is cast, since there is no `usize::from` of a u32.
ghost use Rattle.std.specs.Prelude.{◌≡◌, [], ◌∷◌, ℕ, ◌<◌, ◌≤◌};
ghost use Rattle.bitset.specs.Code.Members.{In};
ghost use Rattle.narrowing.specs.Code.Tables.{InTables, BoundsHave};
ghost use Rattle.ending.specs.Code.Search.{Masked, SearchReady, OpenReady, SoughtPlacement, Grown};

use ending::Found;
use keeping::Tables;
use narrowing::Open;
use words::{MEMBERS, MOMENTS};

// `found` with the ends to which the open set reads where member `first` begins at the first moment.
fn from_first(tables: &Tables, state: Open, first: usize, found: Found) -> Found
    requires { OpenReady tables.now state found.upto × (first < tables.now.count) }
    ensures { Grown tables.now state.from found result × ((e : ℕ) (bs es : ℕ → ℕ) → e ≤ found.upto → SoughtPlacement tables.now state e bs es → bs first ≡ state.from → In result.ends e) }
{
    let next = narrowing::placed(tables, state, first, state.from, found.ends);
    if next.members[state.last].ends == 0 {
        return found;
    }
    searching::search(tables, next, found)
}

// `found` with the ends of `goal` from a where member `first` begins at a, whichever member ends last. Nothing is placed for a last member that
// has no end of `goal` that is not found yet.
fn from_each(tables: &Tables, a: u32, first: usize, goal: u64, found: Found) -> Found
    requires { SearchReady tables.now a found.upto × (first < tables.now.count) }
    ensures { Grown tables.now a found result × ((e : ℕ) (bs es : ℕ → ℕ) → Masked tables.now a e bs es → InTables tables.now a bs es → BoundsHave tables.now.count tables.now.bounds bs es → e ≤ found.upto → bs first ≡ a → In goal e → In result.ends e) }
{
    if keeping::pair_at(&tables.ends, first, first, a) == 0 {
        return found;
    }
    let mut r = found;
    for last in 0..tables.count {
        let sought = bitset::minus(goal, r.ends);
        if bitset::inter(tables.later[last * MOMENTS + a as usize], sought) != 0 {
            let state = narrowing::unplaced(tables, a, r.upto, last, goal);
            r = from_first(tables, state, first, r);
        }
    }
    r
}

// The ends of `goal` to which the set reads from a, and perhaps other ends to which it reads.
pub fn row(tables: &Tables, a: u32, z: u32, goal: u64) -> Found
    requires { SearchReady tables.now a z }
    ensures { Grown tables.now a (record { upto = z; ends = 0; begins = 0 ∷ 0 ∷ 0 ∷ 0 ∷ [] }) result × ((e : ℕ) (bs es : ℕ → ℕ) → Masked tables.now a e bs es → InTables tables.now a bs es → BoundsHave tables.now.count tables.now.bounds bs es → e ≤ z → In goal e → In result.ends e) }
{
    let mut found = Found {
        upto: z,
        ends: 0,
        begins: [0; MEMBERS],
    };
    for first in 0..tables.count {
        found = from_each(tables, a, first, goal, found);
    }
    found
}
