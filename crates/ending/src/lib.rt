// The ends of a set whose members are all placed: ends (those that the conditions leave to each member), and here what a search has found, and
// what such a set adds to it.
#![tactic(auto)]

ghost use Rattle.std.specs.Prelude.{ℕ, ◌<◌, ◌≤◌};
ghost use Rattle.bitset.specs.Code.Members.{In};
ghost use Rattle.covering.specs.Code.Cover.{entry_at};
ghost use Rattle.narrowing.specs.Code.Open.{choice_at};
ghost use Rattle.ending.specs.Code.Search.{LeafReady, Grown, FindsFitting};

pub mod ends;

use keeping::{Choice, Tables};
use narrowing::Open;
use words::MEMBERS;

// The ends found, all at most `upto`, and, where `upto` is one of them, begins for it. The begins are no
// `Option`: `ends` says whether they count, and a second sign of it would have to agree with the first.
#[derive(Clone, Copy)]
pub struct Found {
    pub upto: u32,
    pub ends: u64,
    pub begins: [u32; MEMBERS],
}

// The first begin that each member may have in a..z, and a where there is none.
fn first_begins(tables: &Tables, members: &[Choice; MEMBERS], a: u32, z: u32) -> [u32; MEMBERS]
    requires { (a ≤ z) × (z < 64) }
    ensures { ((i : ℕ) → i < tables.now.count → (a ≤ entry_at result i) × (entry_at result i ≤ z)) × ((i : ℕ) → entry_at result i < 64) × ((i x : ℕ) → i < tables.now.count → In (choice_at members.now i).begins x → a ≤ x → x ≤ z → In (choice_at members.now i).begins (entry_at result i)) }
{
    let window = bitset::between(a, z);
    let mut r = [a; MEMBERS];
    for i in 0..tables.count {
        let mask = bitset::inter(members[i].begins, window);
        if mask != 0 {
            r[i] = bitset::lowest(mask);
        }
    }
    r
}

// `found` with the ends to which the set reads, all members placed. Of the tables it reads the conditions, their masks and the members' own ends, so
// that what it promises holds whatever the begins by pairs, the later ends and the bounds are.
pub fn leaf(tables: &Tables, state: Open, found: Found) -> Found
    requires { LeafReady tables.now state found.upto }
    ensures { Grown tables.now state.from found result × FindsFitting tables.now state result }
{
    let begins = first_begins(tables, &state.members, state.from, found.upto);
    let masks = ends::ends_at(tables, begins);
    let count = tables.count;
    let got = covering::covered(&begins[..count], &masks[..count], state.from);
    let ends = bitset::union(found.ends, got);
    if bitset::has(got, found.upto) {
        return Found {
            ends,
            begins,
            ..found
        };
    }
    Found { ends, ..found }
}
