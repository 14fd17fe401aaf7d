// Open sets: the begins and ends that each member of a set may still have, and what is left of them as one member is placed; bounds (on begins,
// by the ends of others).
// A function asks of a member or a moment that it is in range, below the tables' number of members or below 64, since its callers have it as a plain
// index or a set's member: a type for it would be made and taken apart again at each call.
// Sets have u32 members and arrays usize indices; no From joins them, so both are cast.
#![tactic(auto)]

ghost use Rattle.std.specs.Prelude.{◌≡◌, ◌↔◌, ◌⊎◌, not, ◌&&◌, ℕ, ◌<◌, ◌≤◌, eqb};
ghost use Rattle.bitset.specs.Code.Members.{has, In, IsSetOf};
ghost use Rattle.narrowing.specs.Code.Tables.{InTables, LaterHave, BoundsHave};
ghost use Rattle.narrowing.specs.Code.Open.{UnplacedReady, PutReady, InDomains};

pub mod bounds;

use keeping::{Choice, Tables};
use words::{MEMBERS, MOMENTS};

// A set from moment `from`, and what each member may still have. Those in `left` are not placed; `last` ends last. That `last` is a member is asked,
// and is no ghost field: how many members there are, the tables say.
#[derive(Clone, Copy)]
pub struct Open {
    pub from: u32,
    pub last: usize,
    pub left: u64,
    pub members: [Choice; MEMBERS],
}

// The set with member i begun at x. It has no end for `last` where nothing is left.
fn put(tables: &Tables, state: Open, i: usize, x: u32) -> Open
    requires { PutReady tables.now.count state i x }
    ensures { (result.from ≡ state.from) × (result.last ≡ state.last) × IsSetOf result.left (λ k. has state.left k && not (eqb k i)) × ((bs es : ℕ → ℕ) → InTables tables.now state.from bs es → InDomains tables.now.count state bs es → bs i ≡ x → InDomains tables.now.count result bs es) }
{
    let last = state.last;
    let left = bitset::without(state.left, i as u32);
    let mut members = state.members;
    let mut sought = members[last].ends;
    members[i].begins = bitset::single(x);
    let window = bitset::inter(bitset::from(state.from), bitset::upto_highest(sought));
    for j in 0..tables.count {
        let new = keeping::narrowed(tables, i, x, j, members[j], window);
        members[j] = new;
        sought = bitset::inter(sought, bitset::from_lowest(new.ends));
        if sought == 0 {
            break;
        }
    }
    members[last].ends = bitset::inter(members[last].ends, sought);
    Open {
        left,
        members,
        ..state
    }
}

// The moments that a member with these begins and ends can cover, where it has one begin.
fn reach(begins: u64, ends: u64) -> u64
    ensures { (x e t : ℕ) → In begins x → In ends e → x ≤ t → t ≤ e → In result t }
{
    bitset::inter(bitset::from_lowest(begins), bitset::upto_highest(ends))
}

// Moments up to the first end of `last` that no member that is placed covers; none while `last` is left. It takes the number of members alone:
// docs/ARCHITECTURE.md names it, so that it may not ask for the tables, of which more is known.
pub fn gaps(count: usize, state: Open) -> u64
    requires { (count ≤ 4) × (state.last < count) × (state.from < 64) }
    ensures { (g : ℕ) (bs es : ℕ → ℕ) → In result g → InDomains count state bs es → (state.from ≤ g) × (g ≤ es state.last) × ((i : ℕ) → i < count → bs i ≤ g → g ≤ es i → In state.left i) }
{
    if bitset::has(state.left, state.last as u32) {
        return 0;
    }
    let ends = state.members[state.last].ends;
    if ends == 0 {
        return 0;
    }
    let mut r = bitset::between(state.from, bitset::lowest(ends));
    for i in 0..count {
        if !bitset::has(state.left, i as u32) {
            let member = state.members[i];
            r = bitset::minus(r, reach(member.begins, member.ends));
        }
    }
    r
}

// A member that is left: the one that ends last, or one with the fewest begins.
pub fn choose(state: Open) -> usize
    requires { (state.last < 4) × (0 < state.left) × ((i : ℕ) → In state.left i → i < 4) }
    ensures { In state.left result }
{
    if bitset::has(state.left, state.last as u32) {
        return state.last;
    }
    let members = state.members;
    let mut best = bitset::lowest(state.left) as usize;
    for i in bitset::members(state.left) {
        let i = i as usize;
        if u64::count_ones(members[i].begins) < u64::count_ones(members[best].begins) {
            best = i;
        }
    }
    best
}

// The ends at moment h or later.
fn late(ends: u64, h: u32) -> u64
    requires { h < 64 }
    ensures { (e : ℕ) → In ends e → h ≤ e → In result e }
{
    bitset::inter(ends, bitset::from(h))
}

// The set where member i begins by moment g and ends at moment h or later.
pub fn over(state: Open, i: usize, g: u32, h: u32) -> Open
    requires { (i < 4) × (g < 64) × (h < 64) }
    ensures { (result.from ≡ state.from) × (result.last ≡ state.last) × (result.left ≡ state.left) × ((count : ℕ) (bs es : ℕ → ℕ) → InDomains count state bs es → bs i ≤ g → h ≤ es i → InDomains count result bs es) }
{
    let mut members = state.members;
    members[i] = Choice {
        begins: bitset::inter(members[i].begins, bitset::upto(g)),
        ends: late(members[i].ends, h),
    };
    Open { members, ..state }
}

// The last of the gaps where one member alone is left to cover them, and g, the first, where there are more.
pub fn last_gap(left: u64, gaps: u64, g: u32) -> u32
    requires { (0 < left) × (0 < gaps) × In gaps g }
    ensures { In gaps result × (result < 64) × ((result ≡ g) ⊎ ((i j : ℕ) → In left i → In left j → i ≡ j)) }
{
    if bitset::drop_lowest(left) == 0 {
        return bitset::highest(gaps);
    }
    g
}

// The set to ends that are not found yet.
fn beyond(state: Open, found: u64) -> Open
    requires { state.last < 4 }
    ensures { (result.from ≡ state.from) × (result.last ≡ state.last) × (result.left ≡ state.left) × ((count : ℕ) (bs es : ℕ → ℕ) → state.last < count → InDomains count state bs es → In found (es state.last) ⊎ InDomains count result bs es) }
{
    let mut members = state.members;
    members[state.last].ends = bitset::minus(members[state.last].ends, found);
    Open { members, ..state }
}

// The set with member i begun at x, to ends that are not found yet. Where no end is left for `last`, the bounds are not asked.
pub fn placed(tables: &Tables, state: Open, i: usize, x: u32, found: u64) -> Open
    requires { PutReady tables.now.count state i x }
    ensures { (result.from ≡ state.from) × (result.last ≡ state.last) × IsSetOf result.left (λ k. has state.left k && not (eqb k i)) × ((bs es : ℕ → ℕ) → InTables tables.now state.from bs es → BoundsHave tables.now.count tables.now.bounds bs es → InDomains tables.now.count state bs es → bs i ≡ x → In found (es state.last) ⊎ InDomains tables.now.count result bs es) }
{
    let next = put(tables, beyond(state, found), i, x);
    if next.members[state.last].ends == 0 {
        return next;
    }
    bounds::tighten(&tables.bounds, tables.count, next)
}

// The set from a to z before any member is placed: each may begin at any moment, and `last` ends at one of `goal`. Of the tables it reads the later
// ends alone, so that what it promises holds whatever the ends and begins by pairs are.
pub fn unplaced(tables: &Tables, a: u32, z: u32, last: usize, goal: u64) -> Open
    requires { UnplacedReady tables.now.count last a z }
    ensures { (result.from ≡ a) × (result.last ≡ last) × ((i : ℕ) → In result.left i ↔ (i < tables.now.count)) × ((bs es : ℕ → ℕ) → LaterHave tables.now.count tables.now.later a bs es → ((i : ℕ) → i < tables.now.count → (a ≤ bs i) × (bs i ≤ es i) × (es i ≤ es last) × (es i ≤ z)) → In goal (es last) → InDomains tables.now.count result bs es) }
{
    let begins = bitset::between(a, z);
    let mut members = [Choice { begins, ends: 0 }; MEMBERS];
    for i in 0..tables.count {
        members[i].ends = tables.later[i * MOMENTS + a as usize];
    }
    members[last].ends = bitset::inter(members[last].ends, goal);
    Open {
        from: a,
        last,
        left: bitset::upto(tables.count as u32 - 1),
        members,
    }
}
