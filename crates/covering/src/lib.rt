// The ends of a set whose members' begins are fixed, by the masks of the members' ends, with no search.
// A function asks that its moments are below 64: they are members of sets, and a type for them would be taken apart again at each operation on sets.
// They are u32 there, and the number of all moments is cast, since there is no `u32::from` of a usize.
#![tactic(auto)]

ghost use Rattle.std.specs.Prelude.{◌≡◌, true, ◌↔◌, ℕ, ◌<◌, ◌≤◌, length, IfSome, IsSomeAnd};
ghost use Rattle.bitset.specs.Code.Members.{In};
ghost use Rattle.covering.specs.Code.Cover.{SomeBelow, Needed, Coverable, CoverReady, entry_at};

use words::MOMENTS;

// The ends of the members that begin before x.
fn ends_before(begins: &[u32], ends: &[u64], x: u32) -> u64
    requires { length ends.now ≡ length begins.now }
    ensures { (e : ℕ) → In result e ↔ SomeBelow (length begins.now) (λ i. (entry_at begins.now i < x) × (In (entry_at ends.now i) e)) }
{
    let mut r = 0;
    for (i, &begin) in begins.iter().enumerate() {
        if begin < x {
            r = bitset::union(r, ends[i]);
        }
    }
    r
}

// The least member from a on.
fn least_from(x: u64, a: u32) -> Option<u32>
    requires { a < 64 }
    ensures moment { IfSome result (λ m. m < 64) }
    ensures least { (e : ℕ) → e < 64 → IsSomeAnd result (λ m. m ≤ e) ↔ ((y : ℕ) × (In x y) × (a ≤ y) × (y ≤ e)) }
{
    let late = bitset::inter(x, bitset::from(a));
    if late == 0 {
        return None;
    }
    Some(bitset::lowest(late))
}

// The end from which on member i asks nothing more.
fn need(begins: &[u32], ends: &[u64], b: u32, i: usize) -> Option<u32>
    requires { (length ends.now ≡ length begins.now) × (i < length begins.now) × (entry_at begins.now i < 64) }
    ensures moment { IfSome result (λ m. m < 64) }
    ensures least { (e : ℕ) → e < 64 → IsSomeAnd result (λ m. m ≤ e) ↔ Needed (length begins.now) (entry_at begins.now) (entry_at ends.now) b i e }
{
    let own = least_from(ends[i], 0)?;
    let x = begins[i];
    if b < x {
        let bridge = least_from(ends_before(begins, ends, x), x - 1)?;
        return Some(own.max(bridge));
    }
    Some(own)
}

// Whether one of the members begins at b.
fn begins_at(begins: &[u32], b: u32) -> bool
    ensures { (result ≡ true) ↔ SomeBelow (length begins.now) (λ i. entry_at begins.now i ≡ b) }
{
    begins.contains(&b)
}

// The ends e of which some choice of ends covers b..e. Begins and ends are two lists and no list of pairs, since a search keeps the begins alone.
pub fn covered(begins: &[u32], ends: &[u64], b: u32) -> u64
    requires { CoverReady (length begins.now) (entry_at begins.now) (entry_at ends.now) × (length ends.now ≡ length begins.now) }
    ensures { (e : ℕ) → In result e ↔ Coverable (length begins.now) (entry_at begins.now) (entry_at ends.now) b e }
{
    if !begins_at(begins, b) {
        return 0;
    }
    let mut least = 0;
    for i in 0..begins.len() {
        let Some(own) = need(begins, ends, b, i) else {
            return 0;
        };
        least = own.max(least);
    }
    bitset::inter(
        ends_before(begins, ends, MOMENTS as u32),
        bitset::from(least),
    )
}
