// Bounds on begins by ends: where a condition ties the end of member w to the begin of member j, the begins of j with which w may still end at a
// moment or later, and at a moment or sooner.
// A function asks that its members are below 4, its rows below 16 and its moments below 64: a type for them would be taken apart again at each
// table entry.
// Sets have u32 members and arrays usize indices; no From joins them, so both are cast.
ghost use Rattle.std.specs.Prelude.{◌≡◌, ℕ, ◌+◌, ◌*◌, ◌<◌, ◌≤◌, length, get_or};
ghost use Rattle.bitset.specs.Code.Members.{In};
ghost use Rattle.narrowing.specs.Code.Tables.{EndsHave, BoundsHave, Bounded};
ghost use Rattle.sets.specs.Code.Tables.{InSpan, BoundsFilled};
ghost use Rattle.sets.specs.Code.Bounds.{Grows, EndMarked};

use crate::span::Span;
use crate::tables::{members_of, pair, pairs};
use keeping::{BOUNDS, FILLED, PAIRS, SOONER, Tables};
use words::forms::{BEGIN_AFTER_END, HOLDS_BETWEEN};
use words::{MEMBERS, MOMENTS};

// Marks begin y in row p at the last and at the first of its ends.
fn mark(p: usize, y: u32, mask: u64, bounds: &mut [u64; BOUNDS])
    requires { (p < 16) × (y < 64) }
    ensures { Grows bounds.old bounds.new × ((e : ℕ) → In mask e → EndMarked bounds.new p y e) }
{
    if mask == 0 {
        return;
    }
    let begin = bitset::single(y);
    let late = p * MOMENTS + bitset::highest(mask) as usize;
    bounds[late] = bitset::union(bounds[late], begin);
    let soon = SOONER + p * MOMENTS + bitset::lowest(mask) as usize;
    bounds[soon] = bitset::union(bounds[soon], begin);
}

// Marks each begin in the span in row p at the last and at the first of its ends in the span, by row p of the table of ends.
fn mark_pair(ends: &[u64; PAIRS], p: usize, span: Span, bounds: &mut [u64; BOUNDS])
    requires { p < 16 }
    ensures { Grows bounds.old bounds.new × ((y e : ℕ) → span.a ≤ y → y ≤ span.z → span.a ≤ e → e ≤ span.z → In (get_or ends.now (p * 64 + y) 0) e → EndMarked bounds.new p y e) }
{
    let window = span.all();
    for y in span.a..=span.z {
        let mask = bitset::inter(ends[p * MOMENTS + y as usize], window);
        mark(p, y, mask, bounds);
    }
}

// The last of the entries of a row, one for each moment.
const LAST: usize = MOMENTS - 1;

// Adds to each of the 64 entries from `base` on what the entries before it in this order have: that of `order(k)` comes after k others.
fn join<F: Fn(usize) -> usize>(base: usize, order: F, bounds: &mut [u64; BOUNDS])
    ghost turn: { ℕ → ℕ }
    requires low { base ≤ 1984 }
    requires ordered { (k : ℕ) → k < 64 → F.pre order k × ((e : ℕ) → F.post order k e → (e ≡ turn k) × (e < 64)) }
    ensures { Grows bounds.old bounds.new × ((k l y : ℕ) → k ≤ l → l < 64 → In (get_or bounds.old (base + turn k) 0) y → In (get_or bounds.new (base + turn l) 0) y) }
{
    let mut all = 0;
    for k in 0..MOMENTS {
        let q = base + order(k);
        all = bitset::union(all, bounds[q]);
        bounds[q] = all;
    }
}

// The bounds of row p.
fn fill_pair(ends: &[u64; PAIRS], p: usize, span: Span, bounds: &mut [u64; BOUNDS])
    requires { p < 16 }
    ensures { Grows bounds.old bounds.new × ((y e : ℕ) → span.a ≤ y → y ≤ span.z → span.a ≤ e → e ≤ span.z → In (get_or ends.now (p * 64 + y) 0) e → Bounded bounds.new p y e) }
{
    mark_pair(ends, p, span, bounds);
    join(p * MOMENTS, |k| LAST - k, bounds);
    join(SOONER + p * MOMENTS, |k| k, bounds);
}

// The pair of members of which condition w ties the end of the one to the begin of the other, if it ties any.
fn tied_by(w: u32) -> u64 {
    match words::form_of(w) {
        BEGIN_AFTER_END | HOLDS_BETWEEN => { pair(words::condition_i(w), words::condition_j(w)) }
        _ => 0,
    }
}

// The bounds of the pair (w, j).
fn fill_members(ends: &[u64; PAIRS], w: usize, j: usize, span: Span, bounds: &mut [u64; BOUNDS])
    requires { (w < 4) × (j < 4) }
    ensures { (count : ℕ) (bs es : ℕ → ℕ) → w < count → j < count → InSpan count span.a span.z bs es → EndsHave count ends.now bs es → BoundsHave count bounds.old bs es → BoundsHave count bounds.new bs es }
{
    fill_pair(ends, w * MEMBERS + j, span, bounds);
    bounds[FILLED + j] = bitset::union(bounds[FILLED + j], bitset::single(w as u32));
}

// The bounds of all pairs that are tied, but none where the span is short.
pub fn fill(span: Span, tables: &mut Tables)
    requires { (q : ℕ) → get_or tables.old.bounds q 0 ≡ 0 }
    ensures { BoundsFilled tables.old tables.new span.a span.z }
{
    if span.is_short() {
        return;
    }
    let count = tables.count;
    for p in bitset::members(pairs(tables.conditions, |w| tied_by(w))) {
        if let Some((w, j)) = members_of(p, count) {
            fill_members(&tables.ends, w, j, span, &mut tables.bounds);
        }
    }
}
