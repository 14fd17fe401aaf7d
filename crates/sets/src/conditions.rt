// Conditions: the moments that each allows, as masks. A function asks that its formulas and moments are below 64, its conditions below 8 and its
// moments in the span: they come as a word's fields and as members of sets, and a type for them would be taken apart again at each entry. Sets have
// u32 members, arrays and a word's fields are usize; no From joins them, so they are cast.
ghost use Rattle.std.specs.Prelude.{◌≡◌, ◌↔◌, ℕ, ◌+◌, ◌*◌, ◌<◌, ◌≤◌, length, get_or};
ghost use Rattle.bitset.specs.Code.Members.{In};
ghost use Rattle.words.specs.Fields.{holds};
ghost use Rattle.model.specs.Forms.{condition_number, HoldsBefore, HoldsAfter, HoldsBetween};
ghost use Rattle.sets.specs.Set.{MetAs, MetAt};
ghost use Rattle.model.specs.Code.Arrays.{value_in};
ghost use Rattle.sets.specs.Code.Masks.{Allowed, Failing, MaskOf, OwnMask, Picked, Tells};

use crate::span::Span;
use keeping::MASKS;
use words::forms::{BEGIN_AFTER_BEGIN, BEGIN_AFTER_END, HOLDS_AFTER, HOLDS_BEFORE, HOLDS_BETWEEN};
use words::{FORMULA_VALUES, MOMENTS};

// What a condition asks: the shortest and the longest way from one moment to the other, and the moments at which its formula fails.
#[derive(Clone, Copy)]
struct Asked {
    first: u32,
    last: u32,
    fails: u64,
    ghost shortest: { first < 64 },
    ghost longest: { last < 64 },
}

// The moments of the span at which the test says yes.
fn moments_where<F: Fn(u32) -> bool>(span: Span, test: F) -> u64
    requires { (t : ℕ) → span.a ≤ t → t ≤ span.z → F.pre test t }
    ensures { Picked span.a span.z (F.post test) result }
{
    let mut mask = 0;
    for t in span.a..=span.z {
        if test(t) {
            mask = bitset::union(mask, bitset::single(t));
        }
    }
    mask
}

// The moments of the span at which formula k does not hold.
fn failing(values: &[u8; FORMULA_VALUES], k: usize, span: Span) -> u64
    requires { k < 64 }
    ensures { (t : ℕ) → span.a ≤ t → t ≤ span.z → In result t ↔ (value_in values.now k t ≡ holds → ⊥) }
{
    moments_where(span, |t| values[k * MOMENTS + t as usize] != words::HOLDS)
}

// The moments at which formula k does not hold, of those at which a condition of this form asks for it where it asks of moments of the span.
fn failing_for(values: &[u8; FORMULA_VALUES], form: u32, k: usize, last: u32, span: Span) -> u64
    requires { (k < 64) × (last < 64) }
    ensures { Failing (condition_number form) (value_in values.now) span.last k last span.a span.z result }
{
    match form {
        HOLDS_BEFORE => {
            let a = span.a.saturating_sub(last);
            let early = Span {
                a,
                z: span.z,
                last: span.last,
            };
            failing(values, k, early)
        }
        HOLDS_AFTER => {
            let z = span.last.min(span.z + last);
            let late = Span {
                a: span.a,
                z,
                last: span.last,
            };
            failing(values, k, late)
        }
        HOLDS_BETWEEN => failing(values, k, span),
        _ => 0,
    }
}

// Whether the formula holds through y - last to y - first.
fn holds_before(asked: Asked, y: u32) -> bool
    requires { y < 64 }
    ensures { (n : ℕ) → Tells HoldsBefore n asked.first asked.last asked.fails y result }
{
    if y < asked.last {
        return false;
    }
    if y < asked.first {
        return true;
    }
    bitset::inter(
        asked.fails,
        bitset::between(y - asked.last, y - asked.first),
    ) == 0
}

// Whether the formula holds through y + first to y + last, which is no moment after the span's last one.
fn holds_after(asked: Asked, y: u32, span: Span) -> bool
    requires { y < 64 }
    ensures { Tells HoldsAfter span.last asked.first asked.last asked.fails y result }
{
    if span.last < y + asked.last {
        return false;
    }
    if asked.last < asked.first {
        return true;
    }
    bitset::inter(
        asked.fails,
        bitset::between(y + asked.first, y + asked.last),
    ) == 0
}

// The moments of the span at which a condition of the form HOLDS_BEFORE or HOLDS_AFTER is met, and none for another form, whose mask depends
// on the begin of member j.
fn own_mask(form: u32, asked: Asked, span: Span) -> u64
    ensures { OwnMask form span.last asked.first asked.last span.a span.z asked.fails result }
{
    match form {
        HOLDS_BEFORE => moments_where(span, |y| holds_before(asked, y)),
        HOLDS_AFTER => moments_where(span, |y| holds_after(asked, y, span)),
        _ => 0,
    }
}

// The moments from x - last to x - first.
fn window(asked: Asked, x: u32) -> u64
    requires { x < 64 }
    ensures { (y : ℕ) → In result y ↔ ((y + asked.first ≤ x) × (x ≤ y + asked.last)) }
{
    if x < asked.first {
        return 0;
    }
    if x < asked.last {
        return bitset::upto(x - asked.first);
    }
    bitset::between(x - asked.last, x - asked.first)
}

// The moments y of the span from which the formula holds through y + first to x - last.
fn holds_until(asked: Asked, x: u32, span: Span) -> u64
    requires { (span.a ≤ x) × (x ≤ span.z) }
    ensures { (value : ℕ → ℕ → ℕ) (n k y : ℕ) → Failing HoldsBetween value n k asked.last span.a span.z asked.fails → In result y ↔ ((span.a ≤ y) × (y ≤ span.z) × MetAs HoldsBetween value n k asked.first asked.last y y x) }
{
    let all = span.all();
    if x < asked.last {
        return all;
    }
    match bitset::highest_upto(asked.fails, x - asked.last) {
        Some(g) if asked.first <= g => bitset::minus(all, bitset::upto(g - asked.first)),
        _ => all,
    }
}

// The mask of a condition where its member j begins at x; `own` is that of a condition that asks nothing of j.
fn mask_at(form: u32, asked: Asked, own: u64, x: u32, span: Span) -> u64
    requires { (span.a ≤ x) × (x ≤ span.z) }
    ensures { (value : ℕ → ℕ → ℕ) (n k : ℕ) → Failing (condition_number form) value n k asked.last span.a span.z asked.fails → ((form ≡ 2) → MaskOf HoldsBefore value n k asked.first asked.last span.a span.z x own) → ((form ≡ 3) → MaskOf HoldsAfter value n k asked.first asked.last span.a span.z x own) → MaskOf (condition_number form) value n k asked.first asked.last span.a span.z x result }
{
    match form {
        BEGIN_AFTER_BEGIN | BEGIN_AFTER_END => bitset::inter(window(asked, x), span.all()),
        HOLDS_BEFORE | HOLDS_AFTER => own,
        HOLDS_BETWEEN => holds_until(asked, x, span),
        _ => 0,
    }
}

// The masks of condition w, number c, for each begin in the span.
fn fill_masks(values: &[u8; FORMULA_VALUES], w: u32, c: usize, span: Span, allow: &mut [u64; MASKS])
    requires { c < 8 }
    ensures { ((x y : ℕ) → span.a ≤ x → x ≤ span.z → In (get_or allow.new (c * 64 + x) 0) y ↔ ((span.a ≤ y) × (y ≤ span.z) × MetAt (value_in values.now) span.last w y y x)) × ((p : ℕ) → p < c * 64 → get_or allow.new p 0 ≡ get_or allow.old p 0) }
{
    let form = words::form_of(w);
    let first = words::condition_m(w) as u32;
    let last = words::condition_n(w) as u32;
    let fails = failing_for(values, form, words::condition_formula(w), last, span);
    let asked = Asked { first, last, fails };
    let own = own_mask(form, asked, span);
    for x in span.a..=span.z {
        allow[c * MOMENTS + x as usize] = mask_at(form, asked, own, x, span);
    }
}

// The masks of all conditions.
pub fn fill_allowed(
    values: &[u8; FORMULA_VALUES],
    conds: &[u32],
    span: Span,
    allow: &mut [u64; MASKS],
)
    requires { length conds.now ≤ 8 }
    ensures { Allowed (value_in values.now) conds.now span.last span.a span.z (length conds.now) allow.new }
{
    for (c, &w) in conds.iter().enumerate() {
        fill_masks(values, w, c, span, allow);
    }
}
