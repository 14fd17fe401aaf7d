// The tables of a set for the moments a..z: the masks of its conditions, and by pairs of members the ends of i where j begins at y, the begins
// of j where i begins at x, and the ends of i begun at x or later. They leave out what no placement has.
// A function asks that its members are below 4, its conditions below 8 and its moments within the span or below 64: a type for them would be taken
// apart again at each table entry.
// Sets have u32 members and arrays usize indices; no From joins them, so both are cast.
ghost use Rattle.std.specs.Prelude.{◌≡◌, true, ◌↔◌, ℕ, ◌+◌, ◌*◌, ◌<◌, ◌≤◌, length, get_or, MatchOption};
ghost use Rattle.bitset.specs.Code.Members.{In};
ghost use Rattle.words.specs.Fields.{member_node, condition_i, condition_j};
ghost use Rattle.sets.specs.Code.Rows.{task_set_of};
ghost use Rattle.model.specs.Code.Table.{InTable};
ghost use Rattle.keeping.specs.Code.Tables.{pair_at};
ghost use Rattle.ending.specs.Code.Ends.{MetAtMask, MetByMask};
ghost use Rattle.sets.specs.Code.Tables.{Have, LeftOut, Cut, InSpan, OwnRow, OwnRows, SameElse, LaterFilled, UnprunedTables, TablesReady, TablesOf};

use crate::span::Span;
use crate::{bounds, conditions};
use keeping::{BOUNDS, MASKS, PAIRS, ROWS, Tables, pair_at, pair_index};
use model::SetWords;
use words::forms::{BEGIN_AFTER_BEGIN, HOLDS_BEFORE};
use words::{FORMULA_VALUES, MEMBERS, MOMENTS};

// Leaves out of row p of a table, at the moments of the span, what the masks of condition c leave out.
fn cut(table: &mut [u64; PAIRS], p: usize, allow: &[u64; MASKS], c: usize, span: Span)
    requires { (p < 16) × (c < 8) }
    ensures { Cut table.old p allow.now c span.a span.z table.new }
{
    for y in span.a as usize..=span.z as usize {
        table[p * MOMENTS + y] = bitset::inter(table[p * MOMENTS + y], allow[c * MOMENTS + y]);
    }
}

// Leaves out what condition c, of word w, leaves out: begins of i where its partner begins at y, or ends of i.
fn cut_for(w: u32, c: usize, span: Span, tables: &mut Tables)
    requires { (c < 8) × (condition_i w < 4) × (condition_j w < 4) }
    ensures { SameElse tables.old tables.new × ((count : ℕ) (bs es : ℕ → ℕ) → InSpan count span.a span.z bs es → count ≤ 4 → condition_i w < count → condition_j w < count → MetAtMask w tables.old.allow bs c (es (condition_i w)) → Have tables.old.ends tables.old.goes count bs es → Have tables.new.ends tables.new.goes count bs es) }
{
    let form = words::form_of(w);
    let i = words::condition_i(w);
    let j = ending::ends::partner(form, i, words::condition_j(w));
    match form {
        BEGIN_AFTER_BEGIN | HOLDS_BEFORE => {
            cut(&mut tables.goes, j * MEMBERS + i, &tables.allow, c, span)
        }
        _ => cut(&mut tables.ends, i * MEMBERS + j, &tables.allow, c, span),
    }
}

// Leaves out what the conditions leave out.
fn cut_all(span: Span, tables: &mut Tables)
    ensures { SameElse tables.old tables.new × ((count : ℕ) (bs es : ℕ → ℕ) → InSpan count span.a span.z bs es → count ≤ 4 → ((c : ℕ) → c < length tables.old.conditions.now → (condition_i (get_or tables.old.conditions.now c 0) < count) × (condition_j (get_or tables.old.conditions.now c 0) < count) × MetByMask tables.old.conditions.now tables.old.allow bs c (es (condition_i (get_or tables.old.conditions.now c 0)))) → Have tables.old.ends tables.old.goes count bs es → Have tables.new.ends tables.new.goes count bs es) }
{
    let conds = tables.conditions;
    for (c, &w) in conds.iter().enumerate() {
        cut_for(w, c, span, tables);
    }
}

// The ends of `row` that member i, begun at x, may have, as far as the tables and the span allow.
fn own_row(row: u64, i: usize, x: u32, span: Span, tables: &Tables) -> u64
    requires { (i < 4) × (x ≤ span.z) }
    ensures { (e : ℕ) → In result e ↔ (In row e × (x ≤ e) × (e ≤ span.z) × In (pair_at tables.now.ends i i x) e × In (pair_at tables.now.goes i i x) x) }
{
    if !bitset::has(pair_at(&tables.goes, i, i, x), x) {
        return 0;
    }
    let after = bitset::inter(row, bitset::between(x, span.z));
    bitset::inter(after, pair_at(&tables.ends, i, i, x))
}

// Puts the row of member i, of node m, on the diagonal of `ends`, for its begins in the span.
fn fill_own_row(table: &[u64], m: usize, i: usize, span: Span, tables: &mut Tables)
    requires { (m * 64 + 64 ≤ length table.now) × (i < 4) }
    ensures { OwnRow (InTable table.now m) tables.old.goes i span.a span.z tables.old.ends tables.new.ends (span.z + 1) × SameElse tables.old tables.new × (tables.new.goes ≡ tables.old.goes) }
{
    for x in span.a..=span.z {
        let row = table[m * MOMENTS + x as usize];
        tables.ends[pair_index(i, i, x)] = own_row(row, i, x, span, tables);
    }
}

// Puts the row of each member on the diagonal of `ends`, for its begins in the span.
fn fill_own(members: &[u32], table: &[u64], span: Span, tables: &mut Tables)
    requires { (length members.now ≤ 4) × ((i : ℕ) → i < length members.now → member_node (get_or members.now i 0) * 64 + 64 ≤ length table.now) }
    ensures { OwnRows members.now table.now tables.old.goes span.a span.z tables.old.ends tables.new.ends (length members.now) × SameElse tables.old tables.new × (tables.new.goes ≡ tables.old.goes) }
{
    for (i, &w) in members.iter().enumerate() {
        fill_own_row(table, words::member_node(w), i, span, tables);
    }
}

// Whether members i and j, begun at x and y, may both end, and each may begin where the other does.
fn together(tables: &Tables, i: usize, x: u32, j: usize, y: u32) -> bool
    requires { (i < 4) × (j < 4) × (x < 64) × (y < 64) }
    ensures { (d e : ℕ) → In (pair_at tables.now.ends i i x) d → In (pair_at tables.now.ends i j y) d → In (pair_at tables.now.ends j j y) e → In (pair_at tables.now.ends j i x) e → In (pair_at tables.now.goes j i y) x → result ≡ true }
{
    let ends = &tables.ends;
    if bitset::inter(pair_at(ends, i, i, x), pair_at(ends, i, j, y)) == 0 {
        return false;
    }
    if bitset::inter(pair_at(ends, j, j, y), pair_at(ends, j, i, x)) == 0 {
        return false;
    }
    bitset::has(pair_at(&tables.goes, j, i, y), x)
}

// The begins of member j, where member i begins at x, with which both may end.
fn partners(tables: &Tables, i: usize, x: u32, j: usize) -> u64
    requires { (i < 4) × (j < 4) × (x < 64) }
    ensures { (y d e : ℕ) → In (pair_at tables.now.goes i j x) y → In (pair_at tables.now.ends i i x) d → In (pair_at tables.now.ends i j y) d → In (pair_at tables.now.ends j j y) e → In (pair_at tables.now.ends j i x) e → In (pair_at tables.now.goes j i y) x → In result y }
{
    if pair_at(&tables.ends, i, i, x) == 0 {
        return 0;
    }
    let mut r = 0;
    for y in bitset::members(pair_at(&tables.goes, i, j, x)) {
        if together(tables, i, x, j, y) {
            r = bitset::union(r, bitset::single(y));
        }
    }
    r
}

// The ends of member i where member j has one of these begins.
fn some_ends(ends: &[u64; PAIRS], i: usize, j: usize, begins: u64) -> u64
    requires { (i < 4) × (j < 4) }
    ensures { (y e : ℕ) → In begins y → In (pair_at ends.now i j y) e → In result e }
{
    bitset::join_rows(begins, ends, pair_index(i, j, 0))
}

// Leaves out, for the pair of members i and j, the begins of j with which no ends of both are left, and the ends of i with which no begin of j
// is left.
fn cut_pair(i: usize, j: usize, span: Span, tables: &mut Tables)
    requires { (i < 4) × (j < 4) }
    ensures { SameElse tables.old tables.new × ((count : ℕ) → i < count → j < count → count ≤ 4 → LeftOut count span.a span.z tables.old.ends tables.old.goes tables.new.ends tables.new.goes) }
{
    for x in span.a..=span.z {
        let begins = partners(tables, i, x, j);
        tables.goes[pair_index(i, j, x)] = begins;
        let p = pair_index(i, i, x);
        tables.ends[p] = bitset::inter(tables.ends[p], some_ends(&tables.ends, i, j, begins));
    }
}

// The pair of the members i and j, as a set of pairs: it stands at i * MEMBERS + j.
pub fn pair(i: usize, j: usize) -> u64
    requires { (i < 8) × (j < 8) }
{
    bitset::single((i * MEMBERS + j) as u32)
}

// The members i and j of pair p, where these are different members of the set.
pub fn members_of(p: u32, count: usize) -> Option<(usize, usize)>
    ensures { MatchOption result (Unit {0}) (λ m. (m.0 < count) × (m.1 < count)) }
{
    let i = p as usize / MEMBERS;
    let j = p as usize % MEMBERS;
    if i < count && j < count && i != j {
        Some((i, j))
    } else {
        None
    }
}

// The pairs of members that condition w is on.
fn pairs_of(w: u32) -> u64 {
    let i = words::condition_i(w);
    let j = ending::ends::partner(words::form_of(w), i, words::condition_j(w));
    bitset::union(pair(i, j), pair(j, i))
}

// The pairs of members that the conditions give, by what `given` reads from the word of one.
pub(crate) fn pairs<F: Fn(u32) -> u64>(conds: &[u32], given: F) -> u64
    requires { F.IsAlwaysCallable given }
{
    conds
        .iter()
        .fold(0, |pairs, &w| bitset::union(pairs, given(w)))
}

// Cuts each pair of different members among `pairs`.
fn cut_pairs(pairs: u64, span: Span, tables: &mut Tables)
    ensures { SameElse tables.old tables.new × LeftOut tables.old.count span.a span.z tables.old.ends tables.old.goes tables.new.ends tables.new.goes }
{
    let count = tables.count;
    for p in bitset::members(pairs) {
        if let Some((i, j)) = members_of(p, count) {
            cut_pair(i, j, span, tables);
        }
    }
}

// Cuts each pair that some condition is on, but none where the span is short.
fn cut_constrained(span: Span, tables: &mut Tables)
    ensures { SameElse tables.old tables.new × LeftOut tables.old.count span.a span.z tables.old.ends tables.old.goes tables.new.ends tables.new.goes }
{
    if span.is_short() {
        return;
    }
    cut_pairs(pairs(tables.conditions, |w| pairs_of(w)), span, tables);
}

// The ends of member i begun at x or later, for each x of the span from the last down.
fn fill_later_row(ends: &[u64; PAIRS], i: usize, span: Span, later: &mut [u64; ROWS])
    requires { i < 4 }
    ensures { ((x y e : ℕ) → span.a ≤ x → x ≤ y → y ≤ span.z → In (pair_at ends.now i i y) e → In (get_or later.new (i * 64 + x) 0) e) × ((p : ℕ) → p < i * 64 → get_or later.new p 0 ≡ get_or later.old p 0) }
{
    let mut all = 0;
    for x in (span.a..=span.z).rev() {
        all = bitset::union(all, pair_at(ends, i, i, x));
        later[i * MOMENTS + x as usize] = all;
    }
}

// The ends of each member begun at x or later, for each x of the span.
fn fill_later(span: Span, tables: &mut Tables)
    ensures { LaterFilled tables.old tables.new span.a span.z }
{
    for i in 0..tables.count {
        fill_later_row(&tables.ends, i, span, &mut tables.later);
    }
}

// Tables of the set that nothing is left out of, with no bounds.
pub fn unpruned(set: SetWords) -> Tables
    requires { (length set.members.now ≤ 4) × (length set.conditions.now ≤ 8) × ((c : ℕ) → c < length set.conditions.now → (condition_i (get_or set.conditions.now c 0) < 4) × (condition_j (get_or set.conditions.now c 0) < 4)) }
    ensures { UnprunedTables set.entry.conditions.now (length set.entry.members.now) result }
{
    let every = bitset::from(0);
    Tables {
        conditions: set.conditions,
        count: set.members.len(),
        allow: [0; MASKS],
        ends: [every; PAIRS],
        goes: [every; PAIRS],
        later: [0; ROWS],
        bounds: [0; BOUNDS],
    }
}

// All tables of the set, from tables that nothing is left out of.
pub fn fill(
    members: &[u32],
    values: &[u8; FORMULA_VALUES],
    table: &[u64],
    span: Span,
    tables: &mut Tables,
)
    requires { TablesReady (task_set_of members.now tables.old.conditions.now values.now span.last) table.now tables.old }
    ensures { TablesOf (task_set_of members.now tables.old.conditions.now values.now span.last) (InTable table.now) span.a span.z tables.new }
{
    conditions::fill_allowed(values, tables.conditions, span, &mut tables.allow);
    cut_all(span, tables);
    fill_own(members, table, span, tables);
    cut_constrained(span, tables);
    fill_later(span, tables);
    bounds::fill(span, tables);
}
