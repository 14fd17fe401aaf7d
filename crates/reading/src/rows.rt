// The row of a node at a begin, the set of the ends that it reads to: one function a form, each by the clause of its form in
// specs/Code/Rule.antt, over the rows that stand in the table already.
// Nodes and moments are numbers below 64: each function asks it of them, since a type for such a number would be taken apart at every index. A set's
// members are u32, so that moments are cast: there is no `From` between usize and u32.
ghost use Rattle.std.specs.Prelude.{true, ◌≡◌, ◌↔◌, ◌⊎◌, ℕ, ◌+◌, ◌*◌, ◌<◌, ◌≤◌};
ghost use Rattle.bitset.specs.Code.Members.{has, In};
ghost use Rattle.words.specs.Fields.{fails, holds};
ghost use Rattle.model.specs.Code.Arrays.{alone, trajectory_in};
ghost use Rattle.model.specs.Code.Table.{InTable};
ghost use Rattle.reading.specs.Code.Rule.{InTurn, StartsWithin, EndsWithin};
ghost use Rattle.reading.specs.Code.Quiet.{QuietIn};
ghost use Rattle.reading.specs.Code.Table.{TwoRows, RowsThrough, WindowReady, After, RowReady, RowOf};

use crate::pauses::{Pause, pause_of, quiet_upto};
use model::{Arrays, Node};
use words::forms::{ACT, CHOICE, END_WINDOW, IF, SEQUENCE, START_WINDOW, TASK_SET, TEST, WHILE};
use words::{FAILS, HOLDS, MOMENTS};

// The moments from `first` to `end`, none after `last`.
fn window(first: usize, end: usize, last: usize) -> u64
    requires { last < 64 }
    ensures { (m : ℕ) → In result m ↔ ((first ≤ m) × (m ≤ end) × (m ≤ last)) }
{
    if last < first {
        return 0;
    }
    // two calls, and not one up to `end.min(last)`: so the mask up to `last` is made once, outside the loop of `windows`
    if last < end {
        return bitset::between(first as u32, last as u32);
    }
    bitset::between(first as u32, end as u32)
}

// The moments that lie a pause after some member of `ends`, none after `last`.
fn windows(ends: u64, pause: Pause, last: usize) -> u64
    requires { WindowReady last pause.least pause.most }
    ensures { (m : ℕ) → In result m ↔ After ends pause last m }
{
    let mut found = 0;
    for end in bitset::members(ends) {
        let k = end as usize;
        let begins = window(k + pause.least, quiet_upto(pause, k), last);
        found = bitset::union(found, begins);
    }
    found
}

// 0, act: `starting` is the set of the action's starts.
fn act_row(starting: u64, duration: usize, last: usize, b: usize) -> u64
    requires { (b ≤ last) × (last < 64) }
    ensures { (e : ℕ) → In result e ↔ ((has starting b ≡ true) × (e ≡ b + duration) × (e ≤ last)) }
{
    if last - b < duration {
        return 0;
    }
    if bitset::has(starting, b as u32) {
        return bitset::single((b + duration) as u32);
    }
    0
}

// 1, test: `value` is the formula's at b.
fn test_row(value: u8, b: usize) -> u64
    requires { b < 64 }
    ensures { (e : ℕ) → In result e ↔ ((value ≡ holds) × (e ≡ b)) }
{
    if value == HOLDS {
        return bitset::single(b as u32);
    }
    0
}

// 2, sequence: Y begins where X ends.
fn sequence_row(last: usize, table: &[u64], x: usize, y: usize, b: usize) -> u64
    requires { RowsThrough table.now x y b last }
    ensures { (e : ℕ) → In result e ↔ InTurn b last (InTable table.now x b) (λ m. InTable table.now y m e) }
{
    bitset::join_rows(table[x * MOMENTS + b], table, y * MOMENTS)
}

// 3, choice: the ends of either part.
fn choice_row(table: &[u64], x: usize, y: usize, b: usize) -> u64
    requires { TwoRows table.now x y b }
    ensures { (e : ℕ) → In result e ↔ (InTable table.now x b e ⊎ InTable table.now y b e) }
{
    bitset::union(table[x * MOMENTS + b], table[y * MOMENTS + b])
}

// 4, if: an open formula takes neither.
fn if_row(value: u8, table: &[u64], y: usize, m: usize, b: usize) -> u64
    requires { TwoRows table.now y m b }
    ensures { (e : ℕ) → In result e ↔ (((value ≡ holds) × InTable table.now y b e) ⊎ ((value ≡ fails) × InTable table.now m b e)) }
{
    if value == HOLDS {
        return table[y * MOMENTS + b];
    }
    if value == FAILS {
        return table[m * MOMENTS + b];
    }
    0
}

// 5, while: a pass ends later than it began, and the rest is the loop's own row at that end. Its six parameters are those of the clause: a struct of
// some of them would be made for this call alone.
fn while_row(guard: u8, last: usize, table: &[u64], p: usize, y: usize, b: usize) -> u64
    requires b_le_last { (b ≤ last) × (last < 64) }
    requires two_rows { TwoRows table.now p y b }
    ensures { (e : ℕ) → In result e ↔ (((guard ≡ fails) × (e ≡ b)) ⊎ ((guard ≡ holds) × InTurn (b + 1) last (InTable table.now y b) (λ m. InTable table.now p m e))) }
{
    if guard == FAILS {
        return bitset::single(b as u32);
    }
    if guard == HOLDS {
        let passes = bitset::inter(table[y * MOMENTS + b], window(b + 1, last, last));
        return bitset::join_rows(passes, table, p * MOMENTS);
    }
    0
}

// 6, start window: Y begins M to N after the begin, and each end is the greater of one of X's and one of Y's.
fn start_window_row(last: usize, table: &[u64], node: Node, b: usize) -> u64
    requires two_rows { TwoRows table.now node.x node.y b }
    requires window_ready { WindowReady last node.m node.n }
    ensures { (e : ℕ) → In result e ↔ StartsWithin (b + node.m) (b + node.n) last e (InTable table.now node.x b) (InTable table.now node.y) }
{
    let begins = window(b + node.m, b + node.n, last);
    bitset::max_of(
        table[node.x * MOMENTS + b],
        bitset::join_rows(begins, table, node.y * MOMENTS),
    )
}

// 7, end window: Y begins a quiet pause after one of X's ends.
fn end_window_row(last: usize, table: &[u64], node: Node, pause: Pause, b: usize) -> u64
    requires rows_through { RowsThrough table.now node.x node.y b last }
    requires window_ready { WindowReady last pause.least pause.most }
    ensures { (e : ℕ) → In result e ↔ EndsWithin b pause.least pause.most last (QuietIn pause.started) (InTable table.now node.x b) (λ m. InTable table.now node.y m e) }
{
    let begins = windows(table[node.x * MOMENTS + b], pause, last);
    bitset::join_rows(begins, table, node.y * MOMENTS)
}

// The row of a node, of which `word` is the word, at b: any form but 8, a task set, whose rows are filled together. It has six parameters: what it is
// the row of, and what is lent. The table changes from row to row, so that a struct of what is lent would be made anew for each.
pub fn row(word: u32, arrays: &Arrays, started: u64, table: &[u64], p: usize, b: usize) -> u64
    requires { RowReady (alone word) (trajectory_in arrays.now) started table.now p b }
    ensures { RowOf (alone word) (trajectory_in arrays.now) table.now p b result }
{
    let last = arrays.last;
    let node = model::node_of(word);
    let (x, y) = (node.x, node.y);
    match node.form {
        ACT => act_row(arrays.starts[x], arrays.durations[x], last, b),
        TEST => test_row(arrays.value(x, b), b),
        SEQUENCE => sequence_row(last, table, x, y, b),
        CHOICE => choice_row(table, x, y, b),
        IF => if_row(arrays.value(x, b), table, y, node.m, b),
        WHILE => while_row(arrays.value(x, b), last, table, p, y, b),
        START_WINDOW => start_window_row(last, table, node, b),
        END_WINDOW => end_window_row(last, table, node, pause_of(word, started), b),
        // A task set never comes here (see `fill_node`). Forms 9 to 15 are reserved: a job that has one is refused, and nothing reads it.
        TASK_SET.. => 0,
    }
}
