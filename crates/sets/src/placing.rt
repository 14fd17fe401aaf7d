// A placement, for whoever writes a reading. Moments are members of sets, and the last one is cast to be one, since there is no `u32::from` of a
// usize; a function asks that they are below 64, since a type for them would be taken apart again at each operation on sets.
ghost use Rattle.std.specs.Prelude.{ℕ, ◌<◌, ◌≤◌};
ghost use Rattle.bitset.specs.Code.Members.{Highest, In};
ghost use Rattle.sets.specs.Code.Rows.{task_set_of, Placed, Placeable};
ghost use Rattle.covering.specs.Code.Cover.{entry_at};
ghost use Rattle.model.specs.Code.Table.{InTable};

use crate::span::Span;
use crate::{firsts, tables};
use keeping::Tables;
use model::{Arrays, SetWords};
use words::MEMBERS;

// The members' begins and ends. They are two lists and no list of pairs, since the search keeps the begins alone and the ends are chosen for them.
#[derive(Clone, Copy)]
pub struct Placement {
    pub begins: [u32; MEMBERS],
    pub ends: [u32; MEMBERS],
}

// The greatest member up to e. There is one.
fn greatest_upto(x: u64, e: u32) -> u32
    requires { (e < 64) × ((y : ℕ) × In x y × (y ≤ e)) }
    ensures { Highest x e result }
{
    bitset::highest_upto(x, e).unwrap_or(0)
}

// The greatest end up to e of each member's mask.
fn greatest_ends(tables: &Tables, sets: [u64; MEMBERS], e: u32) -> [u32; MEMBERS]
    requires { (e < 64) × ((i : ℕ) → i < tables.now.count → (y : ℕ) × In (entry_at sets i) y × (y ≤ e)) }
    ensures { (i : ℕ) → i < tables.now.count → Highest (entry_at sets i) e (entry_at result i) }
{
    let mut ends = [0u32; MEMBERS];
    for i in 0..tables.count {
        ends[i] = greatest_upto(sets[i], e);
    }
    ends
}

// Begins and ends with which the set reads b to e, as it does. Its tables are those of b..e.
fn place_by_tables(set: SetWords, arrays: &Arrays, table: &[u64], b: u32, e: u32) -> Placement
    requires { Placeable (task_set_of set.members.now set.conditions.now arrays.now.values arrays.now.last) table.now b e }
    ensures { Placed (task_set_of set.entry.members.now set.entry.conditions.now arrays.now.values arrays.now.last) (InTable table.now) b e (entry_at result.begins) (entry_at result.ends) }
{
    let span = Span {
        a: b,
        z: e,
        last: arrays.last as u32,
    };
    let mut tables = tables::unpruned(set);
    tables::fill(set.members, &arrays.values, table, span, &mut tables);
    let begins = firsts::row(&tables, b, e, bitset::single(e)).begins;
    let masks = ending::ends::ends_at(&tables, begins);
    let ends = greatest_ends(&tables, masks, e);
    Placement { begins, ends }
}

// Begins and ends with which the set reads b to e, as it does. One member alone begins at b and ends at e.
pub fn place(set: SetWords, arrays: &Arrays, table: &[u64], b: u32, e: u32) -> Placement
    requires { Placeable (task_set_of set.members.now set.conditions.now arrays.now.values arrays.now.last) table.now b e }
    ensures { Placed (task_set_of set.entry.members.now set.entry.conditions.now arrays.now.values arrays.now.last) (InTable table.now) b e (entry_at result.begins) (entry_at result.ends) }
{
    if set.members.len() == 1 {
        return Placement {
            begins: [b; MEMBERS],
            ends: [e; MEMBERS],
        };
    }
    place_by_tables(set, arrays, table, b, e)
}
