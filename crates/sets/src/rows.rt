// The rows of a task set: for each begin, the mask of the ends that the set reads to. Moments are cast to be
// members of sets, and back, since there is no `From` between usize and u32.
ghost use Rattle.std.specs.Prelude.{length};
ghost use Rattle.sets.specs.Code.Rows.{task_set_of, SetReady, SetRows};

use crate::span::Span;
use crate::{firsts, tables};
use model::{Arrays, SetWords};
use words::MOMENTS;

// The rows of the task set at node p.
pub fn set_rows(set: SetWords, arrays: &Arrays, p: usize, table: &mut [u64])
    requires { SetReady (task_set_of set.members.now set.conditions.now arrays.now.values arrays.now.last) p (length table.old) }
    ensures { SetRows (task_set_of set.entry.members.now set.entry.conditions.now arrays.now.values arrays.now.last) p table.old table.new }
{
    let last = arrays.last as u32;
    let span = Span {
        a: 0,
        z: last,
        last,
    };
    let mut tables = tables::unpruned(set);
    tables::fill(set.members, &arrays.values, table, span, &mut tables);
    for b in 0..=last {
        let goal = bitset::between(b, last);
        let found = firsts::row(&tables, b, last, goal);
        table[p * MOMENTS + b as usize] = found.ends;
    }
}
