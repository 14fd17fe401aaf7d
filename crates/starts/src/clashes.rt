// Row 9: starts that clash. A function asks of an action that the job has it: a type for such an action would have the job in it, which `tables`
// has, and be taken apart again at each entry of a table. Bytes tell of clashes, 1 and 0, as `Told` of the definitions has it, and a latest finish
// is 0 for none: no moment is before it, so that no test of it is needed.
ghost use Rattle.std.specs.Prelude.{◌≡◌, length};
ghost use Rattle.words.specs.Scan.{any_below};
ghost use Rattle.answers.specs.Rows.{first_of};
ghost use Rattle.job.specs.Parts.{actions};
ghost use Rattle.history.specs.Code.Tables.{Effects};
ghost use Rattle.starts.specs.Rows.{clash, clashes, numbered};
ghost use Rattle.starts.specs.Code.Latest.{PairStored, ClashesWith, clashes_after};
ghost use Rattle.starts.specs.Code.Given.{Timed, Paired, PairStorable, Comparable, Compared};
ghost use Rattle.answers.specs.Code.Ruled.{ruled};

use answers::{Refusal, START_CLASHES, refuse};
use history::{Actions, finish_of};
use words::*;

// Returns whether two actions clash. The loop has no way out before its end, so that it can be done on many fluents at once: with
// one, 64 × 64 pairs take 3.9 million instructions more.
pub fn has_clash(tables: &Actions<'_>, a: usize, b: usize) -> bool
    requires { Paired tables.now.job.now tables.now.effects.now a b }
    ensures { result ≡ clash tables.now.job.now a b }
{
    let n = fluents_of(tables.job[0]);
    let mut found = false;
    for f in 0..n {
        let x = tables.effects[a * FLUENTS + f];
        let y = tables.effects[b * FLUENTS + f];
        found |= ((x == HOLDS) & (y == FAILS)) | ((x == FAILS) & (y == HOLDS));
    }
    found
}

// Stores at both places of the pair whether actions `a` and `b` clash.
fn store_pair(tables: &Actions<'_>, a: usize, b: usize, table: &mut [u8; ACTION_PAIRS])
    requires { PairStorable tables.now.job.now tables.now.effects.now a b table.old }
    ensures { PairStored tables.now.job.now a b table.old table.new }
{
    let entry = u8::from(has_clash(tables, a, b));
    table[a * ACTIONS + b] = entry;
    table[b * ACTIONS + a] = entry;
}

// Compares action `a`, if it has no start before, with each action that has one. So each pair of actions that have starts is compared once.
fn compare_action(
    tables: &Actions<'_>,
    latest: &[usize; ACTIONS],
    a: usize,
    table: &mut [u8; ACTION_PAIRS],
)
    requires { Comparable tables.now.job.now tables.now.effects.now latest.now a table.old }
    ensures { ClashesWith tables.now.job.now latest.now a table.new }
{
    if 0 < latest[a] {
        return;
    }
    let n = actions_of(tables.job[0]);
    for b in 0..n {
        if 0 < latest[b] {
            store_pair(tables, a, b, table);
        }
    }
}

// Returns whether some action that clashes with `b` has its latest finish after moment `u`.
fn clashes_after(
    job: &[u32],
    latest: &[usize; ACTIONS],
    table: &[u8; ACTION_PAIRS],
    b: usize,
    u: usize,
) -> bool
    requires { Compared job.now latest.now table.now b }
    ensures { result ≡ any_below (clashes_after job.now latest.now b u) (actions job.now) }
{
    let n = actions_of(job[0]);
    (0..n).any(|a| (u < latest[a]) & (table[b * ACTIONS + a] == 1))
}

// Row 9: refuses the first start that clashes with an earlier one. `latest` has the latest finish of each action's starts so far, 0 for an
// action without one, and `table` the clashes of the actions that have one.
pub fn first_clash(tables: &Actions<'_>, starts: &[u32]) -> Result<(), Refusal>
    requires { Timed tables.now.job.now tables.now.durations.now starts.now × Effects tables.now.job.now tables.now.effects.now }
    ensures { result ≡ ruled (first_of (numbered 9 (clashes tables.now.job.now starts.now)) (length starts.now)) tt }
{
    let mut table = [0u8; ACTION_PAIRS];
    let mut latest = [0usize; ACTIONS];
    for (i, &s) in starts.iter().enumerate() {
        let a = start_action(s);
        compare_action(tables, &latest, a, &mut table);
        if clashes_after(tables.job, &latest, &table, a, start_moment(s)) {
            return Err(refuse(START_CLASHES, i));
        }
        latest[a] = finish_of(tables.durations, s);
    }
    Ok(())
}
