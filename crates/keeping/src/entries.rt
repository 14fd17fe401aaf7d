// The entries of tables by pairs of members, and what one member keeps where another begins.
// Each function asks that its members are below 4 and its moments below 64: a type for them would be taken apart again at each table entry.
// Sets have u32 members and arrays usize indices; no From joins them, so both are cast.
ghost use Rattle.std.specs.Prelude.{◌≡◌, ◌+◌, ◌*◌, ◌<◌};
ghost use Rattle.keeping.specs.Code.Tables.{pair_at, Narrows};

use crate::{Choice, PAIRS, Tables};
use words::{MEMBERS, MOMENTS};

// Where a table by pairs has the entry of the members i and j at moment x.
pub fn pair_index(i: usize, j: usize, x: u32) -> usize
    requires { (i < 4) × (j < 4) × (x < 64) }
    ensures { (result ≡ (i * 4 + j) * 64 + x) × (result < 1024) }
{
    (i * MEMBERS + j) * MOMENTS + x as usize
}

// Reads the table entry of members i and j at moment x.
pub fn pair_at(table: &[u64; PAIRS], i: usize, j: usize, x: u32) -> u64
    requires { (i < 4) × (j < 4) × (x < 64) }
    ensures { result ≡ pair_at table.now i j x }
{
    table[pair_index(i, j, x)]
}

// What member j keeps where member i begins at x, within a window of moments.
// Six parameters: no struct holds a member and its begin, and one made for this call would be taken apart again in its first lines.
pub fn narrowed(tables: &Tables, i: usize, x: u32, j: usize, old: Choice, window: u64) -> Choice
    requires { (i < 4) × (j < 4) × (x < 64) }
    ensures { Narrows tables.now i x j window old result }
{
    let there = bitset::inter(pair_at(&tables.goes, i, j, x), window);
    let begins = bitset::inter(old.begins, there);
    if begins == 0 {
        return Choice { begins, ends: 0 };
    }
    let low = bitset::lowest(begins) as usize;
    let then = bitset::inter(pair_at(&tables.ends, j, i, x), window);
    let after = bitset::inter(then, tables.later[j * MOMENTS + low]);
    Choice {
        begins,
        ends: bitset::inter(old.ends, after),
    }
}
