// The searches for the moments of two parts, by the table of ends: a loop's passes are found one at a time, by `cut`. Moments are usize, and a
// set's members u32: they are cast, since there is no `From` between the two. A function asks that a moment is below 64: a type for it would be
// taken apart again at each operation on sets.
ghost use Rattle.std.specs.Prelude.{◌≡◌, ◌⊎◌, ◌<◌};
ghost use Rattle.bitset.specs.Code.Members.{Max};
ghost use Rattle.model.specs.Code.Table.{InTable};
ghost use Rattle.extract.specs.Code.Search.{Within, MeetReady, FirstMeets, CutAt, CutReady, EndPair};

use reading::pauses::{Pause, quiet_upto};
use words::MOMENTS;

// Two nodes, of which another is made that is read from the moment `begin` to the moment `end`.
#[derive(Clone, Copy)]
pub struct TwoNodes {
    pub x: usize,
    pub y: usize,
    pub begin: usize,
    pub end: usize,
}

// The first moment from `first` to `last` at which y can begin so that the greater of its end and one of the ends `xs` is the end of both.
pub fn meeting(xs: u64, table: &[u64], two: TwoNodes, first: usize, last: usize) -> Option<usize>
    requires { MeetReady table.now two.y last two.end }
    ensures { FirstMeets xs table.now two.y first last two.end result }
{
    (first..=last.min(MOMENTS - 1)).find(|&m| bitset::has(
        bitset::max_of(xs, table[two.y * MOMENTS + m]),
        two.end as u32,
    ))
}

// The first end of x from `from` on after which y can begin, a pause later, and end at the end of both, and the first such begin. There is one.
pub fn cut(table: &[u64], two: TwoNodes, pause: Pause, from: usize) -> (usize, usize)
    requires { CutReady table.now two.x two.y two.begin two.end pause from }
    ensures { CutAt table.now two.x two.y two.begin two.end pause from result.0 result.1 }
{
    let row = table[two.x * MOMENTS + two.begin];
    for end in bitset::members(bitset::inter(row, bitset::from(from as u32))) {
        let k = end as usize;
        let last = quiet_upto(pause, k);
        // the set of 0 alone: y's end is the greater one
        if let Some(m) = meeting(1, table, two, k + pause.least, last) {
            return (k, m);
        }
    }
    unreachable!()
}

// Returns an end of each of the sets xs and ys, of which e is the greater. The caller guarantees that they exist.
pub fn ends(xs: u64, ys: u64, e: usize) -> (usize, usize)
    requires { (e < 64) × Max xs ys e }
    ensures { EndPair xs ys e result.0 result.1 }
{
    if bitset::has(xs, e as u32) {
        return (e, bitset::lowest(ys) as usize);
    }
    (bitset::lowest(xs) as usize, e)
}

// Whichever of the two reads from begin to end: x where both do. One of them does.
pub fn choose(table: &[u64], two: TwoNodes) -> usize
    requires within { Within table.now two.x two.y two.begin two.end }
    requires in_table { InTable table.now two.x two.begin two.end ⊎ InTable table.now two.y two.begin two.end }
    ensures { ((result ≡ two.x) ⊎ (result ≡ two.y)) × InTable table.now result two.begin two.end }
{
    if bitset::has(table[two.x * MOMENTS + two.begin], two.end as u32) {
        two.x
    } else {
        two.y
    }
}
