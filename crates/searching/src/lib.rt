// The search for the begins of a set's members, by its tables. Each member has a word of begins and a word of ends that it may still have; a
// member that is placed narrows those of all others. A member of a set that is an index is cast, since there is no `usize::from` of a u32.
#![tactic(auto)]

ghost use Rattle.ending.specs.Code.Search.{OpenReady, TryReady, Grown, FindsAll};

use ending::Found;
use keeping::Tables;
use narrowing::Open;

// `found` with the ends to which the set reads.
#[cycle(search_tries)]
pub fn search(tables: &Tables, state: Open, found: Found) -> Found
    requires { OpenReady tables.now state found.upto }
    ensures { Grown tables.now state.from found result × FindsAll tables.now state result }
{
    if state.left == 0 {
        return ending::leaf(tables, state, found);
    }
    let gaps = narrowing::gaps(tables.count, state);
    if gaps == 0 {
        let i = narrowing::choose(state);
        return tries(tables, state, i, found);
    }
    let g = bitset::lowest(gaps);
    let h = narrowing::last_gap(state.left, gaps, g);
    let mut r = found;
    // A `for` over the members takes up to 0.3 % more instructions: two words for what is left are then kept over each call.
    let mut rest = state.left;
    while rest != 0 {
        let i = bitset::lowest(rest) as usize;
        let with = narrowing::over(state, i, g, h);
        r = tries(tables, with, i, r);
        rest = bitset::drop_lowest(rest);
    }
    r
}

// `found` with the ends to which the set reads where member i, which is left, is placed next: at each begin that it may have.
#[cycle(search_tries)]
fn tries(tables: &Tables, state: Open, i: usize, found: Found) -> Found
    requires { TryReady tables.now state i found.upto }
    ensures { Grown tables.now state.from found result × FindsAll tables.now state result }
{
    // What is indexed is taken out of its struct first: an index into a field of a struct by value copies the struct whole, at each begin.
    let members = state.members;
    let may = members[i];
    let last = state.last;
    let mut r = found;
    for x in bitset::members(may.begins) {
        let row = keeping::pair_at(&tables.ends, i, i, x);
        if bitset::inter(may.ends, row) == 0 {
            continue;
        }
        let next = narrowing::placed(tables, state, i, x, r.ends);
        let left = next.members;
        if left[last].ends != 0 {
            r = search(tables, next, r);
        }
    }
    r
}
