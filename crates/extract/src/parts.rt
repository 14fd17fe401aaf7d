// The parts that a reading of a node is made of, by the table of ends: which children are read, and between which moments. Moments are usize here
// and u32 in the search of a task set: they are cast, since there is no `From` between the two.
ghost use Rattle.std.specs.Prelude.{◌≡◌, ◌⊎◌, ℕ, ◌<◌, ◌≤◌, List, [], ◌∷◌, length};
ghost use Rattle.words.specs.Fields.{holds};
ghost use Rattle.model.specs.Code.Arrays.{members_at, conditions_at};
ghost use Rattle.model.specs.Code.Table.{InTable};
ghost use Rattle.sets.specs.Code.Rows.{task_set_of, Placeable};
ghost use Rattle.extract.specs.Code.Source.{Unseen};
ghost use Rattle.extract.specs.Code.Search.{Within, CutAt, CutReady, StartAt, StartReady};
ghost use Rattle.extract.specs.Code.Parts.{triple_of, parts_from, IsPlaced, PlacedParts, ChoosableBy, ChosenBy};

use crate::search::TwoNodes;
use crate::{Source, search};
use model::Triple;
use reading::pauses::{Pause, at_once, pause_of};
use sets::placing::Placement;
use words::forms::{
    ACT, CHOICE, END_WINDOW, IF, RESERVED, SEQUENCE, START_WINDOW, TASK_SET, TEST, WHILE,
};
use words::{MEMBERS, MOMENTS};

// A triple that is no part: it fills the places that no part takes.
const NO_PART: Triple = Triple {
    node: 0,
    begin: 0,
    end: 0,
};

// The first `count` of the triples, in order: there is no heap, so the array has room for the members of any task set.
#[derive(Clone, Copy)]
pub struct Parts {
    pub count: usize,
    pub triples: [Triple; MEMBERS],
}

// A node, read from its begin to its end.
fn part(node: usize, begin: usize, end: usize) -> Triple
    ensures { result ≡ triple_of node begin end }
{
    Triple { node, begin, end }
}

// The triples of this list, and no more.
fn parts_of(list: &[Triple]) -> Parts
    requires { length list.now ≤ 4 }
    ensures { result ≡ parts_from list.now }
{
    let mut triples = [NO_PART; MEMBERS];
    triples[..list.len()].copy_from_slice(list);
    Parts {
        count: list.len(),
        triples,
    }
}

// Forms 2 and 7: x, and y a pause after its end, in form 2 none.
fn end_window_parts(table: &[u64], two: TwoNodes, pause: Pause) -> Parts
    requires { CutReady table.now two.x two.y two.begin two.end pause two.begin }
    ensures { (k : ℕ) × (m : ℕ) × CutAt table.now two.x two.y two.begin two.end pause two.begin k m × (result ≡ parts_from (triple_of two.x two.begin k ∷ triple_of two.y m two.end ∷ [])) }
{
    let (k, m) = search::cut(table, two, pause, two.begin);
    parts_of(&[part(two.x, two.begin, k), part(two.y, m, two.end)])
}

// Form 6: x, and y `least` to `most` after its begin.
fn start_window_parts(table: &[u64], two: TwoNodes, least: usize, most: usize) -> Parts
    requires { StartReady table.now two.x two.y two.begin two.end least most }
    ensures { (k : ℕ) × (m : ℕ) × (l : ℕ) × StartAt table.now two.x two.y two.begin two.end least most k m l × (result ≡ parts_from (triple_of two.x two.begin k ∷ triple_of two.y m l ∷ [])) }
{
    let b = two.begin;
    let xs = table[two.x * MOMENTS + b];
    let Some(m) = search::meeting(xs, table, two, b + least, b + most) else {
        unreachable!();
    };
    let (k, l) = search::ends(xs, table[two.y * MOMENTS + m], two.end);
    parts_of(&[part(two.x, b, k), part(two.y, m, l)])
}

// Form 4: y where the formula's value is that it holds, and else m.
fn taken(value: u8, y: usize, m: usize) -> usize
    ensures { ((value ≡ holds) × (result ≡ y)) ⊎ ((value ≡ holds → ⊥) × (result ≡ m)) }
{
    if value == words::HOLDS { y } else { m }
}

// The members, each from its begin to its end.
fn placed_parts(members: &[u32], placed: &Placement) -> Parts
    requires { length members.now ≤ 4 }
    ensures { IsPlaced members.now placed.now result }
{
    let mut triples = [NO_PART; MEMBERS];
    for (i, &word) in members.iter().enumerate() {
        triples[i] = part(
            words::member_node(word),
            placed.begins[i] as usize,
            placed.ends[i] as usize,
        );
    }
    Parts {
        count: members.len(),
        triples,
    }
}

// Form 8: the members of the task set whose word stands at `place`, as its conditions allow.
fn set_parts(source: &Source, place: usize, b: usize, e: usize) -> Parts
    requires { (place < length source.now.words.now) × Placeable (task_set_of (members_at source.now.words.now place) (conditions_at source.now.words.now place) source.now.arrays.now.values source.now.arrays.now.last) source.now.table.now b e }
    ensures { PlacedParts (task_set_of (members_at source.now.words.now place) (conditions_at source.now.words.now place) source.now.arrays.now.values source.now.arrays.now.last) source.now.table.now b e result }
{
    let set = model::set_words(source.words, place);
    let placed = sets::placing::place(set, source.arrays, source.table, b as u32, e as u32);
    placed_parts(set.members, &placed)
}

// The parts that a reading of the triple, which the table says there is, can be made of; its node is no loop.
pub fn choose_parts(source: &Source, triple: Triple) -> Parts
    requires { (u : Unseen) × ChoosableBy source.now triple u }
    ensures { (u : Unseen) → ChoosableBy source.now triple u → ChosenBy source.now triple result u }
{
    let b = triple.begin;
    let e = triple.end;
    let table = source.table;
    let place = source.arrays.places[triple.node];
    let word = source.words[place];
    let node = model::node_of(word);
    let two = TwoNodes {
        x: node.x,
        y: node.y,
        begin: b,
        end: e,
    };
    match node.form {
        ACT => parts_of(&[]),
        TEST => parts_of(&[]),
        SEQUENCE => end_window_parts(table, two, at_once()),
        CHOICE => parts_of(&[part(search::choose(table, two), b, e)]),
        IF => parts_of(&[part(taken(source.arrays.value(node.x, b), node.y, node.m), b, e)]),
        // The passes of a loop are found one at a time.
        WHILE => parts_of(&[]),
        START_WINDOW => start_window_parts(table, two, node.m, node.n),
        END_WINDOW => end_window_parts(table, two, pause_of(word, source.started)),
        TASK_SET => set_parts(source, place, b, e),
        // A job with a reserved form is refused, and nothing reads such a node.
        RESERVED.. => parts_of(&[]),
    }
}
