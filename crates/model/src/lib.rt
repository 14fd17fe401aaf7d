// What passes from the theory to the reading layer: a procedure and a trajectory as arrays, a node's word taken apart, a triple of a node
// and two moments, and the words of a task set.
// Formulas, nodes and moments are numbers below 64: the contracts say it of each, since a type for such a number would be taken apart at every index.
#![tactic(auto)]

ghost use Rattle.std.specs.Prelude.{◌≡◌, ◌<◌, length};
ghost use Rattle.words.specs.Fields.{form, node_x, node_y, node_m, node_n};
ghost use Rattle.model.specs.Code.Arrays.{value_in, members_at, conditions_at};

use words::{ACTIONS, CONDITION, FORMULA_VALUES, MEMBER, MOMENTS, NODES};

// Node p's word stands at places[p] of the job, and after it those of its members and conditions; starts[a] is the set of the moments at
// which action a starts; values has the value of formula k at moment t at k * 64 + t.
// There are `count` nodes: the number stands beside the places, since there is no heap, so that the array has room for the nodes of any job.
#[derive(Clone, Copy)]
pub struct Arrays {
    pub count: usize,
    pub last: usize,
    pub places: [usize; NODES],
    pub starts: [u64; ACTIONS],
    pub durations: [usize; ACTIONS],
    pub values: [u8; FORMULA_VALUES],
}

impl Arrays {
    // The value of formula k at moment t.
    pub fn value(&self, k: usize, t: usize) -> u8
        requires { (k < 64) × (t < 64) }
        ensures { result ≡ value_in self.now.values k t }
    {
        self.values[k * MOMENTS + t]
    }
}

// The word of a node, taken apart: its form and its fields.
#[derive(Clone, Copy)]
pub struct Node {
    pub form: u32,
    pub x: usize,
    pub y: usize,
    pub m: usize,
    pub n: usize,
}

// Returns the form and the fields of the node's word `w`.
pub fn node_of(w: u32) -> Node
    ensures form { (result.form ≡ form w) × (result.form < 16) }
    ensures x { (result.x ≡ node_x w) × (result.x < 64) }
    ensures y { (result.y ≡ node_y w) × (result.y < 64) }
    ensures m { (result.m ≡ node_m w) × (result.m < 64) }
    ensures n { (result.n ≡ node_n w) × (result.n < 64) }
{
    Node {
        form: words::form_of(w),
        x: words::node_x(w),
        y: words::node_y(w),
        m: words::node_m(w),
        n: words::node_n(w),
    }
}

// A node, read from the moment `begin` to the moment `end`.
#[derive(Clone, Copy)]
pub struct Triple {
    pub node: usize,
    pub begin: usize,
    pub end: usize,
}

// The words of a task set: those of its members, and after them those of its conditions.
#[derive(Clone, Copy)]
pub struct SetWords<'a> {
    pub members: &'a [u32],
    pub conditions: &'a [u32],
}

// Returns the words of the task set whose node's word stands at `place`.
pub fn set_words(words: &[u32], place: usize) -> SetWords<'_>
    requires { place < length words.now }
    ensures members { result.members.now ≡ members_at words.now place }
    ensures conditions { result.conditions.now ≡ conditions_at words.now place }
{
    let after = &words[place + 1..];
    let (members, rest) = after.split_at(words::run_length(after, 0, MEMBER));
    let conditions = &rest[..words::run_length(rest, 0, CONDITION)];
    SetWords {
        members,
        conditions,
    }
}
