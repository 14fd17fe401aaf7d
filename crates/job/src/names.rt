// The nodes that the words name as children, as two sets: a node that is named exactly once is in the first alone.
// A node's number is cast to be a set's member, since there is no `u32::from` of a usize.
ghost use Rattle.std.specs.Prelude.{ℕ, ◌+◌, ◌<◌, eqb};
ghost use Rattle.words.specs.Tests.{indicator};
ghost use Rattle.words.specs.Scan.{count};
ghost use Rattle.job.specs.Children.{node_children, word_children};
ghost use Rattle.job.specs.Code.Names.{NamedTimes};

use words::forms::{CHOICE, END_WINDOW, IF, SEQUENCE, START_WINDOW, WHILE};
use words::{MEMBER, NODE};

// The nodes that are named, and those that are named more than once.
#[derive(Clone, Copy)]
pub struct Names {
    pub named: u64,
    pub again: u64,
}

// Names node `q` once more.
fn with_name(names: Names, q: usize) -> Names
    requires { q < 64 }
    ensures { (n : ℕ → ℕ) → NamedTimes n names → NamedTimes (λ v. n v + indicator (eqb v q)) result }
{
    let one = bitset::single(q as u32);
    let again = bitset::union(names.again, bitset::inter(names.named, one));
    let named = bitset::union(names.named, one);
    Names { named, again }
}

// Names once more each child that the node word `w` names.
fn with_node(names: Names, w: u32) -> Names
    ensures { (n : ℕ → ℕ) → NamedTimes n names → NamedTimes (λ v. n v + count v (node_children w)) result }
{
    let x = words::node_x(w);
    let y = words::node_y(w);
    match words::form_of(w) {
        SEQUENCE | CHOICE | START_WINDOW | END_WINDOW => with_name(with_name(names, x), y),
        IF => with_name(with_name(names, y), words::node_m(w)),
        WHILE => with_name(names, y),
        _ => names,
    }
}

// Names once more each child that the word `w` names.
pub fn with_children(names: Names, w: u32) -> Names
    ensures { (n : ℕ → ℕ) → NamedTimes n names → NamedTimes (λ v. n v + count v (word_children w)) result }
{
    match words::kind_of(w) {
        NODE => with_node(names, w),
        MEMBER => with_name(names, words::member_node(w)),
        _ => names,
    }
}
