// Which words may follow which, and the rule of each kind, mostly as tests with no branch: the value of the code is the definition's own term, so
// most prove themselves. A group's number is cast to be a set's member, since there is no `u32::from` of a usize.
ghost use Rattle.std.specs.Prelude.{cond, ◌≡◌, ◌≤◌, ltb};
ghost use Rattle.words.specs.Fields.{group_number};
ghost use Rattle.bitset.specs.Code.Members.{has};
ghost use Rattle.words.specs.Scan.{every};
ghost use Rattle.job.specs.Children.{node_children};
ghost use Rattle.job.specs.Follow.{may_follow};
ghost use Rattle.job.specs.Rules.{word_refusal_of, limited, head_refusal, known_refusal, action_refusal, law_refusal, formula_shape, formula_range, formula_refusal, node_shape, node_range, node_refusal, member_refusal, condition_shape, condition_range, condition_refusal, shift_window_refusal, group_refusal, group_member_refusal};
ghost use Rattle.answers.specs.Code.Ruled.{if_any};

use crate::{LAST_MOMENT, NOTHING, SET_NODE};
use answers::{JOB_FLUENT_TWICE, JOB_SHAPE, JOB_VALUE};
use words::{
    ACTION, ACTIONS, CONDITION, CONDITIONS, FORMULA, FORMULAS, GROUP, GROUP_MEMBER, HEAD, KNOWN,
    LAW, MEMBER, MEMBERS, NODE, NODES, SHIFT_WINDOW, forms,
};

// The number of a word's refusal, if it is refused: by its shape, else by its range, else because it is listed twice.
pub fn word_refusal_of(shape: bool, range: bool, fresh: bool) -> Option<u32>
    ensures { result ≡ if_any (word_refusal_of shape range fresh) }
{
    if !shape {
        Some(JOB_SHAPE)
    } else if !range {
        Some(JOB_VALUE)
    } else if !fresh {
        Some(JOB_FLUENT_TWICE)
    } else {
        None
    }
}

// Whichever of two values a test picks, without a branch in the caller.
pub fn pick<T: Copy>(t: bool, a: T, b: T) -> T
    ensures { result ≡ cond t a b }
{
    if t { a } else { b }
}

// Whether a word of kind `k` may stand directly after `v`.
pub fn may_follow(k: u32, v: u32) -> bool
    ensures { result ≡ may_follow k v }
{
    match k {
        HEAD => v == NOTHING,
        KNOWN => (HEAD <= v) & (v <= KNOWN),
        ACTION => (HEAD <= v) & (v <= LAW),
        LAW => (ACTION <= v) & (v <= LAW),
        FORMULA => ((HEAD <= v) & (v <= FORMULA)) | ((SHIFT_WINDOW <= v) & (v <= GROUP_MEMBER)),
        NODE => ((HEAD <= v) & (v <= CONDITION)) | ((SHIFT_WINDOW <= v) & (v <= GROUP_MEMBER)),
        MEMBER => (v == SET_NODE) | (v == MEMBER),
        CONDITION => (MEMBER <= v) & (v <= CONDITION),
        SHIFT_WINDOW => ((ACTION <= v) & (v <= LAW)) | (v == SHIFT_WINDOW),
        GROUP => ((ACTION <= v) & (v <= LAW)) | ((SHIFT_WINDOW <= v) & (v <= GROUP)),
        GROUP_MEMBER => (GROUP <= v) & (v <= GROUP_MEMBER),
        _ => false,
    }
}

pub fn head(w: u32) -> Option<u32>
    ensures { result ≡ if_any (head_refusal w) }
{
    let shape = words::head_shape(w);
    let fluents = words::fluents_of(w);
    let most = words::most_fluents(w);
    let actions = words::actions_of(w);
    let range = (1 <= fluents)
        & (fluents <= most)
        & ((1 <= actions) & (actions <= ACTIONS))
        & (words::last_of(w) <= LAST_MOMENT);
    word_refusal_of(shape, range, true)
}

// The words that list a fluent: whether it is the job's. One function of both, which is handed the test of the spare bits, takes two instructions more
// for each law: 252,475 in place of 248,389 for a job of 2,043 laws.
pub fn known(head: u32, listed: bool, w: u32) -> Option<u32>
    ensures { result ≡ if_any (known_refusal head listed w) }
{
    let spare = words::known_spare(head, w);
    let range = words::fluent_of(head, w) < words::fluents_of(head);
    word_refusal_of(spare, range, !listed)
}

pub fn law(head: u32, listed: bool, w: u32) -> Option<u32>
    ensures { result ≡ if_any (law_refusal head listed w) }
{
    let spare = words::law_spare(head, w);
    let range = words::fluent_of(head, w) < words::fluents_of(head);
    word_refusal_of(spare, range, !listed)
}

pub fn action(actions: usize, w: u32) -> Option<u32>
    ensures { result ≡ if_any (action_refusal actions w) }
{
    let spare = words::action_spare(w);
    let range = (words::action_number(w) == actions) & (1 <= words::duration_of(w));
    word_refusal_of(spare, range, true)
}

// A word of a kind of which there are at most `most`.
fn limited_to(most: usize, count: usize, shape: bool, range: bool) -> Option<u32>
    ensures { result ≡ if_any (limited most count shape range) }
{
    word_refusal_of(shape, (count < most) & range, true)
}

fn formula_shape(head: u32, w: u32) -> bool
    ensures { result ≡ formula_shape head w }
{
    let f = words::form_of(w);
    let none = words::spare::<23, 0>(w);
    let atom = words::atom_spare(head, w);
    let high = words::spare::<23, 12>(w);
    let low = words::spare::<5, 0>(w);
    ((f == forms::ALWAYS) & none)
        | ((f == forms::FLUENT) & atom)
        | ((f == forms::NOT) & (high & low))
        | ((forms::AND <= f) & (f <= forms::HELD_FOR) & high)
}

fn formula_range(head: u32, formulas: usize, w: u32) -> bool
    ensures { result ≡ formula_range head formulas w }
{
    let f = words::form_of(w);
    let x = words::formula_x(w);
    let y = words::formula_y(w);
    let atom = words::atom_fluent(head, w) < words::fluents_of(head);
    (!(f == forms::FLUENT) | atom)
        & (!((forms::NOT <= f) & (f <= forms::HELD_FOR)) | (x < formulas))
        & (!((forms::AND <= f) & (f <= forms::OR)) | (y < formulas))
}

pub fn formula(head: u32, formulas: usize, w: u32) -> Option<u32>
    ensures { result ≡ if_any (formula_refusal head formulas w) }
{
    limited_to(
        FORMULAS,
        formulas,
        formula_shape(head, w),
        formula_range(head, formulas, w),
    )
}

fn node_shape(w: u32) -> bool
    ensures { result ≡ node_shape w }
{
    let f = words::form_of(w);
    let none = words::spare::<23, 0>(w);
    let x = words::spare::<17, 0>(w);
    let xy = words::spare::<11, 0>(w);
    let xym = words::spare::<5, 0>(w);
    ((f <= forms::TEST) & x)
        | (((forms::SEQUENCE <= f) & (f <= forms::CHOICE) | (f == forms::WHILE)) & xy)
        | ((f == forms::IF) & xym)
        | ((forms::START_WINDOW <= f) & (f <= forms::END_WINDOW))
        | ((f == forms::TASK_SET) & none)
}

// Whether the nodes that the node word `w` names as children are declared.
fn children_range(nodes: usize, w: u32) -> bool
    ensures { result ≡ every (λ q. ltb q nodes) (node_children w) }
{
    let f = words::form_of(w);
    let x = words::node_x(w);
    let y = words::node_y(w);
    let m = words::node_m(w);
    let window = (forms::START_WINDOW <= f) & (f <= forms::END_WINDOW);
    (!(((forms::SEQUENCE <= f) & (f <= forms::CHOICE)) | window) | (x < nodes))
        & (!((forms::SEQUENCE <= f) & (f <= forms::END_WINDOW)) | (y < nodes))
        & (!(f == forms::IF) | (m < nodes))
}

fn node_range(actions: usize, formulas: usize, nodes: usize, w: u32) -> bool
    ensures { result ≡ node_range actions formulas nodes w }
{
    let f = words::form_of(w);
    let x = words::node_x(w);
    let m = words::node_m(w);
    let late = words::node_n(w);
    let window = (forms::START_WINDOW <= f) & (f <= forms::END_WINDOW);
    let children = children_range(nodes, w);
    (!(f == forms::ACT) | (x < actions))
        & (!((f == forms::TEST) | ((forms::IF <= f) & (f <= forms::WHILE))) | (x < formulas))
        & children
        & (!window | (m <= late))
}

pub fn node(actions: usize, formulas: usize, nodes: usize, w: u32) -> Option<u32>
    ensures { result ≡ if_any (node_refusal actions formulas nodes w) }
{
    limited_to(
        NODES,
        nodes,
        node_shape(w),
        node_range(actions, formulas, nodes, w),
    )
}

pub fn member(nodes: usize, members: usize, w: u32) -> Option<u32>
    ensures { result ≡ if_any (member_refusal nodes members w) }
{
    let range = words::member_node(w) + 1 < nodes;
    limited_to(MEMBERS, members, words::member_spare(w), range)
}

fn condition_shape(w: u32) -> bool
    ensures { result ≡ condition_shape w }
{
    let f = words::form_of(w);
    let k = words::condition_formula(w);
    let j = words::condition_j(w);
    ((f <= forms::BEGIN_AFTER_END) & (k == 0))
        | ((forms::HOLDS_BEFORE <= f) & (f <= forms::HOLDS_AFTER) & (j == 0))
        | (f == forms::HOLDS_BETWEEN)
}

fn condition_range(formulas: usize, members: usize, w: u32) -> bool
    ensures { result ≡ condition_range formulas members w }
{
    let f = words::form_of(w);
    let k = words::condition_formula(w);
    let i = words::condition_i(w);
    let j = words::condition_j(w);
    let window = words::condition_m(w) <= words::condition_n(w);
    (!((forms::HOLDS_BEFORE <= f) & (f <= forms::HOLDS_BETWEEN)) | (k < formulas))
        & (i < members)
        & (!((f <= forms::BEGIN_AFTER_END) | (f == forms::HOLDS_BETWEEN)) | (j < members))
        & (!(f <= forms::HOLDS_AFTER) | window)
}

pub fn condition(formulas: usize, members: usize, conditions: usize, w: u32) -> Option<u32>
    ensures { result ≡ if_any (condition_refusal formulas members conditions w) }
{
    limited_to(
        CONDITIONS,
        conditions,
        condition_shape(w),
        condition_range(formulas, members, w),
    )
}

pub fn shift_window(actions: usize, w: u32) -> Option<u32>
    ensures { result ≡ if_any (shift_window_refusal actions w) }
{
    let spare = words::shift_window_spare(w);
    let range = (words::shift_window_action(w) < actions)
        & (words::shift_window_from(w) <= words::shift_window_to(w));
    word_refusal_of(spare, range, true)
}

// `groups` is the set of those declared.
pub fn group(groups: u64, w: u32) -> Option<u32>
    ensures { result ≡ if_any (group_refusal (has groups (group_number w)) w) }
{
    let spare = words::group_spare(w);
    let g = words::group_number(w);
    word_refusal_of(spare, g < words::GROUPS, !bitset::has(groups, g as u32))
}

pub fn group_member(actions: usize, groups: u64, listed: bool, w: u32) -> Option<u32>
    ensures { result ≡ if_any (group_member_refusal actions (has groups (group_number w)) listed w) }
{
    let spare = words::group_spare(w);
    let g = words::group_number(w);
    let range = (g < words::GROUPS)
        & bitset::has(groups, g as u32)
        & (words::group_action(w) < actions);
    word_refusal_of(spare, range, !listed)
}
