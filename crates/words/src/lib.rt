// The fields of the words, each read here alone, by the definitions of specs/Fields.antt; the kinds and the values by name.
// Actions, nodes and moments are numbers below 64: each function that writes one into a word asks it, since a type for such a number would be
// taken apart at every shift. They are cast, since `u32::try_from` would give a `Result` whose error can't come.
#![tactic(auto)]

ghost use Rattle.std.specs.Prelude.{cond, ◌≡◌, ◌+◌, ◌<◌, ◌≤◌, length, drop};
ghost use Rattle.words.specs.Fields.{field, kind, of_kind, form, spare, head_shape, wide, most_fluents, fact_room, action_number, action_spare, is_set, member_spare, start_spare, fluents_of, actions_of, last_of, fluent_of, known_spare, law_spare, known_value, duration_of, role_of, makes, made_value, formula_x, formula_y, atom_fluent, atom_spare, node_x, node_y, node_m, node_n, member_node, condition_formula, condition_i, condition_j, condition_m, condition_n, start_moment, start_action, start_word, fact_word, reading_word, shift_window_spare, shift_window_action, shift_window_from, shift_window_to, group_spare, group_number, group_limit, group_action};
ghost use Rattle.words.specs.Scan.{take_while};

pub mod buffers;
pub mod forms;

pub use buffers::{copy_words, insert_word};

// The kinds of words. They are numbers and no enum: fields of the words that the host in C lends, which `may_follow` compares by their order.
pub const HEAD: u32 = 1;

pub const KNOWN: u32 = 2;

pub const ACTION: u32 = 3;

pub const LAW: u32 = 4;

pub const FORMULA: u32 = 5;

pub const NODE: u32 = 6;

pub const MEMBER: u32 = 7;

pub const CONDITION: u32 = 8;

pub const START: u32 = 9;

pub const FACT: u32 = 10;

pub const READING: u32 = 11;

pub const SHIFT_WINDOW: u32 = 12;

pub const GROUP: u32 = 13;

pub const GROUP_MEMBER: u32 = 14;

// The roles of a law, all four by name: numbers, as a law's word has them, which `makes` compares by their order.
pub const NEEDS_TRUE: u32 = 0;

pub const NEEDS_FALSE: u32 = 1;

pub const MAKES_TRUE: u32 = 2;

pub const MAKES_FALSE: u32 = 3;

// The values of a fluent or a formula. They are bytes and no enum: the tables of 'and' and 'or' hold them, and two of them make an index.
pub const FAILS: u8 = 0;

pub const OPEN: u8 = 1;

pub const HOLDS: u8 = 2;

// How many fluents, actions, moments, groups, formulas and nodes there can be, and how many members and conditions a task set can have.
pub const FLUENTS: usize = 256;

pub const ACTIONS: usize = 64;

pub const MOMENTS: usize = 64;

pub const GROUPS: usize = 8;

pub const FORMULAS: usize = 64;

pub const NODES: usize = 64;

pub const MEMBERS: usize = 4;

pub const CONDITIONS: usize = 8;

// How many starts a plan can have, one for each moment and action, and how many words a lent buffer has at least.
pub const MOST_STARTS: usize = MOMENTS * ACTIONS;

pub const BUFFER_WORDS: usize = 4096;

// How many fluents a job may have whose head is not wide, and how many words the list of facts may have under either head.
pub const NARROW_FLUENTS: usize = 64;

pub const NARROW_FACTS: usize = MOMENTS * NARROW_FLUENTS;

pub const WIDE_FACTS: usize = MOMENTS * FLUENTS;

// The sizes of the tables by action and fluent, by moment and fluent, by two actions, by formula and moment, and by node and moment.
pub const EFFECTS: usize = ACTIONS * FLUENTS;

pub const STATES: usize = MOMENTS * FLUENTS;

pub const ACTION_PAIRS: usize = ACTIONS * ACTIONS;

pub const FORMULA_VALUES: usize = FORMULAS * MOMENTS;

pub const ENDS: usize = NODES * MOMENTS;

// The bits `HI` to `LO` of a word, fewer than all. `field`, `index` and `spare` each ask that a word has these bits, since a const parameter is a
// plain number.
fn field<const HI: u32, const LO: u32>(w: u32) -> u32
    requires { (LO ≤ HI) × (HI < LO + 31) × (HI < 32) }
    ensures { result ≡ field w HI LO }
{
    (w >> LO) % (1 << (HI + 1 - LO))
}

// The bits `HI` to `LO` of a word, as a number that can be an index. It is cast, since there is no `usize::from` of a u32.
fn index<const HI: u32, const LO: u32>(w: u32) -> usize
    requires { (LO ≤ HI) × (HI < LO + 31) × (HI < 32) }
    ensures { result ≡ field w HI LO }
{
    field::<HI, LO>(w) as usize
}

// Whether the bits `HI` to `LO` of a word are zero, as those are that it leaves spare.
pub fn spare<const HI: u32, const LO: u32>(w: u32) -> bool
    requires { (LO ≤ HI) × (HI < LO + 31) × (HI < 32) }
    ensures { result ≡ spare w HI LO }
{
    field::<HI, LO>(w) == 0
}

pub fn kind_of(w: u32) -> u32
    ensures { (result ≡ kind w) × (result < 16) }
{
    w >> 28
}

// How many words of kind `k` lead a list; and how many lead what stands in it from position `at` on.
fn leading(ws: &[u32], k: u32) -> usize
    ensures { result ≡ length (take_while (of_kind k) ws.now) }
{
    ws.iter().take_while(|&&w| kind_of(w) == k).count()
}

pub fn run_length(ws: &[u32], at: usize, k: u32) -> usize
    requires { at ≤ length ws.now }
    ensures { result ≡ length (take_while (of_kind k) (drop at ws.now)) }
{
    leading(&ws[at..], k)
}

pub fn form_of(w: u32) -> u32
    ensures { (result ≡ form w) × (result < 16) }
{
    field::<27, 24>(w)
}

// Head: whether its form is 0 or 1, and whether it is 1, a wide head.
pub fn head_shape(head: u32) -> bool
    ensures { result ≡ head_shape head }
{
    form_of(head) <= 1
}

fn is_wide(head: u32) -> bool
    ensures { result ≡ wide head }
{
    form_of(head) == 1
}

// What a wide head has, or what the other has.
fn by_head<T: Copy>(head: u32, a: T, b: T) -> T
    ensures { result ≡ cond (wide head) a b }
{
    if is_wide(head) { a } else { b }
}

// Head: how many fluents it may have, and how many words the facts of its plans may need; fluents, actions, last moment.
pub fn most_fluents(head: u32) -> usize
    ensures { result ≡ most_fluents head }
{
    by_head(head, FLUENTS, NARROW_FLUENTS)
}

pub fn fact_room(head: u32) -> usize
    ensures { result ≡ fact_room head }
{
    by_head(head, WIDE_FACTS, NARROW_FACTS)
}

pub fn fluents_of(head: u32) -> usize
    ensures { (result ≡ fluents_of head) × (result ≤ 256) }
{
    let field = index::<23, 16>(head);
    if is_wide(head) & (field == 0) {
        FLUENTS
    } else {
        field
    }
}

pub fn actions_of(head: u32) -> usize
    ensures { (result ≡ actions_of head) × (result < 256) }
{
    index::<15, 8>(head)
}

pub fn last_of(head: u32) -> usize
    ensures { (result ≡ last_of head) × (result < 256) }
{
    index::<7, 0>(head)
}

// Initially known word, and law: the fluent, and whether the bits that each leaves spare are zero.
pub fn fluent_of(head: u32, w: u32) -> usize
    ensures { (result ≡ fluent_of head w) × (result < 256) }
{
    by_head(head, index::<7, 0>(w), index::<5, 0>(w))
}

pub fn known_spare(head: u32, w: u32) -> bool
    ensures { result ≡ known_spare head w }
{
    by_head(head, spare::<27, 9>(w), spare::<27, 7>(w))
}

pub fn law_spare(head: u32, w: u32) -> bool
    ensures { result ≡ law_spare head w }
{
    by_head(head, spare::<27, 10>(w), spare::<27, 8>(w))
}

pub fn known_value(head: u32, w: u32) -> u8
    ensures { result ≡ known_value head w }
{
    holds_or_fails(by_head(head, field::<8, 8>(w), field::<6, 6>(w)) == 0)
}

// Action: its number, its duration, and whether the bits that it leaves spare are zero.
pub fn action_number(w: u32) -> usize
    ensures { (result ≡ action_number w) × (result < 64) }
{
    index::<11, 6>(w)
}

pub fn action_spare(w: u32) -> bool
    ensures { result ≡ action_spare w }
{
    spare::<27, 12>(w)
}

pub fn duration_of(w: u32) -> usize
    ensures { (result ≡ duration_of w) × (result < 64) }
{
    index::<5, 0>(w)
}

// Law: the role, whether it makes a value, and which.
pub fn role_of(head: u32, w: u32) -> u32
    ensures { (result ≡ role_of head w) × (result < 4) }
{
    by_head(head, field::<9, 8>(w), field::<7, 6>(w))
}

pub fn makes_value(role: u32) -> bool
    ensures { result ≡ makes role }
{
    MAKES_TRUE <= role
}

pub fn made_value(role: u32) -> u8
    ensures { result ≡ made_value role }
{
    holds_or_fails(role == MAKES_TRUE)
}

// The two values are named, since `u8::from(t)` would give 1, which is OPEN.
fn holds_or_fails(t: bool) -> u8
    ensures { result ≡ cond t 2 0 }
{
    if t { HOLDS } else { FAILS }
}

// Formula of form 1: the fluent, and whether the bits that it leaves spare are zero.
pub fn atom_fluent(head: u32, w: u32) -> usize
    ensures { (result ≡ atom_fluent head w) × (result < 256) }
{
    by_head(head, index::<7, 0>(w), index::<11, 6>(w))
}

pub fn atom_spare(head: u32, w: u32) -> bool
    ensures { result ≡ atom_spare head w }
{
    by_head(
        head,
        spare::<23, 8>(w),
        spare::<23, 12>(w) & spare::<5, 0>(w),
    )
}

// Formula of forms 2 to 5: X and Y; the Y of form 5 is a number of moments.
pub fn formula_x(w: u32) -> usize
    ensures { (result ≡ formula_x w) × (result < 64) }
{
    index::<11, 6>(w)
}

pub fn formula_y(w: u32) -> usize
    ensures { (result ≡ formula_y w) × (result < 64) }
{
    index::<5, 0>(w)
}

// Node: X, Y, M, N.
pub fn node_x(w: u32) -> usize
    ensures { (result ≡ node_x w) × (result < 64) }
{
    index::<23, 18>(w)
}

pub fn node_y(w: u32) -> usize
    ensures { (result ≡ node_y w) × (result < 64) }
{
    index::<17, 12>(w)
}

pub fn node_m(w: u32) -> usize
    ensures { (result ≡ node_m w) × (result < 64) }
{
    index::<11, 6>(w)
}

pub fn node_n(w: u32) -> usize
    ensures { (result ≡ node_n w) × (result < 64) }
{
    index::<5, 0>(w)
}

// A node of form 8, a task set.
pub fn is_set(w: u32) -> bool
    ensures { result ≡ is_set w }
{
    (kind_of(w) == NODE) & (form_of(w) == forms::TASK_SET)
}

// Member of a task set: its node, and whether the bits that it leaves spare are zero.
pub fn member_spare(w: u32) -> bool
    ensures { result ≡ member_spare w }
{
    spare::<27, 6>(w)
}

pub fn member_node(w: u32) -> usize
    ensures { (result ≡ member_node w) × (result < 64) }
{
    index::<5, 0>(w)
}

// Condition of a task set: the formula, members i and j, M, N.
pub fn condition_formula(w: u32) -> usize
    ensures { (result ≡ condition_formula w) × (result < 64) }
{
    index::<23, 18>(w)
}

pub fn condition_i(w: u32) -> usize
    ensures { (result ≡ condition_i w) × (result < 8) }
{
    index::<17, 15>(w)
}

pub fn condition_j(w: u32) -> usize
    ensures { (result ≡ condition_j w) × (result < 8) }
{
    index::<14, 12>(w)
}

pub fn condition_m(w: u32) -> usize
    ensures { (result ≡ condition_m w) × (result < 64) }
{
    index::<11, 6>(w)
}

pub fn condition_n(w: u32) -> usize
    ensures { (result ≡ condition_n w) × (result < 64) }
{
    index::<5, 0>(w)
}

// Start: the moment, the action, and whether the bits that it leaves spare are zero.
pub fn start_spare(s: u32) -> bool
    ensures { result ≡ start_spare s }
{
    spare::<27, 12>(s)
}

pub fn start_moment(s: u32) -> usize
    ensures { (result ≡ start_moment s) × (result < 64) }
{
    index::<11, 6>(s)
}

pub fn start_action(s: u32) -> usize
    ensures { (result ≡ start_action s) × (result < 64) }
{
    index::<5, 0>(s)
}

// The word that action `a` starts at moment `u`.
pub fn start_word(u: usize, a: usize) -> u32
    requires { (u < 64) × (a < 64) }
    ensures { result ≡ start_word u a }
{
    (START << 28) + ((u as u32) << 6) + (a as u32)
}

// The fact word that fluent `f` has a value, other than open, at moment `t`.
pub fn fact_word(head: u32, t: usize, f: usize, value: u8) -> u32
    requires { (t < 64) × (f < 256) }
    ensures { result ≡ fact_word head t f value }
{
    let moment = by_head(head, (t as u32) * 512, (t as u32) * 128);
    let base = (FACT << 28) + moment + (f as u32) * 2;
    if value == HOLDS { base + 0 } else { base + 1 }
}

// The word of a reading: node `p` from `b` to `e`.
pub fn reading_word(p: usize, b: usize, e: usize) -> u32
    requires { (p < 64) × (b < 64) × (e < 64) }
    ensures { result ≡ reading_word p b e }
{
    (READING << 28) + ((p as u32) << 12) + ((b as u32) << 6) + (e as u32)
}

// Shift window: the action, from, to, and whether the bits that it leaves spare are zero.
pub fn shift_window_spare(w: u32) -> bool
    ensures { result ≡ shift_window_spare w }
{
    spare::<27, 18>(w)
}

pub fn shift_window_action(w: u32) -> usize
    ensures { (result ≡ shift_window_action w) × (result < 64) }
{
    index::<17, 12>(w)
}

pub fn shift_window_from(w: u32) -> usize
    ensures { (result ≡ shift_window_from w) × (result < 64) }
{
    index::<11, 6>(w)
}

pub fn shift_window_to(w: u32) -> usize
    ensures { (result ≡ shift_window_to w) × (result < 64) }
{
    index::<5, 0>(w)
}

// Group and action in a group: the group's number, its limit or the action, and whether the bits that both leave spare are zero.
pub fn group_spare(w: u32) -> bool
    ensures { result ≡ group_spare w }
{
    spare::<23, 6>(w)
}

pub fn group_number(w: u32) -> usize
    ensures { (result ≡ group_number w) × (result < 16) }
{
    index::<27, 24>(w)
}

pub fn group_limit(w: u32) -> usize
    ensures { (result ≡ group_limit w) × (result < 64) }
{
    index::<5, 0>(w)
}

pub fn group_action(w: u32) -> usize
    ensures { (result ≡ group_action w) × (result < 64) }
{
    index::<5, 0>(w)
}
