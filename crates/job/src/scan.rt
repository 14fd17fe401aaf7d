// The words in turn: the refusal of each by the rule of its kind, at what the scan keeps of the words before.
// A group's number is cast to be a set's member, since there is no `u32::from` of a usize.
ghost use Rattle.std.specs.Prelude.{◌||◌, ◌≡◌, ◌+◌, ◌<◌, ◌≤◌, length, get_or};
ghost use Rattle.answers.specs.Rows.{first_of};
ghost use Rattle.bitset.specs.Code.Members.{has, IsSetOf};
ghost use Rattle.job.specs.Parts.{is_group};
ghost use Rattle.job.specs.Before.{before};
ghost use Rattle.job.specs.Follow.{predecessor};
ghost use Rattle.job.specs.Refusal.{refusal_of};
ghost use Rattle.job.specs.Code.Entries.{Listed};
ghost use Rattle.job.specs.Code.State.{Tied};
ghost use Rattle.answers.specs.Code.Ruled.{RuledBy, if_any};

use crate::entries::{ENTRY_ROWS, is_listed};
use crate::names::Names;
use crate::{NOTHING, SET_NODE, State, entries, names, rules};
use answers::{JOB_SHAPE, Refusal};
use words::{
    ACTION, CONDITION, FORMULA, GROUP, GROUP_MEMBER, HEAD, KNOWN, LAW, MEMBER, NODE, SHIFT_WINDOW,
};

// What stands directly before position `i`.
fn predecessor(job: &[u32], i: usize) -> u32
    requires { i ≤ length job.now }
    ensures { result ≡ predecessor (before job.now i) }
{
    if i == 0 {
        return NOTHING;
    }
    let w = job[i - 1];
    rules::pick(words::is_set(w), SET_NODE, words::kind_of(w))
}

// The number of the refusal of the word at position `i`, if it is refused, by the rule of its kind, at what the scan keeps of the words before it.
fn word_refusal(job: &[u32], i: usize, s: State, listed: &[u64; ENTRY_ROWS]) -> Option<u32>
    requires { (i < length job.now) × Tied (before job.now i) s × Listed (get_or job.now 0 0) (before job.now i) listed.now }
    ensures { result ≡ if_any (refusal_of job.now i) }
{
    let w = job[i];
    let head = job[0];
    let k = words::kind_of(w);
    if !rules::may_follow(k, predecessor(job, i)) {
        return Some(JOB_SHAPE);
    }
    match k {
        HEAD => rules::head(w),
        KNOWN => rules::known(head, is_listed(listed, head, w), w),
        ACTION => rules::action(s.actions, w),
        LAW => rules::law(head, is_listed(listed, head, w), w),
        FORMULA => rules::formula(head, s.formulas, w),
        NODE => rules::node(s.actions, s.formulas, s.nodes, w),
        MEMBER => rules::member(s.nodes, s.members, w),
        CONDITION => rules::condition(s.formulas, s.members, s.conditions, w),
        SHIFT_WINDOW => rules::shift_window(s.actions, w),
        GROUP => rules::group(s.groups, w),
        GROUP_MEMBER => rules::group_member(s.actions, s.groups, is_listed(listed, head, w), w),
        _ => Some(JOB_SHAPE),
    }
}

// The groups declared, with that of the word `w` if it declares one.
fn with_group(groups: u64, w: u32) -> u64
    ensures { IsSetOf result (λ g. is_group g w || has groups g) }
{
    if words::kind_of(w) != GROUP {
        return groups;
    }
    bitset::union(bitset::single(words::group_number(w) as u32), groups)
}

// The state after one more word.
fn advance(job: &[u32], i: usize, s: State) -> State
    requires { (i < length job.now) × Tied (before job.now i) s }
    ensures { Tied (before job.now (i + 1)) result }
{
    let w = job[i];
    let k = words::kind_of(w);
    let actions = s.actions + usize::from(k == ACTION);
    let formulas = s.formulas + usize::from(k == FORMULA);
    let nodes = s.nodes + usize::from(k == NODE);
    let members = rules::pick(k == NODE, 0, s.members + usize::from(k == MEMBER));
    let conditions = rules::pick(k == NODE, 0, s.conditions + usize::from(k == CONDITION));
    let node = rules::pick(k == NODE, w, s.node);
    let groups = with_group(s.groups, w);
    let names = names::with_children(s.names, w);
    State {
        actions,
        formulas,
        nodes,
        members,
        conditions,
        node,
        groups,
        names,
    }
}

// The words in turn: the state after all of them, or the first refusal.
pub fn scan_words(job: &[u32]) -> Result<State, Refusal>
    ensures { RuledBy (first_of (refusal_of job.now) (length job.now)) (Tied (before job.now (length job.now))) result }
{
    let mut s = State {
        actions: 0,
        formulas: 0,
        nodes: 0,
        members: 0,
        conditions: 0,
        node: 0,
        groups: 0,
        names: Names { named: 0, again: 0 },
    };
    let mut listed = [0u64; ENTRY_ROWS];
    for (i, &w) in job.iter().enumerate() {
        if let Some(number) = word_refusal(job, i, s, &listed) {
            return Err(answers::refuse(number, i));
        }
        s = advance(job, i, s);
        entries::list_word(job[0], w, &mut listed);
    }
    Ok(s)
}
