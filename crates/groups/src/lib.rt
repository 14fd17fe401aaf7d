// Row 16: groups that exceed their limit. Actions and groups are plain numbers, taken from words: a type for one would be taken apart again at
// each set and each entry of a table, so that a function asks that an action is below 64. Sets have u32 members, so actions are cast. The job and
// the durations come apart, and what is needed of them is asked: docs/CONTRACTS.md names `groups_of` and `over_limit`, so that they may not ask for
// `Actions`, which has tables that row 16 does not need.
#![tactic(auto)]

ghost use Rattle.std.specs.Prelude.{true, ◌≡◌, ℕ, ◌<◌, ◌≤◌, eqb, length, get_or, take};
ghost use Rattle.words.specs.Fields.{kind, group_number};
ghost use Rattle.std.specs.List.{list_any, list_all};
ghost use Rattle.words.specs.Lists.{Each};
ghost use Rattle.answers.specs.Rows.{first_of};
ghost use Rattle.job.specs.Code.WellFormed.{WellFormed};
ghost use Rattle.history.specs.Code.Held.{unfinished_by, Filtered};
ghost use Rattle.starts.specs.Rows.{group_exceeded, numbered};
ghost use Rattle.groups.specs.Code.GroupTable.{GroupTable, WordStored, held_of, is_full, Grouped};
ghost use Rattle.answers.specs.Code.Ruled.{ruled};

use answers::{GROUP_OVER_LIMIT, Refusal, refuse};
use bitset::{has, single, union};
use history::carry::Held;
use words::*;

// A group: its limit, and the set of its actions.
#[derive(Clone, Copy)]
pub struct Group {
    pub limit: usize,
    pub members: u64,
}

// The groups of a job, by their numbers.
#[derive(Clone, Copy)]
pub struct Groups {
    pub all: [Group; GROUPS],
}

// Stores what the word `w` says of a group: its limit, if it declares one, or one of its actions, if it lists one.
fn store_word(w: u32, all: &mut [Group; GROUPS])
    requires { (kind w ≡ 13 → group_number w < 8) × (kind w ≡ 14 → group_number w < 8) × (length all.old ≡ 8) }
    ensures { WordStored w all.old all.new }
{
    if kind_of(w) == GROUP {
        all[group_number(w)].limit = group_limit(w);
    } else if kind_of(w) == GROUP_MEMBER {
        let g = group_number(w);
        all[g].members = union(all[g].members, single(group_action(w) as u32));
    }
}

// Returns the groups of a job, in one pass over it: from the last word to the first, so that of two words on one limit the first counts.
pub fn groups_of(job: &[u32]) -> Groups
    requires { WellFormed job.now }
    ensures { GroupTable job.now result }
{
    let mut all = [Group {
        limit: 0,
        members: 0,
    }; GROUPS];
    for &w in job.iter().rev() {
        store_word(w, &mut all);
    }
    Groups { all }
}

// Returns how many of the starts have an action in the set. It is a loop, since `filter` and `count` take half as many instructions again.
fn held_of(members: u64, held: &[u32]) -> usize
    ensures { result ≡ held_of members held.now }
{
    let mut n = 0;
    for &s in held {
        if has(members, start_action(s) as u32) {
            n += 1;
        }
    }
    n
}

impl Group {
    // Returns whether the group has no room for a start of action `a` beside those in hand.
    fn is_full(&self, held: &[u32], a: usize) -> bool
        requires { a < 64 }
        ensures { result ≡ is_full held.now a self.now }
    {
        has(self.members, a as u32) && self.limit <= held_of(self.members, held)
    }
}

impl Groups {
    // Returns whether some group has no room for a start of action `a` beside those in hand.
    pub fn some_full(&self, held: &[u32], a: usize) -> bool
        requires { a < 64 }
        ensures { result ≡ list_any (is_full held.now a) self.now.all }
    {
        self.all.iter().any(|group| group.is_full(held, a))
    }

    // Returns whether no group has an action.
    fn all_empty(&self) -> bool
        ensures { result ≡ list_all (λ g. eqb g.members 0) self.now.all }
    {
        self.all.iter().all(|group| group.members == 0)
    }
}

// Keeps of the starts in hand, which all finish after moment `t`, those that finish after moment `u`, which is not before `t`. If the moment
// has not changed, all are kept without a pass.
fn keep_from(durations: &[usize; ACTIONS], t: usize, u: usize, held: &mut Held)
    requires { (t ≤ u) × ((a : ℕ) → get_or durations.now a 0 < 64) × Each (λ s. unfinished_by durations.now t s ≡ true) (take held.old.count held.old.words) }
    ensures { Filtered (unfinished_by durations.now u) held.old.count held.old.words held.new.count held.new.words }
{
    if t != u {
        held.keep(durations, u);
    }
}

// Row 16: refuses the first start with which a group exceeds its limit. `held` has the starts before it that are in hand at the moment `t` of
// the last one.
pub fn over_limit(
    job: &[u32],
    durations: &[usize; ACTIONS],
    groups: &Groups,
    starts: &[u32],
) -> Result<(), Refusal>
    requires { Grouped job.now durations.now starts.now groups.now }
    ensures { result ≡ ruled (first_of (numbered 16 (group_exceeded job.now starts.now)) (length starts.now)) tt }
{
    if groups.all_empty() {
        return Ok(());
    }
    let mut held = Held::none();
    let mut t = 0;
    for (i, &s) in starts.iter().enumerate() {
        let u = start_moment(s);
        keep_from(durations, t, u, &mut held);
        if groups.some_full(held.starts(), start_action(s)) {
            return Err(refuse(GROUP_OVER_LIMIT, i));
        }
        held.push(s);
        t = u;
    }
    Ok(())
}
