// The theory layer's calls, on any lists of words: check and fill. That a job passes is asked as `WellFormed` or `JobChecked`: a type for a checked
// job would have its index or its tables in it, and so ask for more than docs/CONTRACTS.md has it.
#![tactic(auto)]

ghost use Rattle.std.specs.Prelude.{List, ◌≡◌, ℕ, ◌≤◌, length, drop};
ghost use Rattle.job.specs.Code.WellFormed.{WellFormed};
ghost use Rattle.history.specs.Code.Tables.{History};
ghost use Rattle.facts.specs.Facts.{facts_of};
ghost use Rattle.answers.specs.Rows.{first_refusal};
ghost use Rattle.starts.specs.Rows.{starts_refusal};
ghost use Rattle.theory.specs.Answers.{buffer_refusal, plan_refusal, facts_refusal, check_refusal, check_answer, fill_refusal, fill_answer, written};
ghost use Rattle.theory.specs.Code.Judged.{room_checked_of, JobRuled, refusal_in, Judgeable, JudgedUpto, Judged};
ghost use Rattle.theory.specs.Code.Compared.{part_refusal};
ghost use Rattle.answers.specs.Code.Ruled.{answered, ruled};

use answers::{Answer, BUFFER_SHORT, FACTS_DIFFER, Refusal, answered, refuse};
use facts::{fill_facts, row_facts};
use groups::{Groups, groups_of, over_limit};
use history::{Actions, durations, effects, law_ends};
use job::{Index, check_job};
use shifts::{Shifts, outside_windows, shifts_of};
use starts::{check_needs, check_times};
use words::{ACTIONS, BUFFER_WORDS, EFFECTS, FLUENTS, STATES, fact_room, last_of};

pub mod arrays;
pub mod moments;

pub use arrays::arrays_of;

// What a plan that passes the rows of its job and its starts leaves: the index of the job's words, the durations of its actions, where
// their laws end, their effects and shift windows, its groups, and the history.
#[derive(Clone, Copy)]
pub struct Plan {
    pub index: Index,
    pub durations: [usize; ACTIONS],
    pub ends: [usize; ACTIONS],
    pub effects: [u8; EFFECTS],
    pub shifts: Shifts,
    pub groups: Groups,
    pub history: [u8; STATES],
}

impl Plan {
    // Lends the tables of the actions of the job that the plan is of.
    pub fn tables<'a>(&'a self, job: &'a [u32]) -> Actions<'a>
        ensures job { result.job.now ≡ job.now }
        ensures places { result.places.now ≡ self.now.index.actions.position }
        ensures durations { result.durations.now ≡ self.now.durations }
        ensures ends { result.ends.now ≡ self.now.ends }
        ensures effects { result.effects.now ≡ self.now.effects }
    {
        Actions {
            job,
            places: &self.index.actions.position,
            durations: &self.durations,
            ends: &self.ends,
            effects: &self.effects,
        }
    }
}

// Runs the rows of the starts, of a job that no row refuses, and makes the history up to moment `last`.
// It is not inlined, so that its tables are on the stack while it runs, and not all the time that its caller does.
#[inline(never)]
pub fn judge_starts(
    job: &[u32],
    index: &Index,
    starts: &[u32],
    last: usize,
) -> Result<Plan, Refusal>
    requires { Judgeable job.now starts.now index.now last }
    ensures { JudgedUpto (plan_refusal job.now starts.now) job.now starts.now last result }
{
    let places = &index.actions.position;
    let durations = durations(job, places);
    let ends = law_ends(job, places);
    let effects = effects(job, places, &ends);
    let tables = Actions {
        job,
        places,
        durations: &durations,
        ends: &ends,
        effects: &effects,
    };
    check_times(&tables, starts)?;
    let history = tables.history(starts, last);
    let shifts = shifts_of(job, &durations);
    outside_windows(job, &shifts, starts)?;
    let groups = groups_of(job);
    over_limit(job, &durations, &groups, starts)?;
    check_needs(&tables, &history, starts)?;
    Ok(Plan {
        index: *index,
        durations,
        ends,
        effects,
        shifts,
        groups,
        history,
    })
}

// Runs the rows of the job, then row 12 again: whether there is room for the facts of its plans.
pub fn check_job_and_room(job: &[u32], room: usize) -> Result<Index, Refusal>
    ensures { result ≡ room_checked_of room job.now }
{
    let checked = check_job(job)?;
    if room < fact_room(job[0]) {
        return Err(refuse(BUFFER_SHORT, 0));
    }
    Ok(checked)
}

// Runs the rows of the starts, after those that gave `checked`.
// It is inlined, as judge_facts is: each call between would put one more plan on the stack.
#[inline(always)]
pub fn judge(job: &[u32], checked: Result<Index, Refusal>, starts: &[u32]) -> Result<Plan, Refusal>
    requires { JobRuled job.now checked }
    ensures { Judged (first_refusal (refusal_in checked) (starts_refusal job.now starts.now)) job.now starts.now result }
{
    let index = checked?;
    judge_starts(job, &index, starts, last_of(job[0]))
}

// Row 11 on one part of the facts: refuses the first difference of the given list, from position `at` on, from that part.
fn compare_part(given: &[u32], at: usize, part: &[u32]) -> Result<(), Refusal>
    requires { at ≤ length given.now }
    ensures { result ≡ ruled (part_refusal (drop at given.now) part.now at) tt }
{
    for (i, &w) in part.iter().enumerate() {
        let j = at + i;
        if given.len() <= j {
            return Err(refuse(FACTS_DIFFER, j));
        }
        if given[j] != w {
            return Err(refuse(FACTS_DIFFER, j));
        }
    }
    Ok(())
}

// Row 11: refuses the first difference from the facts of a plan, which are made for one moment at a time.
pub fn compare_facts(job: &[u32], history: &[u8; STATES], given: &[u32]) -> Result<(), Refusal>
    requires { WellFormed job.now }
    ensures { (starts : List ℕ) → History job.now starts history.now → result ≡ ruled (facts_refusal given.now (facts_of job.now starts) 0) tt }
{
    let mut row = [0u32; FLUENTS];
    let mut at = 0;
    let last = last_of(job[0]);
    for t in 0..=last {
        let n = row_facts(job, history, t, &mut row);
        compare_part(given, at, &row[..n])?;
        at += n;
    }
    if at < given.len() {
        return Err(refuse(FACTS_DIFFER, at));
    }
    Ok(())
}

// Runs the rows of the job and of the starts, then row 11. The plan is read where it stands: `?` would put a second one on the stack.
#[inline(always)]
pub fn judge_facts(job: &[u32], starts: &[u32], facts: &[u32]) -> Result<Plan, Refusal>
    ensures { Judged (check_refusal job.now starts.now facts.now) job.now starts.now result }
{
    let judged = judge(job, check_job(job), starts);
    match &judged {
        Ok(plan) => compare_facts(job, &plan.history, facts)?,
        Err(refusal) => return Err(*refusal),
    }
    judged
}

// Runs every row on the job, the starts and the facts; where they pass, no word is written. It reads the plan where it stands, as judge_facts does.
fn check(job: &[u32], starts: &[u32], facts: &[u32]) -> Result<usize, Refusal>
    ensures { result ≡ ruled (check_refusal job.now starts.now facts.now) 0 }
{
    match &judge_facts(job, starts, facts) {
        Ok(_) => Ok(0),
        Err(refusal) => Err(*refusal),
    }
}

// The check call.
pub fn check_plan(job: &[u32], starts: &[u32], facts: &[u32]) -> Answer
    ensures { result ≡ check_answer job.now starts.now facts.now }
{
    answered(check(job, starts, facts))
}

// The first row 12, of fill, find and trial_show: refuses a lent buffer that is too short for any job.
pub fn buffer_refusal(room: usize) -> Result<(), Refusal>
    ensures { result ≡ ruled (buffer_refusal room) tt }
{
    if room < BUFFER_WORDS {
        return Err(refuse(BUFFER_SHORT, 0));
    }
    Ok(())
}

// Runs the rows of the job, row 12 again and the rows of the starts, then writes the facts to the front of the buffer.
fn fill(job: &[u32], starts: &[u32], buffer: &mut [u32]) -> Result<usize, Refusal>
    requires { (buffer_refusal (length buffer.old)).number ≡ 0 }
    ensures value { result ≡ ruled (fill_refusal (length buffer.old) job.now starts.now) (length (facts_of job.now starts.now)) }
    ensures buffer_after { buffer.new ≡ written (answered result) (facts_of job.now starts.now) buffer.old }
{
    let plan = judge(job, check_job_and_room(job, buffer.len()), starts)?;
    Ok(fill_facts(job, &plan.history, buffer))
}

// Answers what `fill` gives. It is not inlined, so that a buffer that is too short is refused with no room for a plan on the stack.
#[inline(never)]
fn filled(job: &[u32], starts: &[u32], buffer: &mut [u32]) -> Answer
    requires { (buffer_refusal (length buffer.old)).number ≡ 0 }
    ensures value { result ≡ fill_answer (length buffer.old) job.now starts.now }
    ensures buffer_after { buffer.new ≡ written result (facts_of job.now starts.now) buffer.old }
{
    answered(fill(job, starts, buffer))
}

// The fill call: runs row 12, then the other rows, and writes.
pub fn fill_plan(job: &[u32], starts: &[u32], buffer: &mut [u32]) -> Answer
    ensures value { result ≡ fill_answer (length buffer.old) job.now starts.now }
    ensures buffer_after { buffer.new ≡ written result (facts_of job.now starts.now) buffer.old }
{
    match buffer_refusal(buffer.len()) {
        Ok(()) => filled(job, starts, buffer),
        Err(refusal) => answered(Err(refusal)),
    }
}
