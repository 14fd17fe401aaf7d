// A trial by value: a plan stepped by hand. A move takes the trial and hands it back, with its refusal beside it.
// The number of an action comes from C as a u32, and is cast, since there is no `usize::from` of a u32.
#![tactic(auto)]

ghost use Rattle.std.specs.Prelude.{◌≡◌, ◌<◌, ltb, length};
ghost use Rattle.words.specs.Fields.{start_moment};
ghost use Rattle.words.specs.Scan.{any};
ghost use Rattle.job.specs.Refusal.{job_refusal};
ghost use Rattle.theory.specs.Answers.{written};
ghost use Rattle.theory.specs.Code.Judged.{JobChecked};
ghost use Rattle.moves.specs.Trials.{Start, On, fresh};
ghost use Rattle.moves.specs.Calls.{shown_facts};
ghost use Rattle.trial.specs.Stepped.{trial_of, Stepped, Sized, Storable, show_answer_of};
ghost use Rattle.trial.specs.Code.Given.{Measured, TrialJudged, Extendable, WithWord, NewStart, NextMoment, shown_refusal};
ghost use Rattle.answers.specs.Code.Ruled.{answered, ruled};

use answers::{Answer, Refusal, TRIAL_BOUNDS, answered, none, refuse};
use applicable::start_refusal;
use facts::fill_upto;
use job::{Index, check_job};
use theory::{Plan, buffer_refusal, check_job_and_room, judge_starts};
use words::{MOST_STARTS, insert_word, last_of, start_moment, start_word};

pub mod calls;

// The moment, the number of starts, and the starts, ascending; the words after them say nothing. The number stands beside the starts, since
// memory is fixed (there is no heap), and the words that C lends have it there.
#[derive(Clone, Copy)]
pub struct Trial {
    pub moment: usize,
    pub length: usize,
    pub starts: [u32; MOST_STARTS],
}

// What a move hands back. It is no `Result`: `Stepped`, which is part of the statement, names both fields, since a refused move hands back its
// trial too.
#[derive(Clone, Copy)]
pub struct Moved {
    pub refusal: Refusal,
    pub trial: Trial,
}

// Returns whether a word of the starts has a moment after `u`.
fn some_later(starts: &[u32], u: usize) -> bool
    ensures { result ≡ any (λ s. ltb u (start_moment s)) starts.now }
{
    starts.iter().any(|&s| u < start_moment(s))
}

// Returns a trial at moment 0, of no starts.
fn new_trial() -> Trial
    ensures { (trial_of result ≡ fresh) × Sized result }
{
    Trial {
        moment: 0,
        length: 0,
        starts: [0u32; MOST_STARTS],
    }
}

impl Trial {
    // Returns a fresh trial, beside the job's refusal if it has one.
    pub fn begin(job: &[u32]) -> Moved
        ensures refusal_value { (result.refusal ≡ job_refusal job.now) × (trial_of result.trial ≡ fresh) }
        ensures storable { Storable result }
    {
        let trial = new_trial();
        match check_job(job) {
            Ok(_) => Moved {
                refusal: none(),
                trial,
            },
            Err(refusal) => Moved { refusal, trial },
        }
    }

    // Returns whether the trial has too many starts, is after the last moment, or has a start after its own moment.
    fn is_outside(&self, job: &[u32]) -> bool
        requires { 0 < length job.now }
        ensures { Measured job.now self.now result }
    {
        if MOST_STARTS < self.length {
            return true;
        }
        if last_of(job[0]) < self.moment {
            return true;
        }
        some_later(&self.starts[..self.length], self.moment)
    }

    // Runs the rows of the trial itself, after those of its job.
    fn judged(&self, job: &[u32], index: &Index) -> Result<Plan, Refusal>
        requires { JobChecked job.now index.now }
        ensures { TrialJudged job.now self.now result }
    {
        if self.is_outside(job) {
            return Err(refuse(TRIAL_BOUNDS, 0));
        }
        judge_starts(job, index, &self.starts[..self.length], self.moment).map_err(|refusal| refuse(
            refusal.number,
            0,
        ))
    }

    // Returns the trial with one more start, at its place.
    fn with_word(&self, w: u32) -> Trial
        requires { Extendable self.now }
        ensures { WithWord self.now w result }
    {
        let mut starts = self.starts;
        insert_word(&self.starts[..self.length], w, &mut starts);
        Trial {
            length: self.length + 1,
            starts,
            ..*self
        }
    }

    // Runs every row on starting an action now, and returns the word of its start.
    fn new_start(&self, job: &[u32], action: u32) -> Result<u32, Refusal>
        ensures { NewStart job.now self.now action result }
    {
        let index = check_job(job)?;
        let plan = self.judged(job, &index)?;
        let a = action as usize;
        start_refusal(job, &plan, &self.starts[..self.length], self.moment, a)?;
        Ok(start_word(self.moment, a))
    }

    // Runs every row on going on, and returns the next moment.
    fn next_moment(&self, job: &[u32]) -> Result<usize, Refusal>
        ensures { NextMoment job.now self.now result }
    {
        let index = check_job(job)?;
        // A copy, whose starts are lent: while the trial itself is not lent, its copies up to here need not be made.
        let trial = *self;
        trial.judged(job, &index)?;
        if last_of(job[0]) <= self.moment {
            return Err(refuse(TRIAL_BOUNDS, 0));
        }
        Ok(self.moment + 1)
    }

    // Starts an action now. A refusal is handed back by `return`: where both arms gave the value, it took a trial more on the stack.
    pub fn start(self, job: &[u32], action: u32) -> Moved
        ensures stepped { Stepped job.now self (Start action) result }
        ensures storable { Storable result }
    {
        let w = match self.new_start(job, action) {
            Ok(w) => w,
            Err(refusal) => {
                return Moved {
                    refusal,
                    trial: self,
                };
            }
        };
        Moved {
            refusal: none(),
            trial: self.with_word(w),
        }
    }

    // Goes on one moment. A refusal is handed back by `return`, as in `start`.
    pub fn on(self, job: &[u32]) -> Moved
        ensures stepped { Stepped job.now self On result }
        ensures storable { Storable result }
    {
        let moment = match self.next_moment(job) {
            Ok(moment) => moment,
            Err(refusal) => {
                return Moved {
                    refusal,
                    trial: self,
                };
            }
        };
        Moved {
            refusal: none(),
            trial: Trial { moment, ..self },
        }
    }

    // Runs every row on showing, and writes the facts of moments 0 to the present one to the front of the buffer.
    fn shown(&self, job: &[u32], buffer: &mut [u32]) -> Result<usize, Refusal>
        ensures value { result ≡ ruled (shown_refusal (length buffer.old) job.now (trial_of self.now)) (length (shown_facts job.now (trial_of self.now))) }
        ensures buffer_after { buffer.new ≡ written (answered result) (shown_facts job.now (trial_of self.now)) buffer.old }
    {
        buffer_refusal(buffer.len())?;
        let index = check_job_and_room(job, buffer.len())?;
        let plan = self.judged(job, &index)?;
        Ok(fill_upto(job, &plan.history, self.moment, buffer))
    }

    // Writes the facts of moments 0 to the present one to the front of the buffer.
    pub fn show(self, job: &[u32], buffer: &mut [u32]) -> Answer
        ensures value { result ≡ show_answer_of (length buffer.old) job.now (trial_of self) }
        ensures buffer_after { buffer.new ≡ written result (shown_facts job.now (trial_of self)) buffer.old }
    {
        answered(self.shown(job, buffer))
    }
}
