// The list of known facts, written to a buffer by the history of a plan. Moments and fluents are plain numbers, and a function asks that they are
// in range: a type for one would be taken apart again at each entry of the history. That the job passes is asked as `WellFormed`: docs/CONTRACTS.md
// names `fill_facts` and `fill_upto`, so that they may not ask for a checked job's index or tables. The buffer is lent with a position, since the
// contracts speak of all its words, also of those that stay as they were.
ghost use Rattle.std.specs.Prelude.{◌≡◌, List, [], ◌∷◌, MatchOption, ℕ, ◌+◌, ◌<◌, ◌≤◌, ◌*◌, length, take, drop};
ghost use Rattle.words.specs.Fields.{fact_room};
ghost use Rattle.job.specs.Parts.{head_word, fluents, last_moment};
ghost use Rattle.job.specs.Code.WellFormed.{WellFormed};
ghost use Rattle.history.specs.Code.Tables.{HistoryUpto, History};
ghost use Rattle.facts.specs.Facts.{fact_of, facts_upto, facts_of};
ghost use Rattle.facts.specs.Code.Written.{facts_in, row_facts, Written, Filled, Fillable};

use words::{FLUENTS, OPEN, STATES, fact_word, fluents_of, last_of};

// Writes the facts at moment `t`, at which the fluents have the values of `row`, to the buffer from position `at` on, and answers the position
// after them.
fn write_facts(head: u32, t: usize, row: &[u8], buffer: &mut [u32], at: usize) -> usize
    requires { (t < 64) × (length row.now ≤ 256) × (at + length row.now ≤ length buffer.old) }
    ensures { Written buffer.old at (facts_in head t row.now (length row.now)) result buffer.new }
{
    let mut end = at;
    for (f, &value) in row.iter().enumerate() {
        if value != OPEN {
            buffer[end] = fact_word(head, t, f, value);
            end += 1;
        }
    }
    end
}

// Returns the values of the first `n` fluents at moment `t`.
fn values_at(history: &[u8; STATES], t: usize, n: usize) -> &[u8]
    requires { (t < 64) × (n ≤ 256) }
    ensures { (result.now ≡ take n (drop (t * 256) history.now)) × (length result.now ≡ n) }
{
    &history[t * FLUENTS..t * FLUENTS + n]
}

// Writes the facts that the history's row of moment `t` has to the front of `row`, and answers how many they are.
pub fn row_facts(job: &[u32], history: &[u8; STATES], t: usize, row: &mut [u32]) -> usize
    requires { WellFormed job.now × (t ≤ last_moment job.now) × (fluents job.now ≤ length row.old) }
    ensures { Filled row.old (row_facts history.now (head_word job.now) t (fluents job.now)) result row.new }
{
    let head = job[0];
    write_facts(head, t, values_at(history, t, fluents_of(head)), row, 0)
}

// Writes the facts of the moments up to `last` to the front of the buffer, and answers how many they are.
pub fn fill_upto(job: &[u32], history: &[u8; STATES], last: usize, buffer: &mut [u32]) -> usize
    requires { Fillable job.now last buffer.old }
    ensures { (starts : List ℕ) → HistoryUpto job.now starts last history.now
        → Filled buffer.old (facts_upto job.now starts last) result buffer.new }
{
    let head = job[0];
    let n = fluents_of(head);
    let mut at = 0;
    for t in 0..=last {
        at = write_facts(head, t, values_at(history, t, n), buffer, at);
    }
    at
}

// Writes all facts to the front of the buffer, and answers how many they are.
pub fn fill_facts(job: &[u32], history: &[u8; STATES], buffer: &mut [u32]) -> usize
    requires { WellFormed job.now × (fact_room (head_word job.now) ≤ length buffer.old) }
    ensures { (starts : List ℕ) → History job.now starts history.now
        → Filled buffer.old (facts_of job.now starts) result buffer.new }
{
    fill_upto(job, history, last_of(job[0]), buffer)
}
