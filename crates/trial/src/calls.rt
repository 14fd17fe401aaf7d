// The four calls on the words of a trial, as the host in C lends them: the moment, the number of starts, the starts. The words are taken apart into
// a trial, the rows of the move are run, and the trial's words are put back if none refuses. Both numbers are cast, since there is no `From`
// between u32 and usize.
ghost use Rattle.std.specs.Prelude.{◌≡◌, ◌++◌, ◌≤◌, length, drop};
ghost use Rattle.theory.specs.Answers.{written};
ghost use Rattle.moves.specs.Trials.{Start, On, fresh, after};
ghost use Rattle.moves.specs.Calls.{trial_words, trial_in, begin_answer, move_answer, shown_facts, show_answer, handed_back};
ghost use Rattle.trial.specs.Stepped.{trial_of, Sized, Storable};
ghost use Rattle.trial.specs.Code.Called.{short_rows, begin_rows, move_rows, few_rows};
ghost use Rattle.answers.specs.Code.Ruled.{answered, ruled};

use crate::{Moved, Trial};
use answers::{Answer, Refusal, TRIAL_BOUNDS, answered, refuse};
use job::check_job;
use theory::{buffer_refusal, check_job_and_room};
use words::{MOST_STARTS, copy_words};

// The words that a trial takes: the moment, the number, and room for the starts.
const TRIAL_WORDS: usize = 2 + MOST_STARTS;

// Returns the trial that words say.
fn taken(words: &[u32]) -> Trial
    requires { 4098 ≤ length words.now }
    ensures { trial_of result ≡ trial_in words.now }
{
    let moment = words[0] as usize;
    let length = words[1] as usize;
    let mut starts = [0u32; MOST_STARTS];
    copy_words(&words[2..TRIAL_WORDS], 0, &mut starts);
    Trial {
        moment,
        length,
        starts,
    }
}

// Writes a trial's words in front of the lent ones.
fn store(trial: &Trial, words: &mut [u32])
    requires { Sized trial.now × (4098 ≤ length words.old) }
    ensures { words.new ≡ trial_words (trial_of trial.now) ++ drop (length (trial_words (trial_of trial.now))) words.old }
{
    words[0] = trial.moment as u32;
    words[1] = trial.length as u32;
    copy_words(&trial.starts[..trial.length], 2, words);
}

// Refuses words that are too few for a trial, after the rows of the job.
fn enough(job: &[u32], words: &[u32]) -> Result<(), Refusal>
    ensures { result ≡ ruled (short_rows job.now words.now) tt }
{
    if words.len() < TRIAL_WORDS {
        check_job(job)?;
        return Err(refuse(TRIAL_BOUNDS, 0));
    }
    Ok(())
}

// Writes the trial that a move hands back, or gives the refusal of the move. It takes the move by value: a lent one would take a place on the stack
// beside the trial in it.
fn put_back(moved: Moved, words: &mut [u32]) -> Result<usize, Refusal>
    requires { Storable moved × (4098 ≤ length words.old) }
    ensures { (result ≡ ruled moved.refusal 0) × (words.new ≡ handed_back (answered result) (trial_of moved.trial) words.old) }
{
    if moved.refusal.number != 0 {
        return Err(moved.refusal);
    }
    store(&moved.trial, words);
    Ok(0)
}

// Begins a trial, and writes it.
fn begun(job: &[u32], words: &mut [u32]) -> Result<usize, Refusal>
    ensures { (result ≡ ruled (begin_rows (length words.old) job.now) 0) × (words.new ≡ handed_back (answered result) fresh words.old) }
{
    if words.len() < TRIAL_WORDS {
        check_job(job)?;
        return Err(refuse(TRIAL_BOUNDS, 0));
    }
    put_back(Trial::begin(job), words)
}

// Starts an action now, and writes the trial after it. It is not inlined, so that words that are too few are refused with no trial on the stack.
#[inline(never)]
fn started(job: &[u32], words: &mut [u32], action: u32) -> Answer
    requires { 4098 ≤ length words.old }
    ensures { (result ≡ move_answer job.now words.old (Start action)) × (words.new ≡ handed_back result (after job.now (trial_in words.old) (Start action)) words.old) }
{
    answered(put_back(taken(words).start(job, action), words))
}

// Goes on one moment, and writes the trial after it. It is not inlined, so that words that are too few are refused with no trial on the stack.
#[inline(never)]
fn gone_on(job: &[u32], words: &mut [u32]) -> Answer
    requires { 4098 ≤ length words.old }
    ensures { (result ≡ move_answer job.now words.old On) × (words.new ≡ handed_back result (after job.now (trial_in words.old) On) words.old) }
{
    answered(put_back(taken(words).on(job), words))
}

// Runs the rows before the one on words that are too few to be shown, and then that one, which fits.
fn too_few(job: &[u32], room: usize) -> Result<usize, Refusal>
    ensures { result ≡ ruled (few_rows room job.now) 0 }
{
    buffer_refusal(room)?;
    check_job_and_room(job, room)?;
    Err(refuse(TRIAL_BOUNDS, 0))
}

// Begins a trial.
pub fn begin_words(job: &[u32], words: &mut [u32]) -> Answer
    ensures { (result ≡ begin_answer (length words.old) job.now) × (words.new ≡ handed_back result fresh words.old) }
{
    answered(begun(job, words))
}

// Refuses words that are too few for a trial, or starts an action now.
pub fn start_words(job: &[u32], words: &mut [u32], action: u32) -> Answer
    ensures { (result ≡ move_answer job.now words.old (Start action)) × (words.new ≡ handed_back result (after job.now (trial_in words.old) (Start action)) words.old) }
{
    match enough(job, words) {
        Ok(()) => started(job, words, action),
        Err(refusal) => answered(Err(refusal)),
    }
}

// Refuses words that are too few for a trial, or goes on one moment.
pub fn on_words(job: &[u32], words: &mut [u32]) -> Answer
    ensures { (result ≡ move_answer job.now words.old On) × (words.new ≡ handed_back result (after job.now (trial_in words.old) On) words.old) }
{
    match enough(job, words) {
        Ok(()) => gone_on(job, words),
        Err(refusal) => answered(Err(refusal)),
    }
}

// Writes the facts of moments 0 to the present one to the front of the buffer. It is not inlined, so that a buffer that is too short is refused
// with no trial on the stack.
#[inline(never)]
fn shown(job: &[u32], words: &[u32], buffer: &mut [u32]) -> Answer
    ensures { (result ≡ show_answer (length buffer.old) job.now words.now) × (buffer.new ≡ written result (shown_facts job.now (trial_in words.now)) buffer.old) }
{
    if words.len() < TRIAL_WORDS {
        return answered(too_few(job, buffer.len()));
    }
    taken(words).show(job, buffer)
}

// Refuses a buffer that is too short, or shows the trial.
pub fn show_words(job: &[u32], words: &[u32], buffer: &mut [u32]) -> Answer
    ensures { (result ≡ show_answer (length buffer.old) job.now words.now) × (buffer.new ≡ written result (shown_facts job.now (trial_in words.now)) buffer.old) }
{
    match buffer_refusal(buffer.len()) {
        Ok(()) => shown(job, words, buffer),
        Err(refusal) => answered(Err(refusal)),
    }
}
