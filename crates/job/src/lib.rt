// The job format: `check_job` gives the refusal that the document gives, and an index of the words of a job that passes.
#![tactic(auto)]

ghost use Rattle.std.specs.Prelude.{◌≡◌};
ghost use Rattle.job.specs.Refusal.{job_refusal};
ghost use Rattle.job.specs.Code.Index.{checked_of};
ghost use Rattle.answers.specs.Code.Ruled.{ruled};

use answers::Refusal;
use job_end::end_refusal;
use names::Names;
use positions::index_words;
use scan::scan_words;
use words::MOMENTS;

pub mod entries;
pub mod job_end;
pub mod names;
pub mod positions;
pub mod rules;
pub mod scan;

// What may stand before a word besides a kind of words: the node of a task set, or nothing. They are numbers and no enum, as `predecessor` gives
// them: `may_follow` compares them with the kinds by their order.
pub const SET_NODE: u32 = 16;

pub const NOTHING: u32 = 17;

// The most words that a job may have, and the greatest last moment.
pub const MAX_WORDS: usize = 2048;

pub const LAST_MOMENT: usize = MOMENTS - 1;

// The most words of a kind that is indexed: actions, formulas or nodes.
pub const MAX_PLACES: usize = 64;

// How many words of one kind there are, and where each stands. The number stands beside the places, since there is no heap, so that the array has
// room for those of any job.
#[derive(Clone, Copy)]
pub struct Places {
    pub total: usize,
    pub position: [usize; MAX_PLACES],
}

#[derive(Clone, Copy)]
pub struct Index {
    pub actions: Places,
    pub formulas: Places,
    pub nodes: Places,
}

// What the scan keeps of the words before the position that it stands at: how many actions, formulas and nodes they declare, how many
// members and conditions follow the last node, that node's word (0 before the first, as `latest` of the definitions has it), the set of the declared
// groups, and the nodes named as children.
#[derive(Clone, Copy)]
pub struct State {
    pub actions: usize,
    pub formulas: usize,
    pub nodes: usize,
    pub members: usize,
    pub conditions: usize,
    pub node: u32,
    pub groups: u64,
    pub names: Names,
}

// Rows 1 to 5.
fn job_refusal(job: &[u32]) -> Result<(), Refusal>
    ensures { result ≡ ruled (job_refusal job.now) tt }
{
    let n = job.len();
    if !((1 <= n) & (n <= MAX_WORDS)) {
        return Err(answers::refuse(answers::JOB_LENGTH, 0));
    }
    let state = scan_words(job)?;
    end_refusal(job, state)
}

// The index of a job's words, or the refusal of the job.
pub fn check_job(job: &[u32]) -> Result<Index, Refusal>
    ensures { result ≡ checked_of job.now }
{
    job_refusal(job)?;
    Ok(index_words(job))
}
