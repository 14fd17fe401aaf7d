// Where the words of a kind stand.
ghost use Rattle.std.specs.Prelude.{◌≡◌, ◌≤◌, length};
ghost use Rattle.job.specs.Before.{before, count_of_kind};
ghost use Rattle.job.specs.Code.Index.{places_upto, Indexable, index_of};

use crate::{Index, MAX_PLACES, Places};
use words::{ACTION, FORMULA, NODE};

// The positions of the words of kind `k`.
fn place_words(job: &[u32], k: u32) -> Places
    requires { count_of_kind k (before job.now (length job.now)) ≤ 64 }
    ensures { result ≡ places_upto k job.now (length job.now) }
{
    let mut position = [0usize; MAX_PLACES];
    let mut total: usize = 0;
    for (i, &w) in job.iter().enumerate() {
        if words::kind_of(w) == k {
            position[total] = i;
            total += 1;
        }
    }
    Places { total, position }
}

// The index of the words of a job.
pub fn index_words(job: &[u32]) -> Index
    requires { Indexable job.now (length job.now) }
    ensures { result ≡ index_of job.now }
{
    Index {
        actions: place_words(job, ACTION),
        formulas: place_words(job, FORMULA),
        nodes: place_words(job, NODE),
    }
}
