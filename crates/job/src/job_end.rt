// The rows of the job end. A node's number is cast to be a set's member, since there is no `u32::from` of a usize.
ghost use Rattle.std.specs.Prelude.{List, ◌≡◌, ℕ, ◌-◌, ◌<◌, ◌≤◌, length, get_or};
ghost use Rattle.answers.specs.Rows.{first_of};
ghost use Rattle.job.specs.Before.{before, count_of_kind, named};
ghost use Rattle.job.specs.Refusal.{name_refusal, end_refusal};
ghost use Rattle.job.specs.Code.Names.{NamedTimes};
ghost use Rattle.job.specs.Code.State.{Tied};
ghost use Rattle.answers.specs.Code.Ruled.{ruled};

use crate::State;
use crate::names::Names;
use answers::{JOB_NODES, JOB_VALUE, Refusal};
use words::forms::TASK_SET;

// Refuses the lowest node below `root` that is not named exactly once.
fn name_refusal(names: Names, root: usize) -> Result<(), Refusal>
    requires { root ≤ 64 }
    ensures { (p : List ℕ) → NamedTimes (λ v. named v p) names → result ≡ ruled (first_of (name_refusal p) root) tt }
{
    let once = bitset::minus(names.named, names.again);
    for v in 0..root {
        if !bitset::has(once, v as u32) {
            return Err(answers::refuse(JOB_NODES, v));
        }
    }
    Ok(())
}

// The first row of the job end that fits.
pub fn end_refusal(job: &[u32], s: State) -> Result<(), Refusal>
    requires { (0 < length job.now) × (count_of_kind 6 (before job.now (length job.now)) ≤ 64) × Tied (before job.now (length job.now)) s }
    ensures { result ≡ ruled (end_refusal (get_or job.now 0 0) (length job.now) (before job.now (length job.now))) tt }
{
    if s.actions != words::actions_of(job[0]) {
        return Err(answers::refuse(JOB_VALUE, job.len()));
    }
    if s.nodes == 0 {
        return Err(answers::refuse(JOB_NODES, 0));
    }
    let root = s.nodes - 1;
    if (words::form_of(s.node) == TASK_SET) & (s.members == 0) {
        return Err(answers::refuse(JOB_NODES, root));
    }
    name_refusal(s.names, root)
}
