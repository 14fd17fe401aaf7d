// What a plan that passed hands to the reading layer: its procedure and its trajectory as arrays.
ghost use Rattle.job.specs.Procedure.{procedure_of};
ghost use Rattle.model.specs.Code.Represents.{Represents};
ghost use Rattle.theory.specs.Trajectory.{plan_trajectory};
ghost use Rattle.theory.specs.Code.Judged.{Passed};

use crate::Plan;
use crate::moments::start_moments;
use formulas::standard_values;
use model::Arrays;
use words::last_of;

// Returns the procedure and the trajectory of a plan that passed, as arrays.
// It is not inlined, so that its tables are on the stack while it runs, and not all the time that its caller does.
#[inline(never)]
pub fn arrays_of(job: &[u32], starts: &[u32], plan: &Plan) -> Arrays
    requires { Passed job.now starts.now plan.now }
    ensures { Represents job.now result (procedure_of job.now) (plan_trajectory job.now starts.now) }
{
    let formulas = &plan.index.formulas;
    let places = &formulas.position[..formulas.total];
    let nodes = &plan.index.nodes;
    Arrays {
        count: nodes.total,
        last: last_of(job[0]),
        places: nodes.position,
        starts: start_moments(starts),
        durations: plan.durations,
        values: standard_values(job, places, &plan.history),
    }
}
