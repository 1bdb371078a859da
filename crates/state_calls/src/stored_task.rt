// The objective's sheet and task, of what the state keeps: 20, 21 and 22 before the call's own numbers.
ghost use Rattle.std.specs.Prelude.{◌≡◌, length, IfOk};
ghost use Rattle.task.specs.Task.{task_length};
ghost use Rattle.task.specs.Laid.{laid};
ghost use Rattle.refusals.specs.Number.{number_of};
ghost use Rattle.state_calls.specs.State.{have_sheet, IsInUse};
ghost use Rattle.state_calls.specs.StoredTask.{state_number, apart_of};

use crate::state;
use crate::state::{InUse, State};
use objective_master::weights;
use refusals::refusal::Refusal;
use task::lay;

// The weights in force, the limits, what the party has set, and the tools, each at its place.
pub(crate) fn lay_task(state: &State, task: &mut [f64])
    requires { length task.old ≡ task_length }
    ensures { task.new ≡ laid (apart_of state.now.weights state.now.arms.limits state.now.arms.tools state.now.party) task.old }
{
    let in_force = weights::in_force(state.weights.loaded, state.weights.list);
    lay::lay_stored(
        &in_force,
        &state.arms.limits,
        &state.party.goals,
        &state.party.history.xopt,
        &state.party.history.prev_state,
        &state.party.history.prev_state2,
        &state.arms.tools,
        task,
    );
}

// The sheet in use, where arms, goals and a start are there.
#[tactic(auto, unfolding(crate::specs::StoredTask::state_number))]
pub(crate) fn ready<'a>(state: &'a State) -> Result<InUse<'a>, Refusal>
    ensures number { number_of result ≡ state_number (have_sheet state.now.arms.sizes state.now.arms.codes) state.now.party.has_goals state.now.party.started }
    ensures sheet { IfOk result (IsInUse state.now.arms) }
{
    let sheet = state::in_use(&state.arms)?;
    if !state.party.has_goals {
        return Err(Refusal::NoGoals);
    }
    if !state.party.started {
        return Err(Refusal::NoStart);
    }
    Ok(sheet)
}
