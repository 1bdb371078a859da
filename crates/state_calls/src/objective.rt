// The objective and its gradients; `strict` picks the list for goals without tolerance.
ghost use Rattle.std.specs.Prelude.{◌≡◌, length};
ghost use Rattle.lists.specs.Splice.{splice};
ghost use Rattle.refusals.specs.Number.{number_of};
ghost use Rattle.gradient.specs.Gradient.{slopes_of};
ghost use Rattle.calls.specs.Arms.{if_taken};
ghost use Rattle.calls.specs.Answer.{answer_value, value_if};
ghost use Rattle.calls.specs.AcceptedTask.{FrontIfTaken};
ghost use Rattle.state_calls.specs.Objective.{given_state, link_floats, objective_number_of, objective_value_of, gradient_number_of, gradient_slopes_of, finite_diff_slopes_of};

use crate::state::State;
use crate::stored_task;
use calls::{slopes, value};
use gradient::slopes::Rule;
use refusals::refusal::Refusal;
use task::picks::Picks;

// The weighted sum of all objectives at a block of joints.
#[tactic(auto, unfolding(crate::specs::StoredTask::after_state, crate::specs::StoredTask::objective_stored, refusals::specs::Lowest::first_of, calls::specs::Answer::value_if))]
pub fn objective(state: State, strict: bool, joints: &[f64]) -> Result<f64, Refusal>
    ensures number { number_of result ≡ objective_number_of state joints.now }
    ensures value { answer_value result ≡ value_if (number_of result) (objective_value_of state strict joints.now) }
{
    let sheet = stored_task::ready(&state)?;
    let mut task = [0.0; task::LENGTH];
    stored_task::lay_task(&state, &mut task);
    value::objective(
        sheet.counts,
        sheet.codes,
        sheet.floats,
        &task,
        Picks { strict },
        joints,
    )
}

// Either gradient, by its rule.
#[tactic(auto, unfolding(crate::specs::StoredTask::after_state, crate::specs::StoredTask::slopes_stored, refusals::specs::Lowest::first_of, calls::specs::Answer::value_if, calls::specs::Arms::if_taken))]
fn gradient_by(
    rule: Rule,
    state: State,
    picks: Picks,
    joints: &[f64],
    scratch: &mut [f64],
    slopes: &mut [f64],
) -> Result<f64, Refusal>
    ensures number { number_of result ≡ gradient_number_of state joints.now (length scratch.old) (length slopes.old) }
    ensures value { answer_value result ≡ value_if (number_of result) (objective_value_of state picks.strict joints.now) }
    ensures scratch { FrontIfTaken (number_of result) scratch joints.now }
    ensures slopes { FrontIfTaken (number_of result) slopes (slopes_of rule (given_state state picks.strict) (link_floats state) joints.now) }
{
    let sheet = stored_task::ready(&state)?;
    let mut task = [0.0; task::LENGTH];
    stored_task::lay_task(&state, &mut task);
    slopes::gradient(
        rule,
        sheet.counts,
        sheet.codes,
        sheet.floats,
        &task,
        picks,
        joints,
        scratch,
        slopes,
    )
}

// Each objective's slope along each joint by a step of 1e-7, weighted and added, and the objective at the joints. Scratch ends equal to the joints.
pub fn gradient(
    state: State,
    strict: bool,
    joints: &[f64],
    scratch: &mut [f64],
    slopes: &mut [f64],
) -> Result<f64, Refusal>
    ensures number { number_of result ≡ gradient_number_of state joints.now (length scratch.old) (length slopes.old) }
    ensures value { answer_value result ≡ value_if (number_of result) (objective_value_of state strict joints.now) }
    ensures scratch { scratch.new ≡ if_taken (number_of result) scratch.old (splice scratch.old 0 joints.now) }
    ensures slopes { slopes.new ≡ if_taken (number_of result) slopes.old (splice slopes.old 0 (gradient_slopes_of state strict joints.now)) }
{
    gradient_by(
        Rule::EachLoss,
        state,
        Picks { strict },
        joints,
        scratch,
        slopes,
    )
}

// The slope of the objective along each joint by a step of 1e-6, and the objective at the joints. Scratch ends equal to the joints.
pub fn gradient_finite_diff(
    state: State,
    strict: bool,
    joints: &[f64],
    scratch: &mut [f64],
    slopes: &mut [f64],
) -> Result<f64, Refusal>
    ensures number { number_of result ≡ gradient_number_of state joints.now (length scratch.old) (length slopes.old) }
    ensures value { answer_value result ≡ value_if (number_of result) (objective_value_of state strict joints.now) }
    ensures scratch { scratch.new ≡ if_taken (number_of result) scratch.old (splice scratch.old 0 joints.now) }
    ensures slopes { slopes.new ≡ if_taken (number_of result) slopes.old (splice slopes.old 0 (finite_diff_slopes_of state strict joints.now)) }
{
    gradient_by(
        Rule::WeightedSum,
        state,
        Picks { strict },
        joints,
        scratch,
        slopes,
    )
}
