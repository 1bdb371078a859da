// The gradient on one block, which is raised and put back joint after joint, and its record; `strict` picks the list for goals without tolerance.
ghost use Rattle.std.specs.Prelude.{◌≡◌, length};
ghost use Rattle.refusals.specs.Number.{number_of};
ghost use Rattle.calls.specs.Answer.{answer_value, value_if};
ghost use Rattle.calls.specs.AcceptedTask.{FrontIfTaken};
ghost use Rattle.state_calls.specs.Objective.{objective_value_of, gradient_slopes_of};
ghost use Rattle.state_calls.specs.OneBlock.{one_block_number_of, record_joints_of, record_links_of, record_poses_of};

use crate::state::State;
use crate::stored_task;
use calls::one_block_slopes;
use refusals::refusal::Refusal;
use task::picks::Picks;

// Each objective's slope along each joint by a step of 1e-7, weighted and added, and the objective at the block. The block ends as it came, refused or not.
#[tactic(auto, unfolding(crate::specs::StoredTask::after_state, crate::specs::OneBlock::one_block_stored, refusals::specs::Lowest::first_of, calls::specs::Answer::value_if, calls::specs::Arms::if_taken))]
pub fn gradient_one_block(
    state: State,
    strict: bool,
    block: &mut [f64],
    slopes: &mut [f64],
    record_joints: &mut [u16],
    record_links: &mut [u16],
    record_poses: &mut [f64],
) -> Result<f64, Refusal>
    ensures number { number_of result ≡ one_block_number_of state block.old (length slopes.old) (length record_joints.old) (length record_links.old) (length record_poses.old) }
    ensures value { answer_value result ≡ value_if (number_of result) (objective_value_of state strict block.old) }
    ensures block { block.new ≡ block.old }
    ensures slopes { FrontIfTaken (number_of result) slopes (gradient_slopes_of state strict block.old) }
    ensures record_written { FrontIfTaken (number_of result) record_joints (record_joints_of state)
        × FrontIfTaken (number_of result) record_links (record_links_of state)
        × FrontIfTaken (number_of result) record_poses (record_poses_of state block.old) }
{
    let sheet = stored_task::ready(&state)?;
    let mut task = [0.0; task::LENGTH];
    stored_task::lay_task(&state, &mut task);
    one_block_slopes::gradient_one_block(
        sheet.counts,
        sheet.codes,
        sheet.floats,
        &task,
        Picks { strict },
        block,
        slopes,
        record_joints,
        record_links,
        record_poses,
    )
}
