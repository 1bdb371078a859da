// Calls that ask the arms alone: 20 where there are none, before the call's own numbers.
ghost use Rattle.std.specs.Prelude.{◌≡◌, length};
ghost use Rattle.lists.specs.Splice.{splice};
ghost use Rattle.refusals.specs.Number.{number_of};
ghost use Rattle.spacetime.specs.Frames.{positions_of, rotations_of, ends_of};
ghost use Rattle.calls.specs.Arms.{if_taken};
ghost use Rattle.calls.specs.Answer.{value_if, answer_value};
ghost use Rattle.state_calls.specs.State.{links_used};
ghost use Rattle.state_calls.specs.Arms.{poses_of, frames_number_of, pose_number_of, manipulability_number_of, manipulability_value_of};

use crate::state;
use crate::state::State;
use calls::{frames, measure};
use refusals::refusal::Refusal;

// The frames after each link: positions by 3 and rotations by 4, chain after chain.
#[tactic(auto, using(crate::specs::StoredSheet::in_use), unfolding(crate::specs::StoredSheet::if_arms, crate::specs::StoredSheet::frames_stored, crate::specs::StoredSheet::stored_pose, calls::specs::Arms::if_taken))]
pub fn frames(
    state: State,
    joints: &[f64],
    positions: &mut [f64],
    rotations: &mut [f64],
) -> Result<(), Refusal>
    ensures number { number_of result ≡ frames_number_of state joints.now (length positions.old) (length rotations.old) }
    ensures positions { positions.new ≡ if_taken (number_of result) positions.old (splice positions.old 0
        (positions_of (links_used state.arms.sizes) (poses_of state joints.now))) }
    ensures rotations { rotations.new ≡ if_taken (number_of result) rotations.old (splice rotations.old 0
        (rotations_of (links_used state.arms.sizes) (poses_of state joints.now))) }
{
    let sheet = state::in_use(&state.arms)?;
    frames::frames(
        sheet.counts,
        sheet.codes,
        sheet.floats,
        joints,
        positions,
        rotations,
    )
}

// The end pose of each chain, its tool included: position and rotation, seven floats.
#[tactic(auto, using(crate::specs::StoredSheet::in_use), unfolding(crate::specs::StoredSheet::if_arms, crate::specs::StoredSheet::pose_stored, crate::specs::StoredSheet::stored_pose, calls::specs::Arms::if_taken))]
pub fn pose(state: State, joints: &[f64], ends: &mut [f64]) -> Result<(), Refusal>
    ensures number { number_of result ≡ pose_number_of state joints.now (length ends.old) }
    ensures ends { ends.new ≡ if_taken (number_of result) ends.old (splice ends.old 0
        (ends_of (links_used state.arms.sizes) state.arms.tools (poses_of state joints.now))) }
{
    let sheet = state::in_use(&state.arms)?;
    frames::pose(
        sheet.counts,
        sheet.codes,
        sheet.floats,
        &state.arms.tools,
        joints,
        ends,
    )
}

// The arm's manipulability, summed over its chains.
#[tactic(auto, using(crate::specs::StoredSheet::in_use), unfolding(crate::specs::StoredSheet::if_arms, crate::specs::StoredSheet::block_stored, crate::specs::StoredSheet::manipulability_stored, crate::specs::StoredSheet::stored_pose, calls::specs::Answer::value_if))]
pub fn manipulability(state: State, joints: &[f64]) -> Result<f64, Refusal>
    ensures number { number_of result ≡ manipulability_number_of state joints.now }
    ensures value { answer_value result ≡ value_if (number_of result) (manipulability_value_of state joints.now) }
{
    let sheet = state::in_use(&state.arms)?;
    measure::manipulability(sheet.counts, sheet.codes, sheet.floats, joints)
}
