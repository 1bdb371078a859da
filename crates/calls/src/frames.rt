// frames and pose.
ghost use Rattle.std.specs.Prelude.{◌≡◌, ◌*◌, ◌≤◌, length};
ghost use Rattle.lists.specs.Splice.{splice};
ghost use Rattle.sheet.specs.Chain.{total};
ghost use Rattle.spacetime.specs.Walk.{pose_of};
ghost use Rattle.spacetime.specs.Frames.{positions_of, rotations_of, ends_of};
ghost use Rattle.refusals.specs.Number.{number_of};
ghost use Rattle.calls.specs.Arms.{Accepted, if_taken};
ghost use Rattle.calls.specs.Frames.{frames_refusal, pose_refusal};

use refusals::refusal::Refusal;
use refusals::{lengths, lent};
use spacetime::{arm, frames};

#[tactic(auto, unfolding(refusals::specs::Lowest::first_of, crate::specs::Frames::frames_refusal))]
fn frames_refusal(
    counts: &[u16],
    codes: &[u16],
    block: &[f64],
    positions: usize,
    rotations: usize,
) -> Result<(), Refusal>
    requires { (length counts.now ≤ 4) × (total counts.now ≤ 64) }
    ensures { number_of result ≡ frames_refusal counts.now codes.now block.now positions rotations }
{
    lent::block_refusal(codes, block)?;
    lent::room_refusal(lengths::positions_length(counts), positions)?;
    lent::room_refusal(lengths::rotations_length(counts), rotations)
}

#[tactic(auto, unfolding(crate::specs::Arms::if_taken))]
pub fn frames(
    counts: &[u16],
    codes: &[u16],
    floats: &[f64],
    block: &[f64],
    positions: &mut [f64],
    rotations: &mut [f64],
) -> Result<(), Refusal>
    requires { Accepted counts.now codes.now floats.now }
    ensures number { number_of result ≡ frames_refusal counts.now codes.now block.now (length positions.old) (length rotations.old) }
    ensures positions { positions.new ≡ if_taken (number_of result) positions.old (splice positions.old 0
        (positions_of counts.now (pose_of counts.now codes.now floats.now block.now))) }
    ensures rotations { rotations.new ≡ if_taken (number_of result) rotations.old (splice rotations.old 0
        (rotations_of counts.now (pose_of counts.now codes.now floats.now block.now))) }
{
    frames_refusal(counts, codes, block, positions.len(), rotations.len())?;
    let mut poses = [0.0; 448];
    arm::get_frames_immutable(counts, codes, floats, block, &mut poses);
    frames::put_positions(counts, &poses, positions);
    frames::put_rotations(counts, &poses, rotations);
    Ok(())
}

#[tactic(auto, unfolding(refusals::specs::Lowest::first_of, crate::specs::Frames::pose_refusal))]
fn pose_refusal(counts: &[u16], codes: &[u16], block: &[f64], room: usize) -> Result<(), Refusal>
    requires { length counts.now ≤ 4 }
    ensures { number_of result ≡ pose_refusal counts.now codes.now block.now room }
{
    lent::block_refusal(codes, block)?;
    lent::room_refusal(lengths::ends_length(counts), room)
}

// The end poses, each its chain's last frame followed by the chain's tool if it has one.
#[tactic(auto, unfolding(crate::specs::Arms::if_taken))]
pub fn pose(
    counts: &[u16],
    codes: &[u16],
    floats: &[f64],
    tools: &[f64],
    block: &[f64],
    ends: &mut [f64],
) -> Result<(), Refusal>
    requires { Accepted counts.now codes.now floats.now × (8 * length counts.now ≤ length tools.now) }
    ensures number { number_of result ≡ pose_refusal counts.now codes.now block.now (length ends.old) }
    ensures ends { ends.new ≡ if_taken (number_of result) ends.old (splice ends.old 0
        (ends_of counts.now tools.now (pose_of counts.now codes.now floats.now block.now))) }
{
    pose_refusal(counts, codes, block, ends.len())?;
    let mut poses = [0.0; 448];
    arm::get_frames_immutable(counts, codes, floats, block, &mut poses);
    frames::put_ends(counts, tools, &poses, ends);
    Ok(())
}
