// What the byte calls on an arm sheet do once their lists are decoded; outputs are bytes.
ghost use Rattle.std.specs.Prelude.{◌≡◌, ◌*◌, ◌≤◌, length};
ghost use Rattle.lists.specs.Splice.{splice};
ghost use Rattle.lent_bytes.specs.Lent.{room_in, bytes_of};
ghost use Rattle.refusals.specs.Lengths.{plan_length};
ghost use Rattle.refusals.specs.Number.{number_of};
ghost use Rattle.refusals.specs.Lowest.{first_of};
ghost use Rattle.refusals.specs.Refusal.{block_refusal, room_refusal};
ghost use Rattle.lent_bytes.specs.SheetLists.{sheet_of, room_of, number_room_of};
ghost use Rattle.sizing.specs.Sizing.{plan_list, Small};
ghost use Rattle.arm_bytes.specs.ArmCalls.{sizing_number, set_goals_number, set_tool_number, frames_number, pose_number, update_number, reset_number, manipulability_number};
ghost use Rattle.arm_bytes.specs.ArmCalls.{plan_numbers, frame_positions, frame_rotations, end_poses, updated_blocks, reset_blocks, manipulability_value, output_of, numbers_output_of};

use crate::tools;
use calls::{frames, measure};
use lent_bytes::lent as bytes_lent;
use refusals::refusal::Refusal;
use refusals::{lengths, lent, load, shape};
use sizing::plan::Plan;
use task::picks::Picks;

// The bytes of a plan, its four numbers as u16s, where there is room.
#[tactic(auto, unfolding(refusals::specs::Lowest::first_of, calls::specs::Arms::if_taken))]
fn put_plan(p: Plan, out: &mut [u8]) -> Result<(), Refusal>
    requires { Small p }
    ensures number { number_of result ≡ room_refusal plan_length (number_room_of out) }
    ensures out { out.new ≡ numbers_output_of (number_of result) out (plan_list p) }
{
    lent::room_refusal(4, bytes_lent::number_room(out.len()))?;
    let numbers = [
        p.positions as u16,
        p.rotations as u16,
        p.objectives as u16,
        p.entries as u16,
    ];
    bytes_lent::put_numbers(&numbers, 0, out);
    Ok(())
}

#[tactic(auto, unfolding(refusals::specs::Lowest::first_of, calls::specs::Arms::if_taken, crate::specs::ArmCalls::sizing_number, crate::specs::ArmCalls::plan_numbers))]
pub fn sizing(
    sizes: &[u16],
    codes: &[u16],
    floats: &[f64],
    picks: Picks,
    plan: &mut [u8],
) -> Result<(), Refusal>
    ensures number { number_of result ≡ sizing_number sizes.now codes.now floats.now (number_room_of plan) }
    ensures plan { plan.new ≡ numbers_output_of (number_of result) plan (plan_numbers picks sizes.now codes.now) }
{
    let p = sizing::sizing::sizing(sizes, codes, floats, picks)?;
    put_plan(p, plan)
}

#[tactic(auto, using(crate::specs::ArmLaws::sheets), unfolding(refusals::specs::Lowest::first_of, calls::specs::Arms::if_taken, crate::specs::ArmCalls::set_goals_number))]
pub fn set_goals(
    sizes: &[u16],
    codes: &[u16],
    floats: &[f64],
    limits: &[f64],
    goals: &[f64],
) -> Result<(), Refusal>
    ensures { number_of result ≡ set_goals_number (sheet_of sizes codes floats limits) goals.now }
{
    load::load_refusal(sizes, codes, floats, limits)?;
    lent::goals_refusal(sizes[0] as usize, goals)
}

#[tactic(auto, using(crate::specs::ArmLaws::sheets), unfolding(refusals::specs::Lowest::first_of, calls::specs::Arms::if_taken, crate::specs::ArmCalls::set_tool_number))]
pub fn set_tool(
    sizes: &[u16],
    codes: &[u16],
    floats: &[f64],
    limits: &[f64],
    tool: &[f64],
    chain: usize,
) -> Result<(), Refusal>
    ensures { number_of result ≡ set_tool_number (sheet_of sizes codes floats limits) tool.now chain }
{
    load::load_refusal(sizes, codes, floats, limits)?;
    refusals::tools::tool_refusal(sizes[0] as usize, chain, tool)
}

// The walk goes into lists with room for every sheet, so that only the block can be refused there; then the outputs' rooms are seen to.
#[tactic(auto, using(crate::specs::ArmLaws::walks), unfolding(refusals::specs::Lowest::first_of, calls::specs::Arms::if_taken, calls::specs::Frames::frames_refusal, crate::specs::ArmCalls::frames_number))]
pub fn frames(
    sizes: &[u16],
    codes: &[u16],
    floats: &[f64],
    limits: &[f64],
    joints: &[f64],
    positions: &mut [u8],
    rotations: &mut [u8],
) -> Result<(), Refusal>
    ensures number { number_of result ≡ frames_number (sheet_of sizes codes floats limits) joints.now (room_of positions) (room_of rotations) }
    ensures positions { positions.new ≡ output_of (number_of result) positions (frame_positions (sheet_of sizes codes floats limits) joints.now) }
    ensures rotations { rotations.new ≡ output_of (number_of result) rotations (frame_rotations (sheet_of sizes codes floats limits) joints.now) }
{
    load::load_refusal(sizes, codes, floats, limits)?;
    let counts = shape::links(sizes);
    let mut p = [0.0; 204];
    let mut q = [0.0; 288];
    frames::frames(counts, codes, floats, joints, &mut p, &mut q)?;
    let np = lengths::positions_length(counts);
    let nq = lengths::rotations_length(counts);
    lent::room_refusal(np, bytes_lent::room(positions.len()))?;
    lent::room_refusal(nq, bytes_lent::room(rotations.len()))?;
    bytes_lent::put_floats(&p[..np], 0, positions);
    bytes_lent::put_floats(&q[..nq], 0, rotations);
    Ok(())
}

#[tactic(auto, using(crate::specs::ArmLaws::walks), unfolding(refusals::specs::Lowest::first_of, calls::specs::Arms::if_taken, calls::specs::Frames::pose_refusal, crate::specs::ArmCalls::pose_number))]
pub fn pose(
    sizes: &[u16],
    codes: &[u16],
    floats: &[f64],
    limits: &[f64],
    tools: &[f64; 32],
    joints: &[f64],
    ends: &mut [u8],
) -> Result<(), Refusal>
    ensures number { number_of result ≡ pose_number (sheet_of sizes codes floats limits) tools.now joints.now (room_of ends) }
    ensures ends { ends.new ≡ output_of (number_of result) ends (end_poses (sheet_of sizes codes floats limits) tools.now joints.now) }
{
    load::load_refusal(sizes, codes, floats, limits)?;
    let counts = shape::links(sizes);
    let mut p = [0.0; 28];
    frames::pose(counts, codes, floats, tools, joints, &mut p)?;
    let np = lengths::ends_length(counts);
    lent::room_refusal(np, bytes_lent::room(ends.len()))?;
    tools::tools_refusal(sizes, tools)?;
    bytes_lent::put_floats(&p[..np], 0, ends);
    Ok(())
}

// The old history is lent as four blocks, the current first, and so is the new one written.
#[tactic(auto, using(crate::specs::ArmLaws::updates), unfolding(refusals::specs::Lowest::first_of, calls::specs::Arms::if_taken, crate::specs::ArmCalls::update_number))]
pub fn update(
    sizes: &[u16],
    codes: &[u16],
    floats: &[f64],
    limits: &[f64],
    history: &[f64],
    joints: &[f64],
    out: &mut [u8],
) -> Result<(), Refusal>
    ensures number { number_of result ≡ update_number (sheet_of sizes codes floats limits) history.now joints.now (room_of out) }
    ensures new_history { out.new ≡ output_of (number_of result) out (updated_blocks history.now joints.now) }
{
    load::load_refusal(sizes, codes, floats, limits)?;
    lent::block_refusal(codes, joints)?;
    lent::history_refusal(codes, history)?;
    lent::room_refusal(lengths::history_length(codes), bytes_lent::room(out.len()))?;
    let n = joints.len();
    let kept = 3 * n;
    bytes_lent::put_floats(joints, 0, out);
    bytes_lent::put_floats(&history[..kept], 8 * n, out);
    Ok(())
}

// The bytes of a block four times over.
fn put_four(x: &[f64], out: &mut [u8])
    requires { 8 * (4 * length x.now) ≤ length out.old }
    ensures { out.new ≡ splice out.old 0 (bytes_of (reset_blocks x.now)) }
{
    let size = 8 * x.len();
    bytes_lent::put_floats(x, 0, out);
    bytes_lent::put_floats(x, size, out);
    bytes_lent::put_floats(x, 2 * size, out);
    bytes_lent::put_floats(x, 3 * size, out);
}

// The history is written as four blocks, all equal to the joints.
#[tactic(auto, using(crate::specs::ArmLaws::walks), unfolding(refusals::specs::Lowest::first_of, calls::specs::Arms::if_taken, calls::specs::Frames::pose_refusal, crate::specs::ArmCalls::reset_number))]
pub fn reset(
    sizes: &[u16],
    codes: &[u16],
    floats: &[f64],
    limits: &[f64],
    tools: &[f64; 32],
    joints: &[f64],
    history: &mut [u8],
    ends: &mut [u8],
) -> Result<(), Refusal>
    ensures number { number_of result ≡ reset_number (sheet_of sizes codes floats limits) tools.now joints.now (room_of history) (room_of ends) }
    ensures history { history.new ≡ output_of (number_of result) history (reset_blocks joints.now) }
    ensures ends { ends.new ≡ output_of (number_of result) ends (end_poses (sheet_of sizes codes floats limits) tools.now joints.now) }
{
    load::load_refusal(sizes, codes, floats, limits)?;
    let counts = shape::links(sizes);
    let mut p = [0.0; 28];
    frames::pose(counts, codes, floats, tools, joints, &mut p)?;
    let np = lengths::ends_length(counts);
    lent::room_refusal(np, bytes_lent::room(ends.len()))?;
    lent::room_refusal(
        lengths::history_length(codes),
        bytes_lent::room(history.len()),
    )?;
    tools::tools_refusal(sizes, tools)?;
    put_four(joints, history);
    bytes_lent::put_floats(&p[..np], 0, ends);
    Ok(())
}

// What the call of one float asks before its work, so that a refused call does none: the block, then the output's room.
#[tactic(auto, unfolding(refusals::specs::Lowest::first_of))]
fn value_refusal(codes: &[u16], block: &[f64], value: usize) -> Result<(), Refusal>
    ensures { number_of result ≡ first_of (block_refusal codes.now block.now) (room_refusal 1 (room_in value)) }
{
    lent::block_refusal(codes, block)?;
    lent::room_refusal(1, bytes_lent::room(value))
}

// The answer is one float.
#[tactic(auto, using(crate::specs::ArmLaws::sheets), unfolding(refusals::specs::Lowest::first_of, calls::specs::Arms::if_taken, crate::specs::ArmCalls::manipulability_number))]
pub fn manipulability(
    sizes: &[u16],
    codes: &[u16],
    floats: &[f64],
    limits: &[f64],
    joints: &[f64],
    value: &mut [u8],
) -> Result<(), Refusal>
    ensures number { number_of result ≡ manipulability_number (sheet_of sizes codes floats limits) joints.now (room_of value) }
    ensures value { value.new ≡ output_of (number_of result) value (manipulability_value (sheet_of sizes codes floats limits) joints.now) }
{
    load::load_refusal(sizes, codes, floats, limits)?;
    let counts = shape::links(sizes);
    value_refusal(codes, joints, value.len())?;
    let v = measure::manipulability(counts, codes, floats, joints)?;
    bytes_lent::put_floats(&[v], 0, value);
    Ok(())
}
