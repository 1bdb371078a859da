// The calls on an arm sheet, as little-endian bytes. The answer is the refusal's number, 0 where the call is accepted.
ghost use Rattle.std.specs.Prelude.{◌≡◌};
ghost use Rattle.lent_bytes.specs.Picks.{picks_from};
ghost use Rattle.lent_bytes.specs.SheetLists.{sizes_in, codes_in, link_floats_in, sheet_in, block_in, goals_in, history_in, room_of, number_room_of};
ghost use Rattle.lent_bytes.specs.ToolLists.{tool_floats_in, tools_in};
ghost use Rattle.arm_bytes.specs.ArmCalls.{load_number, sizing_number, plan_numbers, set_goals_number, set_tool_number, frames_number, pose_number, update_number, reset_number};
ghost use Rattle.arm_bytes.specs.ArmCalls.{manipulability_number, frame_positions, frame_rotations, end_poses, updated_blocks, reset_blocks};
ghost use Rattle.arm_bytes.specs.ArmCalls.{manipulability_value, output_of, numbers_output_of};

use crate::arm_lists;
use lent_bytes::sheet_lists::Sheet;
use lent_bytes::{picks, task_lists, tool_lists};
use refusals::refusal::number_of;

pub fn load(sizes: &[u8], codes: &[u8], floats: &[u8], limits: &[u8]) -> u32
    ensures { result ≡ load_number (sheet_in sizes codes floats limits) }
{
    let mut sheet = Sheet::empty();
    sheet.decode(sizes, codes, floats, limits);
    number_of(refusals::load::load_refusal(
        &sheet.sizes,
        &sheet.codes,
        &sheet.floats,
        &sheet.limits,
    )) as u32
}

// No limits are lent, so none are decoded.
pub fn sizing(sizes: &[u8], codes: &[u8], floats: &[u8], plan: &mut [u8], strict: u32) -> u32
    ensures number { result ≡ sizing_number (sizes_in sizes) (codes_in codes) (link_floats_in floats) (number_room_of plan) }
    ensures plan { plan.new ≡ numbers_output_of result plan (plan_numbers (picks_from strict) (sizes_in sizes) (codes_in codes)) }
{
    let mut sheet = Sheet::empty();
    sheet.decode(sizes, codes, floats, &floats[0..0]);
    let picks = picks::decode(strict);
    number_of(arm_lists::sizing(&sheet.sizes, &sheet.codes, &sheet.floats, picks, plan)) as u32
}

pub fn set_goals(sizes: &[u8], codes: &[u8], floats: &[u8], limits: &[u8], goals: &[u8]) -> u32
    ensures { result ≡ set_goals_number (sheet_in sizes codes floats limits) (goals_in goals) }
{
    let mut sheet = Sheet::empty();
    sheet.decode(sizes, codes, floats, limits);
    let goals = task_lists::goals(goals);
    number_of(arm_lists::set_goals(
        &sheet.sizes,
        &sheet.codes,
        &sheet.floats,
        &sheet.limits,
        &goals,
    )) as u32
}

// Looks at a tool for a chain of the sheet.
pub fn set_tool(
    sizes: &[u8],
    codes: &[u8],
    floats: &[u8],
    limits: &[u8],
    tool: &[u8],
    chain: u32,
) -> u32
    ensures { result ≡ set_tool_number (sheet_in sizes codes floats limits) (tool_floats_in tool) chain }
{
    let mut sheet = Sheet::empty();
    sheet.decode(sizes, codes, floats, limits);
    let tool = tool_lists::floats(tool);
    number_of(arm_lists::set_tool(
        &sheet.sizes,
        &sheet.codes,
        &sheet.floats,
        &sheet.limits,
        &tool,
        chain as usize,
    )) as u32
}

pub fn frames(
    sizes: &[u8],
    codes: &[u8],
    floats: &[u8],
    limits: &[u8],
    joints: &[u8],
    positions: &mut [u8],
    rotations: &mut [u8],
) -> u32
    ensures number { result ≡ frames_number (sheet_in sizes codes floats limits) (block_in joints) (room_of positions) (room_of rotations) }
    ensures positions { positions.new ≡ output_of result positions (frame_positions (sheet_in sizes codes floats limits) (block_in joints)) }
    ensures rotations { rotations.new ≡ output_of result rotations (frame_rotations (sheet_in sizes codes floats limits) (block_in joints)) }
{
    let mut sheet = Sheet::empty();
    sheet.decode(sizes, codes, floats, limits);
    let joints = task_lists::joints(joints);
    number_of(arm_lists::frames(
        &sheet.sizes,
        &sheet.codes,
        &sheet.floats,
        &sheet.limits,
        &joints,
        positions,
        rotations,
    )) as u32
}

pub fn pose(
    sizes: &[u8],
    codes: &[u8],
    floats: &[u8],
    limits: &[u8],
    tool0: &[u8],
    tool1: &[u8],
    tool2: &[u8],
    tool3: &[u8],
    joints: &[u8],
    ends: &mut [u8],
) -> u32
    ensures number { result ≡ pose_number (sheet_in sizes codes floats limits) (tools_in tool0 tool1 tool2 tool3) (block_in joints) (room_of ends) }
    ensures ends { ends.new ≡ output_of result ends (end_poses (sheet_in sizes codes floats limits) (tools_in tool0 tool1 tool2 tool3) (block_in joints)) }
{
    let mut sheet = Sheet::empty();
    sheet.decode(sizes, codes, floats, limits);
    let joints = task_lists::joints(joints);
    let tools = tool_lists::decode(tool0, tool1, tool2, tool3);
    number_of(arm_lists::pose(
        &sheet.sizes,
        &sheet.codes,
        &sheet.floats,
        &sheet.limits,
        &tools,
        &joints,
        ends,
    )) as u32
}

pub fn reset(
    sizes: &[u8],
    codes: &[u8],
    floats: &[u8],
    limits: &[u8],
    tool0: &[u8],
    tool1: &[u8],
    tool2: &[u8],
    tool3: &[u8],
    joints: &[u8],
    history: &mut [u8],
    ends: &mut [u8],
) -> u32
    ensures number { result ≡ reset_number (sheet_in sizes codes floats limits) (tools_in tool0 tool1 tool2 tool3) (block_in joints) (room_of history) (room_of ends) }
    ensures history { history.new ≡ output_of result history (reset_blocks (block_in joints)) }
    ensures ends { ends.new ≡ output_of result ends (end_poses (sheet_in sizes codes floats limits) (tools_in tool0 tool1 tool2 tool3) (block_in joints)) }
{
    let mut sheet = Sheet::empty();
    sheet.decode(sizes, codes, floats, limits);
    let joints = task_lists::joints(joints);
    let tools = tool_lists::decode(tool0, tool1, tool2, tool3);
    number_of(arm_lists::reset(
        &sheet.sizes,
        &sheet.codes,
        &sheet.floats,
        &sheet.limits,
        &tools,
        &joints,
        history,
        ends,
    )) as u32
}

pub fn update(
    sizes: &[u8],
    codes: &[u8],
    floats: &[u8],
    limits: &[u8],
    history: &[u8],
    joints: &[u8],
    new_history: &mut [u8],
) -> u32
    ensures number { result ≡ update_number (sheet_in sizes codes floats limits) (history_in history) (block_in joints) (room_of new_history) }
    ensures new_history { new_history.new ≡ output_of result new_history (updated_blocks (history_in history) (block_in joints)) }
{
    let mut sheet = Sheet::empty();
    sheet.decode(sizes, codes, floats, limits);
    let history = task_lists::history(history);
    let joints = task_lists::joints(joints);
    number_of(arm_lists::update(
        &sheet.sizes,
        &sheet.codes,
        &sheet.floats,
        &sheet.limits,
        &history,
        &joints,
        new_history,
    )) as u32
}

pub fn manipulability(
    sizes: &[u8],
    codes: &[u8],
    floats: &[u8],
    limits: &[u8],
    joints: &[u8],
    value: &mut [u8],
) -> u32
    ensures number { result ≡ manipulability_number (sheet_in sizes codes floats limits) (block_in joints) (room_of value) }
    ensures value { value.new ≡ output_of result value (manipulability_value (sheet_in sizes codes floats limits) (block_in joints)) }
{
    let mut sheet = Sheet::empty();
    sheet.decode(sizes, codes, floats, limits);
    let joints = task_lists::joints(joints);
    number_of(arm_lists::manipulability(
        &sheet.sizes,
        &sheet.codes,
        &sheet.floats,
        &sheet.limits,
        &joints,
        value,
    )) as u32
}
