// The gradient on one block, as little-endian bytes. The answer is the refusal's number, 0 where the call is accepted.
ghost use Rattle.std.specs.Prelude.{◌≡◌};
ghost use Rattle.lent_bytes.specs.Picks.{picks_from};
ghost use Rattle.lent_bytes.specs.SheetLists.{sheet_in, block_in, room_of, number_room_of};
ghost use Rattle.lent_bytes.specs.ToolLists.{tools_in};
ghost use Rattle.arm_bytes.specs.ArmCalls.{output_of};
ghost use Rattle.objective_bytes.specs.ObjectiveCalls.{task_in, objective_value, gradient_slopes};
ghost use Rattle.one_block_bytes.specs.OneBlockCalls.{one_block_number, RecordWritten};

use crate::one_block_lists;
use lent_bytes::sheet_lists::Sheet;
use lent_bytes::{lent, picks};
use objective_bytes::task_lists;
use refusals::refusal::number_of;

// The joints are decoded once, into the block that is raised; their bytes are only read.
pub fn gradient_one_block(
    sizes: &[u8],
    codes: &[u8],
    floats: &[u8],
    limits: &[u8],
    goals: &[u8],
    history: &[u8],
    weights: &[u8],
    tool0: &[u8],
    tool1: &[u8],
    tool2: &[u8],
    tool3: &[u8],
    joints: &[u8],
    value: &mut [u8],
    slopes: &mut [u8],
    record_joints: &mut [u8],
    record_links: &mut [u8],
    record_poses: &mut [u8],
    strict: u32,
) -> u32
    ensures number { result ≡ one_block_number (sheet_in sizes codes floats limits) (task_in goals history weights (tools_in tool0 tool1 tool2 tool3)) (block_in joints)
        (room_of value) (room_of slopes) (number_room_of record_joints) (number_room_of record_links) (room_of record_poses) }
    ensures value { value.new ≡ output_of result value (objective_value (sheet_in sizes codes floats limits) (task_in goals history weights (tools_in tool0 tool1 tool2 tool3)) (picks_from strict) (block_in joints)) }
    ensures slopes { slopes.new ≡ output_of result slopes (gradient_slopes (sheet_in sizes codes floats limits) (task_in goals history weights (tools_in tool0 tool1 tool2 tool3)) (picks_from strict) (block_in joints)) }
    ensures record_written { RecordWritten result (sheet_in sizes codes floats limits) (block_in joints) record_joints record_links record_poses }
{
    let mut sheet = Sheet::empty();
    sheet.decode(sizes, codes, floats, limits);
    let task = task_lists::decode(goals, history, weights, tool0, tool1, tool2, tool3);
    let mut x = [0.0; 16];
    let nx = lent::decode(joints, &mut x);
    let picks = picks::decode(strict);
    number_of(one_block_lists::gradient_one_block(
        &sheet.sizes,
        &sheet.codes,
        &sheet.floats,
        &sheet.limits,
        &task.goals,
        &task.history,
        &task.weights,
        &task.tools,
        picks,
        &mut x[..nx],
        value,
        slopes,
        record_joints,
        record_links,
        record_poses,
    )) as u32
}
