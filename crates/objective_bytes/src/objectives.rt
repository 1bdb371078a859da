// The calls on the objective, as little-endian bytes. The answer is the refusal's number, 0 where the call is accepted.
ghost use Rattle.std.specs.Prelude.{◌≡◌};
ghost use Rattle.lent_bytes.specs.Picks.{picks_from};
ghost use Rattle.lent_bytes.specs.SheetLists.{sheet_in, block_in, room_of};
ghost use Rattle.lent_bytes.specs.ToolLists.{tools_in};
ghost use Rattle.arm_bytes.specs.ArmCalls.{output_of};
ghost use Rattle.objective_bytes.specs.ObjectiveCalls.{weights_in, task_in, set_weights_number, objective_number, slopes_number, objective_value, slopes_in, gradient_slopes, finite_diff_slopes};

use crate::{objective_lists, task_lists, weights as weights_list};
use gradient::slopes::Rule;
use lent_bytes::sheet_lists::Sheet;
use lent_bytes::{picks, task_lists as lent_task};
use refusals::refusal::number_of;

// No arms are asked for, so none are lent.
pub fn set_weights(weights: &[u8]) -> u32
    ensures { result ≡ set_weights_number (weights_in weights) }
{
    number_of(refusals::lent::weights_refusal(&weights_list::given(weights))) as u32
}

pub fn objective(
    sizes: &[u8],
    codes: &[u8],
    floats: &[u8],
    limits: &[u8],
    goals: &[u8],
    history: &[u8],
    weights: &[u8],
    tool0: &[u8],
    tool1: &[u8],
    tool2: &[u8],
    tool3: &[u8],
    joints: &[u8],
    value: &mut [u8],
    strict: u32,
) -> u32
    ensures number { result ≡ objective_number (sheet_in sizes codes floats limits) (task_in goals history weights (tools_in tool0 tool1 tool2 tool3)) (block_in joints) (room_of value) }
    ensures value { value.new ≡ output_of result value (objective_value (sheet_in sizes codes floats limits) (task_in goals history weights (tools_in tool0 tool1 tool2 tool3)) (picks_from strict) (block_in joints)) }
{
    let mut sheet = Sheet::empty();
    sheet.decode(sizes, codes, floats, limits);
    let task = task_lists::decode(goals, history, weights, tool0, tool1, tool2, tool3);
    let joints = lent_task::joints(joints);
    let picks = picks::decode(strict);
    number_of(objective_lists::objective(
        &sheet.sizes,
        &sheet.codes,
        &sheet.floats,
        &sheet.limits,
        &task.goals,
        &task.history,
        &task.weights,
        &task.tools,
        picks,
        &joints,
        value,
    )) as u32
}

// Value and slopes by either rule.
fn slopes_by(
    rule: Rule,
    sizes: &[u8],
    codes: &[u8],
    floats: &[u8],
    limits: &[u8],
    goals: &[u8],
    history: &[u8],
    weights: &[u8],
    tool0: &[u8],
    tool1: &[u8],
    tool2: &[u8],
    tool3: &[u8],
    joints: &[u8],
    scratch: &mut [u8],
    value: &mut [u8],
    slopes: &mut [u8],
    strict: u32,
) -> u32
    ensures number { result ≡ slopes_number (sheet_in sizes codes floats limits) (task_in goals history weights (tools_in tool0 tool1 tool2 tool3)) (block_in joints) (room_of scratch) (room_of value) (room_of slopes) }
    ensures scratch { scratch.new ≡ output_of result scratch (block_in joints) }
    ensures value { value.new ≡ output_of result value (objective_value (sheet_in sizes codes floats limits) (task_in goals history weights (tools_in tool0 tool1 tool2 tool3)) (picks_from strict) (block_in joints)) }
    ensures slopes { slopes.new ≡ output_of result slopes (slopes_in rule (sheet_in sizes codes floats limits) (task_in goals history weights (tools_in tool0 tool1 tool2 tool3)) (picks_from strict) (block_in joints)) }
{
    let mut sheet = Sheet::empty();
    sheet.decode(sizes, codes, floats, limits);
    let task = task_lists::decode(goals, history, weights, tool0, tool1, tool2, tool3);
    let joints = lent_task::joints(joints);
    let picks = picks::decode(strict);
    number_of(objective_lists::gradient(
        rule,
        &sheet.sizes,
        &sheet.codes,
        &sheet.floats,
        &sheet.limits,
        &task.goals,
        &task.history,
        &task.weights,
        &task.tools,
        picks,
        &joints,
        scratch,
        value,
        slopes,
    )) as u32
}

pub fn gradient(
    sizes: &[u8],
    codes: &[u8],
    floats: &[u8],
    limits: &[u8],
    goals: &[u8],
    history: &[u8],
    weights: &[u8],
    tool0: &[u8],
    tool1: &[u8],
    tool2: &[u8],
    tool3: &[u8],
    joints: &[u8],
    scratch: &mut [u8],
    value: &mut [u8],
    slopes: &mut [u8],
    strict: u32,
) -> u32
    ensures number { result ≡ slopes_number (sheet_in sizes codes floats limits) (task_in goals history weights (tools_in tool0 tool1 tool2 tool3)) (block_in joints) (room_of scratch) (room_of value) (room_of slopes) }
    ensures scratch { scratch.new ≡ output_of result scratch (block_in joints) }
    ensures value { value.new ≡ output_of result value (objective_value (sheet_in sizes codes floats limits) (task_in goals history weights (tools_in tool0 tool1 tool2 tool3)) (picks_from strict) (block_in joints)) }
    ensures slopes { slopes.new ≡ output_of result slopes (gradient_slopes (sheet_in sizes codes floats limits) (task_in goals history weights (tools_in tool0 tool1 tool2 tool3)) (picks_from strict) (block_in joints)) }
{
    slopes_by(
        Rule::EachLoss,
        sizes,
        codes,
        floats,
        limits,
        goals,
        history,
        weights,
        tool0,
        tool1,
        tool2,
        tool3,
        joints,
        scratch,
        value,
        slopes,
        strict,
    )
}

pub fn gradient_finite_diff(
    sizes: &[u8],
    codes: &[u8],
    floats: &[u8],
    limits: &[u8],
    goals: &[u8],
    history: &[u8],
    weights: &[u8],
    tool0: &[u8],
    tool1: &[u8],
    tool2: &[u8],
    tool3: &[u8],
    joints: &[u8],
    scratch: &mut [u8],
    value: &mut [u8],
    slopes: &mut [u8],
    strict: u32,
) -> u32
    ensures number { result ≡ slopes_number (sheet_in sizes codes floats limits) (task_in goals history weights (tools_in tool0 tool1 tool2 tool3)) (block_in joints) (room_of scratch) (room_of value) (room_of slopes) }
    ensures scratch { scratch.new ≡ output_of result scratch (block_in joints) }
    ensures value { value.new ≡ output_of result value (objective_value (sheet_in sizes codes floats limits) (task_in goals history weights (tools_in tool0 tool1 tool2 tool3)) (picks_from strict) (block_in joints)) }
    ensures slopes { slopes.new ≡ output_of result slopes (finite_diff_slopes (sheet_in sizes codes floats limits) (task_in goals history weights (tools_in tool0 tool1 tool2 tool3)) (picks_from strict) (block_in joints)) }
{
    slopes_by(
        Rule::WeightedSum,
        sizes,
        codes,
        floats,
        limits,
        goals,
        history,
        weights,
        tool0,
        tool1,
        tool2,
        tool3,
        joints,
        scratch,
        value,
        slopes,
        strict,
    )
}
