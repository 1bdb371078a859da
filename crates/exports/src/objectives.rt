// The calls on the objective, as little-endian bytes. The answer is the refusal's number, 0 where the call is accepted. `strict` other than 0 picks
// the list of objectives without tolerance.
ghost use Rattle.std.specs.Prelude.{◌≡◌};
ghost use Rattle.lent_bytes.specs.Picks.{picks_from};
ghost use Rattle.lent_bytes.specs.SheetLists.{sheet_in, block_in, room_of};
ghost use Rattle.lent_bytes.specs.ToolLists.{tools_in};
ghost use Rattle.arm_bytes.specs.ArmCalls.{output_of};
ghost use Rattle.objective_bytes.specs.ObjectiveCalls.{weights_in, task_in, set_weights_number, objective_number, slopes_number, objective_value, gradient_slopes, finite_diff_slopes};

use objective_bytes::objectives;

// Eight floats, each within 0..1000; no arms are asked for.
#[unsafe(no_mangle)]
pub extern "C" fn relaxed_ik_set_weights(weights: &[u8]) -> u32
    ensures { result ≡ set_weights_number (weights_in weights) }
{
    objectives::set_weights(weights)
}

// The tools are by chain, from chain 0 on; weights and tools without a byte are none.
#[unsafe(no_mangle)]
pub extern "C" fn relaxed_ik_objective(
    sizes: &[u8],
    codes: &[u8],
    floats: &[u8],
    limits: &[u8],
    goals: &[u8],
    history: &[u8],
    weights: &[u8],
    tool0: &[u8],
    tool1: &[u8],
    tool2: &[u8],
    tool3: &[u8],
    joints: &[u8],
    value: &mut [u8],
    strict: u32,
) -> u32
    ensures number { result ≡ objective_number (sheet_in sizes codes floats limits) (task_in goals history weights (tools_in tool0 tool1 tool2 tool3)) (block_in joints) (room_of value) }
    ensures value { value.new ≡ output_of result value (objective_value (sheet_in sizes codes floats limits) (task_in goals history weights (tools_in tool0 tool1 tool2 tool3)) (picks_from strict) (block_in joints)) }
{
    objectives::objective(
        sizes, codes, floats, limits, goals, history, weights, tool0, tool1, tool2, tool3, joints,
        value, strict,
    )
}

// The joints are read; scratch gets them. The slopes are those by a step of 1e-7.
#[unsafe(no_mangle)]
pub extern "C" fn relaxed_ik_gradient(
    sizes: &[u8],
    codes: &[u8],
    floats: &[u8],
    limits: &[u8],
    goals: &[u8],
    history: &[u8],
    weights: &[u8],
    tool0: &[u8],
    tool1: &[u8],
    tool2: &[u8],
    tool3: &[u8],
    joints: &[u8],
    scratch: &mut [u8],
    value: &mut [u8],
    slopes: &mut [u8],
    strict: u32,
) -> u32
    ensures number { result ≡ slopes_number (sheet_in sizes codes floats limits) (task_in goals history weights (tools_in tool0 tool1 tool2 tool3)) (block_in joints) (room_of scratch) (room_of value) (room_of slopes) }
    ensures scratch { scratch.new ≡ output_of result scratch (block_in joints) }
    ensures value { value.new ≡ output_of result value (objective_value (sheet_in sizes codes floats limits) (task_in goals history weights (tools_in tool0 tool1 tool2 tool3)) (picks_from strict) (block_in joints)) }
    ensures slopes { slopes.new ≡ output_of result slopes (gradient_slopes (sheet_in sizes codes floats limits) (task_in goals history weights (tools_in tool0 tool1 tool2 tool3)) (picks_from strict) (block_in joints)) }
{
    objectives::gradient(
        sizes, codes, floats, limits, goals, history, weights, tool0, tool1, tool2, tool3, joints,
        scratch, value, slopes, strict,
    )
}

// The joints are read; scratch gets them. The slopes are those by a step of 1e-6.
#[unsafe(no_mangle)]
pub extern "C" fn relaxed_ik_gradient_finite_diff(
    sizes: &[u8],
    codes: &[u8],
    floats: &[u8],
    limits: &[u8],
    goals: &[u8],
    history: &[u8],
    weights: &[u8],
    tool0: &[u8],
    tool1: &[u8],
    tool2: &[u8],
    tool3: &[u8],
    joints: &[u8],
    scratch: &mut [u8],
    value: &mut [u8],
    slopes: &mut [u8],
    strict: u32,
) -> u32
    ensures number { result ≡ slopes_number (sheet_in sizes codes floats limits) (task_in goals history weights (tools_in tool0 tool1 tool2 tool3)) (block_in joints) (room_of scratch) (room_of value) (room_of slopes) }
    ensures scratch { scratch.new ≡ output_of result scratch (block_in joints) }
    ensures value { value.new ≡ output_of result value (objective_value (sheet_in sizes codes floats limits) (task_in goals history weights (tools_in tool0 tool1 tool2 tool3)) (picks_from strict) (block_in joints)) }
    ensures slopes { slopes.new ≡ output_of result slopes (finite_diff_slopes (sheet_in sizes codes floats limits) (task_in goals history weights (tools_in tool0 tool1 tool2 tool3)) (picks_from strict) (block_in joints)) }
{
    objectives::gradient_finite_diff(
        sizes, codes, floats, limits, goals, history, weights, tool0, tool1, tool2, tool3, joints,
        scratch, value, slopes, strict,
    )
}
