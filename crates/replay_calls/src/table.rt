// Which list of a record is which: the one table of list numbers, as specs/Table.antt has it.
ghost use Rattle.std.specs.Prelude.{◌≡◌, ◌≤◌};
ghost use Rattle.replay_calls.specs.Table.{outputs_from, outputs_of, lists_of};

// the calls are 0 to the last one
pub const LAST: usize = 50;

pub const CALLS: usize = LAST + 1;
// every byte call but set_weights: the sheet, sizing without its limits
pub const SIZES: usize = 0;

pub const CODES: usize = SIZES + 1;

pub const FLOATS: usize = CODES + 1;

pub const LIMITS: usize = FLOATS + 1;

pub const LOAD_END: usize = LIMITS + 1;
// set_goals and the calls on the objective
pub const GOALS: usize = LIMITS + 1;

pub const GOALS_END: usize = GOALS + 1;
// the calls on the objective
pub const HISTORY: usize = GOALS + 1;

pub const WEIGHTS: usize = HISTORY + 1;

pub const TOOL0: usize = WEIGHTS + 1;

pub const TOOL1: usize = TOOL0 + 1;

pub const TOOL2: usize = TOOL0 + 2;

pub const TOOL3: usize = TOOL0 + 3;

pub const JOINTS: usize = TOOL0 + 4;

pub const PICK: usize = JOINTS + 1;

pub const OBJECTIVE_OUTPUTS: usize = PICK + 1;

pub const OBJECTIVE_SECOND: usize = OBJECTIVE_OUTPUTS + 1;

pub const OBJECTIVE_THIRD: usize = OBJECTIVE_OUTPUTS + 2;

pub const OBJECTIVE_FOURTH: usize = OBJECTIVE_OUTPUTS + 3;

pub const OBJECTIVE_FIFTH: usize = OBJECTIVE_OUTPUTS + 4;
// update
pub const UPDATE_HISTORY: usize = LIMITS + 1;

pub const UPDATE_JOINTS: usize = UPDATE_HISTORY + 1;

pub const UPDATE_OUTPUT: usize = UPDATE_JOINTS + 1;
// pose, reset
pub const ARM_TOOL0: usize = LIMITS + 1;

pub const ARM_TOOL1: usize = ARM_TOOL0 + 1;

pub const ARM_TOOL2: usize = ARM_TOOL0 + 2;

pub const ARM_TOOL3: usize = ARM_TOOL0 + 3;

pub const POSE_JOINTS: usize = ARM_TOOL0 + 4;

pub const POSE_OUTPUTS: usize = POSE_JOINTS + 1;
// manipulability, frames
pub const ARM_JOINTS: usize = LIMITS + 1;

pub const ARM_OUTPUTS: usize = ARM_JOINTS + 1;
// sizing
pub const PLAN_PICK: usize = FLOATS + 1;

pub const PLAN_OUTPUT: usize = PLAN_PICK + 1;
// set_weights
pub const SET_WEIGHTS: usize = 0;

pub const SET_WEIGHTS_END: usize = SET_WEIGHTS + 1;
// set_tool
pub const TOOL: usize = LIMITS + 1;

pub const CHAIN: usize = TOOL + 1;

pub const SET_TOOL_END: usize = CHAIN + 1;
// a leaf
pub const ASKED: usize = 0;

pub const ANSWERED: usize = ASKED + 1;

// The first output of a call.
pub fn outputs_from(call: usize) -> usize
    ensures { (result ≡ outputs_from call) × (result ≤ 13) }
{
    match call {
        0 => LOAD_END,
        1 => GOALS_END,
        2 => POSE_OUTPUTS,
        3 => ARM_OUTPUTS,
        4 => UPDATE_OUTPUT,
        5 => OBJECTIVE_OUTPUTS,
        6 => ARM_OUTPUTS,
        7 => POSE_OUTPUTS,
        8 => OBJECTIVE_OUTPUTS,
        9 => OBJECTIVE_OUTPUTS,
        10 => OBJECTIVE_OUTPUTS,
        41 => PLAN_OUTPUT,
        42 => SET_WEIGHTS_END,
        43 => SET_TOOL_END,
        _ => ANSWERED,
    }
}

// How many outputs it has.
fn outputs(call: usize) -> usize
    ensures { (result ≡ outputs_of call) × (result ≤ 5) }
{
    match call {
        0..=1 => 0,
        2..=5 => 1,
        6..=7 => 2,
        8..=9 => 3,
        10 => 5,
        11..=41 => 1,
        42..=43 => 0,
        _ => 1,
    }
}

// How many lists a record of the call has.
pub fn lists(call: usize) -> usize
    ensures { (result ≡ lists_of call) × (result ≤ 18) }
{
    outputs_from(call) + outputs(call)
}
