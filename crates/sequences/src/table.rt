// Which list of a record is which: the one table of list numbers, as specs/Table.antt has it.
ghost use Rattle.std.specs.Prelude.{◌≡◌, ◌≤◌};
ghost use Rattle.sequences.specs.Table.{lists_of};

// the calls are 0 to the last one
pub const LAST: usize = 14;
// how many they are
pub const CALLS: usize = LAST + 1;
// load
pub const SIZES: usize = 0;

pub const CODES: usize = SIZES + 1;

pub const FLOATS: usize = CODES + 1;

pub const LIMITS: usize = FLOATS + 1;
// set_goals
pub const GOALS: usize = 0;
// set_weights
pub const WEIGHTS: usize = 0;
// set_tool
pub const TOOL: usize = 0;

pub const CHAIN: usize = TOOL + 1;
// every other call but `kept`
pub const JOINTS: usize = 0;
// frames, pose and manipulability
pub const OUTPUTS: usize = JOINTS + 1;

pub const ROTATIONS: usize = OUTPUTS + 1;
// objective and its gradients
pub const PICK: usize = JOINTS + 1;

pub const VALUE: usize = PICK + 1;
// scratch, or the one block
pub const BLOCK: usize = VALUE + 1;

pub const SLOPES: usize = VALUE + 2;

pub const RECORD_JOINTS: usize = VALUE + 3;

pub const RECORD_LINKS: usize = VALUE + 4;

pub const RECORD_POSES: usize = VALUE + 5;
// what the state keeps
pub const KEPT_GOALS: usize = 0;

pub const KEPT_XOPT: usize = 1;

pub const KEPT_PREV: usize = 2;

pub const KEPT_PREV2: usize = 3;

pub const KEPT_PREV3: usize = 4;

pub const KEPT_POSES: usize = 5;

// How many lists a record of the step has.
pub fn lists(call: usize) -> usize
    ensures { (result ≡ lists_of call) × (result ≤ 8) }
{
    match call {
        0 => 0,
        1 => 4,
        2 => 1,
        3 => 1,
        4 => 1,
        5 => 3,
        6 => 2,
        7 => 2,
        8 => 3,
        9 => 5,
        10 => 5,
        11 => 8,
        12 => 6,
        13 => 1,
        _ => 2,
    }
}
