// The byte calls and the leaves, by their numbers, as a list of answers stores them. No call leaves a state.
ghost use Rattle.std.proofs.Common.{rules};
ghost use Rattle.replay_calls.specs.Table.{last_call, lists_of};
ghost use Rattle.replay.specs.Cases.{record_agrees};

use crate::cases;
use replay_calls::table;
use stored_answers::program::Calls;
use stored_answers::stored::Record;

// Kept: a call is its number, as the list stores it: the definitions, the table of lists and these names all go by it.
const NAMES: [&str; 51] = [
    "load",
    "set_goals",
    "pose",
    "manipulability",
    "update",
    "objective",
    "frames",
    "reset",
    "gradient",
    "gradient_finite_diff",
    "gradient_one_block",
    "sqrt",
    "sin",
    "cos",
    "exp",
    "atan2",
    "power20",
    "power30",
    "b20",
    "b30",
    "cut",
    "abs",
    "groove_loss",
    "swamp_groove_loss",
    "swamp_loss, power 20",
    "swamp_loss, power 30",
    "loss_position",
    "loss_rotation",
    "loss_limits",
    "norm",
    "segment_distance",
    "determinant",
    "quat_product",
    "quat_inverse",
    "get_quat_x",
    "get_quat_y",
    "get_quat_z",
    "rotate",
    "cross",
    "scaled_axis",
    "gram",
    "sizing",
    "set_weights",
    "set_tool",
    "acos",
    "from_quaternion",
    "quaternion_log",
    "quaternion_disp",
    "angle_between_quaternion",
    "loss_pos_goals",
    "loss_quat_goals",
];

pub struct ByteCalls;

impl Calls for ByteCalls {
    type State = ();

    ghost LAST = { last_call };

    const LAST: usize = table::LAST;

    const RECORDS: &'static str = "cases";

    ghost lists_of = { lists_of };

    ghost begun = { tt };

    ghost after_of = { λ state s at. tt };

    ghost agrees_of = { λ state s at. record_agrees s at };

    fn name(call: usize) -> &'static str {
        NAMES[call]
    }

    fn lists(call: usize) -> usize {
        table::lists(call)
    }

    fn begin() -> () {
        ()
    }

    fn after(state: (), _r: Record) -> () {
        state
    }

    fn agrees(_state: (), r: Record) -> bool {
        cases::agrees(r)
    }

    ghost few = { Prim.search rules };
}
