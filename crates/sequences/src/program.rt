// The calls on the state, by their numbers, as a list of sequences stores them.
ghost use Rattle.std.proofs.Common.{rules};
ghost use Rattle.state_calls.specs.State.{empty_state};
ghost use Rattle.sequences.specs.Table.{last_call, lists_of};
ghost use Rattle.sequences.specs.Asked.{step_agrees};
ghost use Rattle.sequences.specs.Steps.{after_of};

use crate::{steps, table};
use state_calls::state;
use state_calls::state::State;
use stored_answers::program::Calls;
use stored_answers::stored::Record;

// Kept: a call is its number, as the list stores it: the definitions, the table of lists and these names all go by it.
const NAMES: [&str; 15] = [
    "empty",
    "load",
    "set_goals",
    "reset",
    "update",
    "frames",
    "pose",
    "manipulability",
    "objective",
    "gradient",
    "gradient_finite_diff",
    "gradient_one_block",
    "kept",
    "set_weights",
    "set_tool",
];

pub struct StateCalls;

impl Calls for StateCalls {
    type State = State;

    ghost LAST = { last_call };

    const LAST: usize = table::LAST;

    const RECORDS: &'static str = "steps";

    ghost lists_of = { lists_of };

    ghost begun = { empty_state };

    ghost after_of = { after_of };

    ghost agrees_of = { step_agrees };

    fn name(call: usize) -> &'static str {
        NAMES[call]
    }

    fn lists(call: usize) -> usize {
        table::lists(call)
    }

    fn begin() -> State {
        state::empty()
    }

    fn after(state: State, r: Record) -> State {
        steps::after(state, r)
    }

    fn agrees(state: State, r: Record) -> bool {
        steps::agrees(state, r)
    }

    ghost few = { Prim.search rules };
}
