// A record's call is made, and its answer held against the stored one.
ghost use Rattle.std.specs.Prelude.{◌≡◌};
ghost use Rattle.replay.specs.Cases.{record_agrees};

use crate::{leaf_cases, strict_leaves};
use replay_calls::{arm_cases, objective_cases, outputs};
use stored_answers::stored::Record;

pub fn agrees(r: Record) -> bool
    ensures { result ≡ record_agrees r.entry.s.now r.entry.at }
{
    let call = r.call();
    match call {
        0 => arm_cases::load(r),
        1 => arm_cases::set_goals(r),
        2..=5 => outputs::one_output(call, r),
        6..=7 => outputs::two_outputs(call, r),
        8..=9 => outputs::three_outputs(call, r),
        10 => outputs::five_outputs(r),
        11..=40 => leaf_cases::leaf(r),
        41 => outputs::plan_output(r),
        42 => objective_cases::set_weights(r),
        43 => arm_cases::set_tool(r),
        _ => strict_leaves::leaf(r),
    }
}
