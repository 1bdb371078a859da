// The byte calls on an arm sheet: each is asked what a record stores, and its answer is held against the stored one.
ghost use Rattle.std.specs.Prelude.{◌≡◌, ◌+◌};
ghost use Rattle.stored_answers.specs.Stored.{list_of};
ghost use Rattle.stored_answers.specs.Agree.{filled};
ghost use Rattle.replay_calls.specs.Table.{arm_outputs, pose_outputs, update_output, plan_output};
ghost use Rattle.replay_calls.specs.Arms.{load_agrees, set_goals_agrees, set_tool_agrees, frames_agree, pose_agrees, manipulability_agrees, reset_agrees, update_agrees, sizing_agrees};

use crate::{numbers, table};
use arm_bytes::arms;
use stored_answers::agree::agrees;
use stored_answers::stored::Record;

pub fn load(r: Record) -> bool
    ensures { result ≡ load_agrees r.entry.s.now r.entry.at }
{
    let number = arms::load(
        r.list(table::SIZES),
        r.list(table::CODES),
        r.list(table::FLOATS),
        r.list(table::LIMITS),
    );
    agrees(r, number, 0, &[])
}

pub fn set_goals(r: Record) -> bool
    ensures { result ≡ set_goals_agrees r.entry.s.now r.entry.at }
{
    let number = arms::set_goals(
        r.list(table::SIZES),
        r.list(table::CODES),
        r.list(table::FLOATS),
        r.list(table::LIMITS),
        r.list(table::GOALS),
    );
    agrees(r, number, 0, &[])
}

pub fn set_tool(r: Record) -> bool
    ensures { result ≡ set_tool_agrees r.entry.s.now r.entry.at }
{
    let chain = numbers::list_number(r, table::CHAIN);
    let number = arms::set_tool(
        r.list(table::SIZES),
        r.list(table::CODES),
        r.list(table::FLOATS),
        r.list(table::LIMITS),
        r.list(table::TOOL),
        chain,
    );
    agrees(r, number, 0, &[])
}

pub fn frames(r: Record, positions: &mut [u8], rotations: &mut [u8]) -> bool
    requires { (positions.old ≡ filled (list_of r.s.now r.at arm_outputs)) × (rotations.old ≡ filled (list_of r.s.now r.at (arm_outputs + 1))) }
    ensures { result ≡ frames_agree r.entry.s.now r.entry.at }
{
    let number = arms::frames(
        r.list(table::SIZES),
        r.list(table::CODES),
        r.list(table::FLOATS),
        r.list(table::LIMITS),
        r.list(table::ARM_JOINTS),
        positions,
        rotations,
    );
    agrees(r, number, table::ARM_OUTPUTS, &[positions, rotations])
}

pub fn pose(r: Record, ends: &mut [u8]) -> bool
    requires { ends.old ≡ filled (list_of r.s.now r.at pose_outputs) }
    ensures { result ≡ pose_agrees r.entry.s.now r.entry.at }
{
    let number = arms::pose(
        r.list(table::SIZES),
        r.list(table::CODES),
        r.list(table::FLOATS),
        r.list(table::LIMITS),
        r.list(table::ARM_TOOL0),
        r.list(table::ARM_TOOL1),
        r.list(table::ARM_TOOL2),
        r.list(table::ARM_TOOL3),
        r.list(table::POSE_JOINTS),
        ends,
    );
    agrees(r, number, table::POSE_OUTPUTS, &[ends])
}

pub fn manipulability(r: Record, value: &mut [u8]) -> bool
    requires { value.old ≡ filled (list_of r.s.now r.at arm_outputs) }
    ensures { result ≡ manipulability_agrees r.entry.s.now r.entry.at }
{
    let number = arms::manipulability(
        r.list(table::SIZES),
        r.list(table::CODES),
        r.list(table::FLOATS),
        r.list(table::LIMITS),
        r.list(table::ARM_JOINTS),
        value,
    );
    agrees(r, number, table::ARM_OUTPUTS, &[value])
}

pub fn reset(r: Record, history: &mut [u8], ends: &mut [u8]) -> bool
    requires { (history.old ≡ filled (list_of r.s.now r.at pose_outputs)) × (ends.old ≡ filled (list_of r.s.now r.at (pose_outputs + 1))) }
    ensures { result ≡ reset_agrees r.entry.s.now r.entry.at }
{
    let number = arms::reset(
        r.list(table::SIZES),
        r.list(table::CODES),
        r.list(table::FLOATS),
        r.list(table::LIMITS),
        r.list(table::ARM_TOOL0),
        r.list(table::ARM_TOOL1),
        r.list(table::ARM_TOOL2),
        r.list(table::ARM_TOOL3),
        r.list(table::POSE_JOINTS),
        history,
        ends,
    );
    agrees(r, number, table::POSE_OUTPUTS, &[history, ends])
}

pub fn update(r: Record, new_history: &mut [u8]) -> bool
    requires { new_history.old ≡ filled (list_of r.s.now r.at update_output) }
    ensures { result ≡ update_agrees r.entry.s.now r.entry.at }
{
    let number = arms::update(
        r.list(table::SIZES),
        r.list(table::CODES),
        r.list(table::FLOATS),
        r.list(table::LIMITS),
        r.list(table::UPDATE_HISTORY),
        r.list(table::UPDATE_JOINTS),
        new_history,
    );
    agrees(r, number, table::UPDATE_OUTPUT, &[new_history])
}

pub fn sizing(r: Record, plan: &mut [u8]) -> bool
    requires { plan.old ≡ filled (list_of r.s.now r.at plan_output) }
    ensures { result ≡ sizing_agrees r.entry.s.now r.entry.at }
{
    let strict = numbers::list_number(r, table::PLAN_PICK);
    let number = arms::sizing(
        r.list(table::SIZES),
        r.list(table::CODES),
        r.list(table::FLOATS),
        plan,
        strict,
    );
    agrees(r, number, table::PLAN_OUTPUT, &[plan])
}
