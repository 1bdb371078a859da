// The byte calls on the objective, as those on an arm sheet.
ghost use Rattle.std.specs.Prelude.{◌≡◌, ◌+◌};
ghost use Rattle.stored_answers.specs.Stored.{list_of};
ghost use Rattle.stored_answers.specs.Agree.{filled};
ghost use Rattle.replay_calls.specs.Table.{objective_outputs};
ghost use Rattle.replay_calls.specs.Objectives.{set_weights_agrees, objective_agrees, gradient_agrees, finite_diff_agrees, one_block_agrees};

use crate::{numbers, table};
use objective_bytes::objectives;
use stored_answers::agree::agrees;
use stored_answers::stored::Record;

pub fn set_weights(r: Record) -> bool
    ensures { result ≡ set_weights_agrees r.entry.s.now r.entry.at }
{
    let number = objectives::set_weights(r.list(table::SET_WEIGHTS));
    agrees(r, number, 0, &[])
}

pub fn objective(r: Record, value: &mut [u8]) -> bool
    requires { value.old ≡ filled (list_of r.s.now r.at objective_outputs) }
    ensures { result ≡ objective_agrees r.entry.s.now r.entry.at }
{
    let strict = numbers::list_number(r, table::PICK);
    let number = objectives::objective(
        r.list(table::SIZES),
        r.list(table::CODES),
        r.list(table::FLOATS),
        r.list(table::LIMITS),
        r.list(table::GOALS),
        r.list(table::HISTORY),
        r.list(table::WEIGHTS),
        r.list(table::TOOL0),
        r.list(table::TOOL1),
        r.list(table::TOOL2),
        r.list(table::TOOL3),
        r.list(table::JOINTS),
        value,
        strict,
    );
    agrees(r, number, table::OBJECTIVE_OUTPUTS, &[value])
}

pub fn gradient(r: Record, scratch: &mut [u8], value: &mut [u8], slopes: &mut [u8]) -> bool
    requires { (scratch.old ≡ filled (list_of r.s.now r.at objective_outputs))
        × (value.old ≡ filled (list_of r.s.now r.at (objective_outputs + 1)))
        × (slopes.old ≡ filled (list_of r.s.now r.at (objective_outputs + 2))) }
    ensures { result ≡ gradient_agrees r.entry.s.now r.entry.at }
{
    let strict = numbers::list_number(r, table::PICK);
    let number = objectives::gradient(
        r.list(table::SIZES),
        r.list(table::CODES),
        r.list(table::FLOATS),
        r.list(table::LIMITS),
        r.list(table::GOALS),
        r.list(table::HISTORY),
        r.list(table::WEIGHTS),
        r.list(table::TOOL0),
        r.list(table::TOOL1),
        r.list(table::TOOL2),
        r.list(table::TOOL3),
        r.list(table::JOINTS),
        scratch,
        value,
        slopes,
        strict,
    );
    agrees(
        r,
        number,
        table::OBJECTIVE_OUTPUTS,
        &[scratch, value, slopes],
    )
}

pub fn gradient_finite_diff(
    r: Record,
    scratch: &mut [u8],
    value: &mut [u8],
    slopes: &mut [u8],
) -> bool
    requires { (scratch.old ≡ filled (list_of r.s.now r.at objective_outputs))
        × (value.old ≡ filled (list_of r.s.now r.at (objective_outputs + 1)))
        × (slopes.old ≡ filled (list_of r.s.now r.at (objective_outputs + 2))) }
    ensures { result ≡ finite_diff_agrees r.entry.s.now r.entry.at }
{
    let strict = numbers::list_number(r, table::PICK);
    let number = objectives::gradient_finite_diff(
        r.list(table::SIZES),
        r.list(table::CODES),
        r.list(table::FLOATS),
        r.list(table::LIMITS),
        r.list(table::GOALS),
        r.list(table::HISTORY),
        r.list(table::WEIGHTS),
        r.list(table::TOOL0),
        r.list(table::TOOL1),
        r.list(table::TOOL2),
        r.list(table::TOOL3),
        r.list(table::JOINTS),
        scratch,
        value,
        slopes,
        strict,
    );
    agrees(
        r,
        number,
        table::OBJECTIVE_OUTPUTS,
        &[scratch, value, slopes],
    )
}

pub fn gradient_one_block(
    r: Record,
    value: &mut [u8],
    slopes: &mut [u8],
    record_joints: &mut [u8],
    record_links: &mut [u8],
    record_poses: &mut [u8],
) -> bool
    requires { (value.old ≡ filled (list_of r.s.now r.at objective_outputs))
        × (slopes.old ≡ filled (list_of r.s.now r.at (objective_outputs + 1)))
        × (record_joints.old ≡ filled (list_of r.s.now r.at (objective_outputs + 2)))
        × (record_links.old ≡ filled (list_of r.s.now r.at (objective_outputs + 3)))
        × (record_poses.old ≡ filled (list_of r.s.now r.at (objective_outputs + 4))) }
    ensures { result ≡ one_block_agrees r.entry.s.now r.entry.at }
{
    let strict = numbers::list_number(r, table::PICK);
    let number = one_block_bytes::slopes::gradient_one_block(
        r.list(table::SIZES),
        r.list(table::CODES),
        r.list(table::FLOATS),
        r.list(table::LIMITS),
        r.list(table::GOALS),
        r.list(table::HISTORY),
        r.list(table::WEIGHTS),
        r.list(table::TOOL0),
        r.list(table::TOOL1),
        r.list(table::TOOL2),
        r.list(table::TOOL3),
        r.list(table::JOINTS),
        value,
        slopes,
        record_joints,
        record_links,
        record_poses,
        strict,
    );
    agrees(
        r,
        number,
        table::OBJECTIVE_OUTPUTS,
        &[value, slopes, record_joints, record_links, record_poses],
    )
}
