// The byte calls that have outputs: each output is as long as the stored one, and filled with one byte before the call.
ghost use Rattle.std.specs.Prelude.{◌≡◌, ◌≤◌, ◌<◌, length};
ghost use Rattle.stored_answers.specs.Stored.{list_of};
ghost use Rattle.stored_answers.specs.Agree.{fill};
ghost use Rattle.replay_calls.specs.Arms.{sizing_agrees};
ghost use Rattle.replay_calls.specs.Objectives.{one_block_agrees};
ghost use Rattle.replay_calls.specs.Outputs.{one_agrees, two_agree, three_agree};

use crate::{arm_cases, objective_cases, table};
use stored_answers::stored::Record;

// How long list k of the record is.
fn room(r: Record, k: usize) -> usize
    requires { k ≤ 17 }
    ensures { (result ≡ length (list_of r.entry.s.now r.entry.at k)) × (result < 65536) }
{
    let stored = r.list(k);
    stored.len()
}

// Room for the longest list that a record can have.
fn buffer() -> [u8; 65536]
    ensures { (result ≡ fill 65536) × (65536 ≡ length result) }
{
    [165; 65536]
}

// Not inlined, these five: a record without outputs pays for no buffers.
// Kept: a function for each number of outputs, since a call borrows its outputs apart, and buffers that are as many as a parameter says cannot be taken apart.
#[inline(never)]
pub fn one_output(call: usize, r: Record) -> bool
    requires { (2 ≤ call) × (call < 6) }
    ensures { result ≡ one_agrees call r.entry.s.now r.entry.at }
{
    let n = room(r, table::outputs_from(call));
    let mut a = buffer();
    match call {
        2 => arm_cases::pose(r, &mut a[..n]),
        3 => arm_cases::manipulability(r, &mut a[..n]),
        4 => arm_cases::update(r, &mut a[..n]),
        _ => objective_cases::objective(r, &mut a[..n]),
    }
}

#[inline(never)]
pub fn two_outputs(call: usize, r: Record) -> bool
    requires { (6 ≤ call) × (call < 8) }
    ensures { result ≡ two_agree call r.entry.s.now r.entry.at }
{
    let k = table::outputs_from(call);
    let m = room(r, k);
    let n = room(r, k + 1);
    let mut a = buffer();
    let mut b = buffer();
    match call {
        6 => arm_cases::frames(r, &mut a[..m], &mut b[..n]),
        _ => arm_cases::reset(r, &mut a[..m], &mut b[..n]),
    }
}

#[inline(never)]
pub fn three_outputs(call: usize, r: Record) -> bool
    ensures { result ≡ three_agree call r.entry.s.now r.entry.at }
{
    let l = room(r, table::OBJECTIVE_OUTPUTS);
    let m = room(r, table::OBJECTIVE_SECOND);
    let n = room(r, table::OBJECTIVE_THIRD);
    let mut a = buffer();
    let mut b = buffer();
    let mut c = buffer();
    if call == 8 {
        return objective_cases::gradient(r, &mut a[..l], &mut b[..m], &mut c[..n]);
    }
    objective_cases::gradient_finite_diff(r, &mut a[..l], &mut b[..m], &mut c[..n])
}

#[inline(never)]
pub fn five_outputs(r: Record) -> bool
    ensures { result ≡ one_block_agrees r.entry.s.now r.entry.at }
{
    let k = room(r, table::OBJECTIVE_OUTPUTS);
    let l = room(r, table::OBJECTIVE_SECOND);
    let m = room(r, table::OBJECTIVE_THIRD);
    let n = room(r, table::OBJECTIVE_FOURTH);
    let o = room(r, table::OBJECTIVE_FIFTH);
    let mut a = buffer();
    let mut b = buffer();
    let mut c = buffer();
    let mut d = buffer();
    let mut e = buffer();
    objective_cases::gradient_one_block(
        r,
        &mut a[..k],
        &mut b[..l],
        &mut c[..m],
        &mut d[..n],
        &mut e[..o],
    )
}

#[inline(never)]
pub fn plan_output(r: Record) -> bool
    ensures { result ≡ sizing_agrees r.entry.s.now r.entry.at }
{
    let n = room(r, table::PLAN_OUTPUT);
    let mut a = buffer();
    arm_cases::sizing(r, &mut a[..n])
}
