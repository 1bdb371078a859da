// A record's call is made on the state, and its answer held against the stored one.
ghost use Rattle.std.specs.Prelude.{◌≡◌, ◌≤◌, length, replicate};
ghost use Rattle.standins.specs.Num.{half};
ghost use Rattle.lent_bytes.specs.Lent.{room_in, number_room_in};
ghost use Rattle.stored_answers.specs.Stored.{list_of};
ghost use Rattle.sequences.specs.Lists.{joints_at};
ghost use Rattle.sequences.specs.Asked.{frames_agree, pose_agrees, gradient_agrees, finite_diff_agrees, one_block_agrees, change_agrees, asked_agrees, step_agrees};
ghost use Rattle.sequences.specs.Steps.{after_of};

use crate::{agree, asked, changes, table};
use lent_bytes::lent;
use refusals::refusal::number_of;
use state_calls::state::State;
use stored_answers::stored::Record;

// How many floats output k has room for.
fn room(r: Record, k: usize) -> usize
    requires { k ≤ 12 }
    ensures { (result ≡ room_in (length (list_of r.entry.s.now r.entry.at k))) × (result ≤ 8192) }
{
    let stored = r.list(k);
    lent::room(stored.len())
}

// How many u16s.
// Kept: lent_bytes has a room for floats and one for u16s, as the specs do, and none by element to call.
fn number_room(r: Record, k: usize) -> usize
    requires { k ≤ 12 }
    ensures { (result ≡ number_room_in (length (list_of r.entry.s.now r.entry.at k))) × (result ≤ 32768) }
{
    let stored = r.list(k);
    lent::number_room(stored.len())
}

// Room for the longest output that a record can have.
fn buffer() -> [f64; 8192]
    ensures { (result ≡ replicate 8192 half) × (8192 ≡ length result) }
{
    [0.5; 8192]
}

// Kept: it differs in type, length and value; one for both would be told all three at each of its calls.
fn number_buffer() -> [u16; 32768]
    ensures { (result ≡ replicate 32768 42405) × (32768 ≡ length result) }
{
    [42405; 32768]
}

fn frames(state: State, r: Record, joints: &[f64]) -> bool
    requires { joints.now ≡ joints_at r.s.now r.at }
    ensures { result ≡ frames_agree state r.entry.s.now r.entry.at }
{
    let m = room(r, table::OUTPUTS);
    let n = room(r, table::ROTATIONS);
    let mut a = buffer();
    let mut b = buffer();
    asked::frames(state, r, joints, &mut a[..m], &mut b[..n])
}

fn pose(state: State, r: Record, joints: &[f64]) -> bool
    requires { joints.now ≡ joints_at r.s.now r.at }
    ensures { result ≡ pose_agrees state r.entry.s.now r.entry.at }
{
    let n = room(r, table::OUTPUTS);
    let mut a = buffer();
    asked::pose(state, r, joints, &mut a[..n])
}

fn gradient(state: State, r: Record, joints: &[f64]) -> bool
    requires { joints.now ≡ joints_at r.s.now r.at }
    ensures { result ≡ gradient_agrees state r.entry.s.now r.entry.at }
{
    let m = room(r, table::BLOCK);
    let n = room(r, table::SLOPES);
    let mut a = buffer();
    let mut b = buffer();
    asked::gradient(state, r, joints, &mut a[..m], &mut b[..n])
}

fn gradient_finite_diff(state: State, r: Record, joints: &[f64]) -> bool
    requires { joints.now ≡ joints_at r.s.now r.at }
    ensures { result ≡ finite_diff_agrees state r.entry.s.now r.entry.at }
{
    let m = room(r, table::BLOCK);
    let n = room(r, table::SLOPES);
    let mut a = buffer();
    let mut b = buffer();
    asked::gradient_finite_diff(state, r, joints, &mut a[..m], &mut b[..n])
}

fn gradient_one_block(state: State, r: Record) -> bool
    ensures { result ≡ one_block_agrees state r.entry.s.now r.entry.at }
{
    let mut x = [0.0; 64];
    let k = lent::floats(r.list(table::JOINTS), &mut x);
    let l = room(r, table::SLOPES);
    let m = number_room(r, table::RECORD_JOINTS);
    let n = number_room(r, table::RECORD_LINKS);
    let o = room(r, table::RECORD_POSES);
    let mut a = buffer();
    let mut b = number_buffer();
    let mut c = number_buffer();
    let mut d = buffer();
    asked::gradient_one_block(
        state,
        r,
        &mut x[..k],
        &mut a[..l],
        &mut b[..m],
        &mut c[..n],
        &mut d[..o],
    )
}

fn asked_on(call: usize, state: State, r: Record, joints: &[f64]) -> bool
    requires { joints.now ≡ joints_at r.s.now r.at }
    ensures { result ≡ asked_agrees call state r.entry.s.now r.entry.at }
{
    match call {
        5 => frames(state, r, joints),
        6 => pose(state, r, joints),
        7 => asked::manipulability(state, r, joints),
        8 => asked::objective(state, r, joints),
        9 => gradient(state, r, joints),
        _ => gradient_finite_diff(state, r, joints),
    }
}

fn asked_stored(call: usize, state: State, r: Record) -> bool
    ensures { result ≡ asked_agrees call state r.entry.s.now r.entry.at }
{
    asked_on(call, state, r, &changes::floats(r, table::JOINTS))
}

fn changed(call: usize, state: State, r: Record) -> bool
    ensures { result ≡ change_agrees call state r.entry.s.now r.entry.at }
{
    agree::number(r, number_of(changes::outcome(call, state, r)))
}

pub fn agrees(state: State, r: Record) -> bool
    ensures { result ≡ step_agrees state r.entry.s.now r.entry.at }
{
    let call = r.call();
    match call {
        0..=4 => changed(call, state, r),
        5..=10 => asked_stored(call, state, r),
        11 => gradient_one_block(state, r),
        12 => asked::kept(state, r),
        _ => changed(call, state, r),
    }
}

// The state after the step at `at`.
pub fn after(state: State, r: Record) -> State
    ensures { result ≡ after_of state r.entry.s.now r.entry.at }
{
    changes::outcome(r.call(), state, r).unwrap_or(state)
}
