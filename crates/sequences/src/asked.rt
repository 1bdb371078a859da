// The calls that leave the state: each is asked what a record stores, on outputs as long as the stored ones, and its answer is held against the stored one.
ghost use Rattle.std.specs.Prelude.{◌≡◌, ◌+◌};
ghost use Rattle.stored_answers.specs.Stored.{list_of};
ghost use Rattle.sequences.specs.Table.{outputs, objective_outputs};
ghost use Rattle.sequences.specs.Lists.{joints_at, strict_at, filled_floats, filled_numbers};
ghost use Rattle.sequences.specs.Asked.{frames_agree, pose_agrees, manipulability_agrees, objective_agrees, gradient_agrees, finite_diff_agrees, one_block_agrees, kept_agrees};

use crate::{agree, table};
use refusals::refusal::number_of;
use state_calls::state::State;
use state_calls::{arms, objective, one_block_slopes};
use stored_answers::stored;
use stored_answers::stored::Record;

pub fn frames(
    state: State,
    r: Record,
    joints: &[f64],
    positions: &mut [f64],
    rotations: &mut [f64],
) -> bool
    requires joints_value { joints.now ≡ joints_at r.s.now r.at }
    requires positions_value { (positions.old ≡ filled_floats (list_of r.s.now r.at outputs)) × (rotations.old ≡ filled_floats (list_of r.s.now r.at (outputs + 1))) }
    ensures { result ≡ frames_agree state r.entry.s.now r.entry.at }
{
    let answer = arms::frames(state, joints, positions, rotations);
    let a = agree::number(r, number_of(answer));
    let b = agree::elements(a, r, table::OUTPUTS, positions);
    agree::elements(b, r, table::ROTATIONS, rotations)
}

pub fn pose(state: State, r: Record, joints: &[f64], ends: &mut [f64]) -> bool
    requires joints_value { joints.now ≡ joints_at r.s.now r.at }
    requires ends_value { ends.old ≡ filled_floats (list_of r.s.now r.at outputs) }
    ensures { result ≡ pose_agrees state r.entry.s.now r.entry.at }
{
    let answer = arms::pose(state, joints, ends);
    let a = agree::number(r, number_of(answer));
    agree::elements(a, r, table::OUTPUTS, ends)
}

pub fn manipulability(state: State, r: Record, joints: &[f64]) -> bool
    requires { joints.now ≡ joints_at r.s.now r.at }
    ensures { result ≡ manipulability_agrees state r.entry.s.now r.entry.at }
{
    agree::answered(r, table::OUTPUTS, arms::manipulability(state, joints))
}

// Whether the record picks the strict list.
fn strict(r: Record) -> bool
    ensures { result ≡ strict_at r.entry.s.now r.entry.at }
{
    stored::number_at(r.list(table::PICK), 0) != 0
}

pub fn objective(state: State, r: Record, joints: &[f64]) -> bool
    requires { joints.now ≡ joints_at r.s.now r.at }
    ensures { result ≡ objective_agrees state r.entry.s.now r.entry.at }
{
    let strict = strict(r);
    agree::answered(r, table::VALUE, objective::objective(state, strict, joints))
}

pub fn gradient(
    state: State,
    r: Record,
    joints: &[f64],
    scratch: &mut [f64],
    slopes: &mut [f64],
) -> bool
    requires joints_value { joints.now ≡ joints_at r.s.now r.at }
    requires scratch_value { (scratch.old ≡ filled_floats (list_of r.s.now r.at (objective_outputs + 1))) × (slopes.old ≡ filled_floats (list_of r.s.now r.at (objective_outputs + 2))) }
    ensures { result ≡ gradient_agrees state r.entry.s.now r.entry.at }
{
    let strict = strict(r);
    let answer = objective::gradient(state, strict, joints, scratch, slopes);
    let a = agree::answered(r, table::VALUE, answer);
    let b = agree::elements(a, r, table::BLOCK, scratch);
    agree::elements(b, r, table::SLOPES, slopes)
}

pub fn gradient_finite_diff(
    state: State,
    r: Record,
    joints: &[f64],
    scratch: &mut [f64],
    slopes: &mut [f64],
) -> bool
    requires joints_value { joints.now ≡ joints_at r.s.now r.at }
    requires scratch_value { (scratch.old ≡ filled_floats (list_of r.s.now r.at (objective_outputs + 1))) × (slopes.old ≡ filled_floats (list_of r.s.now r.at (objective_outputs + 2))) }
    ensures { result ≡ finite_diff_agrees state r.entry.s.now r.entry.at }
{
    let strict = strict(r);
    let answer = objective::gradient_finite_diff(state, strict, joints, scratch, slopes);
    let a = agree::answered(r, table::VALUE, answer);
    let b = agree::elements(a, r, table::BLOCK, scratch);
    agree::elements(b, r, table::SLOPES, slopes)
}

pub fn gradient_one_block(
    state: State,
    r: Record,
    block: &mut [f64],
    slopes: &mut [f64],
    record_joints: &mut [u16],
    record_links: &mut [u16],
    record_poses: &mut [f64],
) -> bool
    requires block_value { block.old ≡ joints_at r.s.now r.at }
    requires slopes_value { (slopes.old ≡ filled_floats (list_of r.s.now r.at (objective_outputs + 2)))
        × (record_joints.old ≡ filled_numbers (list_of r.s.now r.at (objective_outputs + 3)))
        × (record_links.old ≡ filled_numbers (list_of r.s.now r.at (objective_outputs + 4)))
        × (record_poses.old ≡ filled_floats (list_of r.s.now r.at (objective_outputs + 5))) }
    ensures { result ≡ one_block_agrees state r.entry.s.now r.entry.at }
{
    let strict = strict(r);
    let answer = one_block_slopes::gradient_one_block(
        state,
        strict,
        block,
        slopes,
        record_joints,
        record_links,
        record_poses,
    );
    let a = agree::answered(r, table::VALUE, answer);
    let b = agree::elements(a, r, table::BLOCK, block);
    let c = agree::elements(b, r, table::SLOPES, slopes);
    let d = agree::elements(c, r, table::RECORD_JOINTS, record_joints);
    let e = agree::elements(d, r, table::RECORD_LINKS, record_links);
    agree::elements(e, r, table::RECORD_POSES, record_poses)
}

// What the state keeps of its party.
pub fn kept(state: State, r: Record) -> bool
    ensures { result ≡ kept_agrees state r.entry.s.now r.entry.at }
{
    let party = state.party;
    let goals = party.goals;
    let history = party.history;
    let xopt = history.xopt;
    let prev_state = history.prev_state;
    let prev_state2 = history.prev_state2;
    let prev_state3 = history.prev_state3;
    let poses = party.start_poses;
    let a = agree::number(r, 0);
    let b = agree::elements(a, r, table::KEPT_GOALS, &goals);
    let c = agree::elements(b, r, table::KEPT_XOPT, &xopt);
    let d = agree::elements(c, r, table::KEPT_PREV, &prev_state);
    let e = agree::elements(d, r, table::KEPT_PREV2, &prev_state2);
    let f = agree::elements(e, r, table::KEPT_PREV3, &prev_state3);
    agree::elements(f, r, table::KEPT_POSES, &poses)
}
