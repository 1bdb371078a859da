// Calls that set what a party keeps over the arms: goals, start, history.
ghost use Rattle.std.specs.Prelude.{◌≡◌};
ghost use Rattle.state_calls.specs.Load.{answered};
ghost use Rattle.state_calls.specs.Party.{set_goals_of, reset_state_of, update_state_of};

use crate::state;
use crate::state::{Party, State};
use calls::frames;
use groove::vars;
use refusals::lent;
use refusals::refusal::Refusal;

// Keeps goals, thirteen floats a chain, in place of those before.
#[tactic(auto, unfolding(crate::specs::StoredSheet::if_arms, crate::specs::StoredSheet::goals_stored, crate::specs::Load::outcome_of, crate::specs::Party::set_goals_of, crate::specs::Party::with_goals))]
pub fn set_goals(state: State, goals: &[f64]) -> Result<State, Refusal>
    ensures { answered state result ≡ set_goals_of state goals.now }
{
    let sheet = state::in_use(&state.arms)?;
    lent::goals_refusal(sheet.counts.len(), goals)?;
    let mut kept = [0.0; 52];
    lists::copy(goals, &mut kept);
    Ok(State {
        party: Party {
            has_goals: true,
            goals: kept,
            ..state.party
        },
        ..state
    })
}

// A start: the history is the block four times, and the end poses are kept.
#[tactic(auto, unfolding(crate::specs::StoredSheet::if_arms, crate::specs::StoredSheet::block_stored, crate::specs::Load::outcome_of, crate::specs::Party::reset_state_of, crate::specs::Party::with_start))]
pub fn reset(state: State, joints: &[f64]) -> Result<State, Refusal>
    ensures { answered state result ≡ reset_state_of state joints.now }
{
    let sheet = state::in_use(&state.arms)?;
    let mut ends = [0.0; 28];
    frames::pose(
        sheet.counts,
        sheet.codes,
        sheet.floats,
        &state.arms.tools,
        joints,
        &mut ends,
    )?;
    let old = state.party.history;
    Ok(State {
        party: Party {
            started: true,
            history: old.reset(vars::padded16(joints), joints.len()),
            start_poses: ends,
            ..state.party
        },
        ..state
    })
}

// One block more.
#[tactic(auto, unfolding(crate::specs::StoredSheet::if_arms, crate::specs::StoredSheet::update_stored, crate::specs::Load::outcome_of, crate::specs::Party::update_state_of, crate::specs::Party::with_block))]
pub fn update(state: State, joints: &[f64]) -> Result<State, Refusal>
    ensures { answered state result ≡ update_state_of state joints.now }
{
    let sheet = state::in_use(&state.arms)?;
    if !state.party.started {
        return Err(Refusal::NoStart);
    }
    lent::block_refusal(sheet.codes, joints)?;
    let old = state.party.history;
    let updated = State {
        party: Party {
            history: old.update(vars::padded16(joints)),
            ..state.party
        },
        ..state
    };
    Ok(updated)
}
