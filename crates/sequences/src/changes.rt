// The calls that change the state: each is asked what a record stores.
ghost use Rattle.std.specs.Prelude.{◌≡◌, ◌≤◌};
ghost use Rattle.lent_bytes.specs.Lent.{floats_in};
ghost use Rattle.state_calls.specs.Load.{answered};
ghost use Rattle.stored_answers.specs.Stored.{list_of};
ghost use Rattle.sequences.specs.Changes.{load_at, set_goals_at, reset_at, update_at, set_weights_at, set_tool_at, outcome_at};

use crate::table;
use lent_bytes::held;
use lent_bytes::held::Held;
use refusals::refusal::Refusal;
use state_calls::state::State;
use state_calls::{load, party, state, tool, weights};
use stored_answers::stored;
use stored_answers::stored::Record;

// The floats of list k, of which at most 64 are taken.
pub fn floats(r: Record, k: usize) -> Held<f64, 64>
    requires { k ≤ 12 }
    ensures { result ≡ floats_in 64 (list_of r.entry.s.now r.entry.at k) }
{
    held::decode(r.list(k))
}

// Each call is made in a function of its own that is not inlined, so that a record pays for the lists of its own call alone.
#[inline(never)]
fn load_stored(state: State, r: Record) -> Result<State, Refusal>
    ensures { answered state result ≡ load_at state r.entry.s.now r.entry.at }
{
    let mut sizes: Held<u16, 8> = Held::empty();
    let mut codes: Held<u16, 80> = Held::empty();
    let mut floats: Held<f64, 512> = Held::empty();
    let mut limits: Held<f64, 64> = Held::empty();
    held::refill(r.list(table::SIZES), &mut sizes);
    held::refill(r.list(table::CODES), &mut codes);
    held::refill(r.list(table::FLOATS), &mut floats);
    held::refill(r.list(table::LIMITS), &mut limits);
    load::load(state, &sizes, &codes, &floats, &limits)
}

#[inline(never)]
fn set_goals(state: State, r: Record) -> Result<State, Refusal>
    ensures { answered state result ≡ set_goals_at state r.entry.s.now r.entry.at }
{
    party::set_goals(state, &floats(r, table::GOALS))
}

#[inline(never)]
fn reset(state: State, r: Record) -> Result<State, Refusal>
    ensures { answered state result ≡ reset_at state r.entry.s.now r.entry.at }
{
    party::reset(state, &floats(r, table::JOINTS))
}

#[inline(never)]
fn update(state: State, r: Record) -> Result<State, Refusal>
    ensures { answered state result ≡ update_at state r.entry.s.now r.entry.at }
{
    party::update(state, &floats(r, table::JOINTS))
}

#[inline(never)]
fn set_weights(state: State, r: Record) -> Result<State, Refusal>
    ensures { answered state result ≡ set_weights_at state r.entry.s.now r.entry.at }
{
    weights::set_weights(state, &floats(r, table::WEIGHTS))
}

#[inline(never)]
fn set_tool(state: State, r: Record) -> Result<State, Refusal>
    ensures { answered state result ≡ set_tool_at state r.entry.s.now r.entry.at }
{
    let chain = stored::number_at(r.list(table::CHAIN), 0);
    tool::set_tool(state, chain, &floats(r, table::TOOL))
}

// What step `call` answers: the state after it, or why it is refused.
pub fn outcome(call: usize, state: State, r: Record) -> Result<State, Refusal>
    ensures { answered state result ≡ outcome_at call state r.entry.s.now r.entry.at }
{
    match call {
        0 => Ok(state::empty()),
        1 => load_stored(state, r),
        2 => set_goals(state, r),
        3 => reset(state, r),
        4 => update(state, r),
        13 => set_weights(state, r),
        14 => set_tool(state, r),
        _ => Ok(state),
    }
}
