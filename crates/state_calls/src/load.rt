// Loading arms.
ghost use Rattle.std.specs.Prelude.{◌≡◌, ◌≤◌, length};
ghost use Rattle.state_calls.specs.Load.{arms_of, answered, load_of};

use crate::state;
use crate::state::{Arms, State};
use refusals::load;
use refusals::refusal::Refusal;

#[tactic(auto, unfolding(crate::specs::Load::arms_of))]
fn stored(sizes: &[u16], codes: &[u16], floats: &[f64], limits: &[f64]) -> Arms
    requires { (length sizes.now ≤ 5) × (length codes.now ≤ 64) × (length floats.now ≤ 448) × (length limits.now ≤ 32) }
    ensures { result ≡ arms_of sizes.now codes.now floats.now limits.now }
{
    let mut arms = Arms {
        sizes: [0; 5],
        codes: [0; 64],
        floats: [0.0; 448],
        limits: [0.0; 32],
        tools: [0.0; 32],
    };
    lists::copy(sizes, &mut arms.sizes);
    lists::copy(codes, &mut arms.codes);
    lists::copy(floats, &mut arms.floats);
    lists::copy(limits, &mut arms.limits);
    arms
}

// Takes a sheet; goals, history and tools are cleared, weights are kept.
#[tactic(auto, unfolding(crate::specs::Load::load_of, crate::specs::Load::outcome_of))]
pub fn load(
    state: State,
    sizes: &[u16],
    codes: &[u16],
    floats: &[f64],
    limits: &[f64],
) -> Result<State, Refusal>
    ensures { answered state result ≡ load_of state sizes.now codes.now floats.now limits.now }
{
    load::load_refusal(sizes, codes, floats, limits)?;
    Ok(State {
        arms: stored(sizes, codes, floats, limits),
        weights: state.weights,
        party: state::empty_party(),
    })
}
