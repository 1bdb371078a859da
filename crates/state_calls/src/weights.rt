// Setting the weights, which belong to no arms.
ghost use Rattle.std.specs.Prelude.{◌≡◌};
ghost use Rattle.state_calls.specs.Load.{answered};
ghost use Rattle.state_calls.specs.Weights.{set_weights_of};

use crate::state::{State, Weights};
use refusals::lent;
use refusals::refusal::Refusal;

// Keeps a list in place of the one before.
#[tactic(auto, unfolding(crate::specs::Weights::set_weights_of, crate::specs::Weights::with_weights, crate::specs::Load::outcome_of))]
pub fn set_weights(state: State, weights: &[f64]) -> Result<State, Refusal>
    ensures { answered state result ≡ set_weights_of state weights.now }
{
    lent::weights_refusal(weights)?;
    let mut list = [0.0; 8];
    lists::copy(weights, &mut list);
    Ok(State {
        weights: Weights { loaded: true, list },
        ..state
    })
}
