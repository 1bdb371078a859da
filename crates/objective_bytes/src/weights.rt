// The weights that a call on the objective is lent.
ghost use Rattle.std.specs.Prelude.{◌≡◌};
ghost use Rattle.objective_bytes.specs.ObjectiveCalls.{weights_in, in_force_from};

use lent_bytes::held::Held;
use lent_bytes::{held, optional};
use objective_master::weights;

// As they are lent.
pub fn given(b: &[u8]) -> Held<f64, 8>
    ensures { result ≡ weights_in b }
{
    held::decode(b)
}

// Those in force: of a list that is left out, the built-in ones.
pub fn decode(b: &[u8]) -> Held<f64, 8>
    ensures { result ≡ in_force_from b.now }
{
    let mut w = [0.0; 8];
    match optional::floats(b, &mut w) {
        Ok(Some(n)) => Held::new(w, n),
        Ok(None) => Held::new(weights::weight_priors(), 8),
        Err(_) => Held::new(w, 0),
    }
}
