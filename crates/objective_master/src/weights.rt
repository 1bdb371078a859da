// The weights, and the weighted sum.
ghost use Rattle.std.specs.Prelude.{◌≡◌, ◌≤◌, length, get_or};
ghost use Rattle.std.specs.Float.{nan};
ghost use Rattle.objective_master.specs.Weights.{weight_priors, in_force, weighted_by};

// The built-in weights, one a kind of objective.
const WEIGHT_PRIORS: [f64; 8] = [50.0, 10.0, 0.1, 0.7, 0.5, 0.3, 1.0, 0.01];

pub fn weight_priors() -> [f64; 8]
    ensures { result ≡ weight_priors }
{
    WEIGHT_PRIORS
}

// The weights in force, of a list and whether one is loaded.
pub fn in_force(loaded: bool, weights: [f64; 8]) -> [f64; 8]
    ensures { result ≡ in_force loaded weights }
{
    if loaded {
        return weights;
    }
    weight_priors()
}

// The weight of a kind.
fn weight(weights: &[f64], kind: usize) -> f64
    ensures { result ≡ get_or weights.now kind nan }
{
    if kind < weights.len() {
        return weights[kind];
    }
    0.0 / 0.0
}

// The sum over all objectives, in their order, each value by the weight of its objective's kind.
pub fn weighted_sum(weights: &[f64], kinds: &[u16], values: &[f64]) -> f64
    requires { length kinds.now ≤ length values.now }
    ensures { result ≡ weighted_by weights.now kinds.now values.now }
{
    let mut s = 0.0;
    for (kind, value) in kinds.iter().zip(values) {
        s = s + weight(weights, *kind as usize) * *value;
    }
    s
}
