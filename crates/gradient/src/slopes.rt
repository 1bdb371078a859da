// The slopes between the losses of two blocks.
ghost use Rattle.std.specs.Prelude.{◌≡◌, ◌≤◌, length};
ghost use Rattle.lists.specs.Splice.{splice};
ghost use Rattle.lists.specs.Listed.{listed};
ghost use Rattle.objective_master.specs.Weights.{weighted_by};
ghost use Rattle.gradient.specs.Slopes.{slope_between, step_of, slope_by};

use objective_master::weights;

// What a slope is of: of each loss, weighted and added (`gradient`), or of the weighted sum (`gradient_finite_diff`).
#[derive(Clone, Copy)]
pub enum Rule {
    EachLoss,
    WeightedSum,
}

// How far a joint is raised.
pub fn step(rule: Rule) -> f64
    ensures { result ≡ step_of rule }
{
    match rule {
        Rule::EachLoss => 0.0000001,
        Rule::WeightedSum => 0.000001,
    }
}

// The losses of the raised block become slopes, each in its place.
fn put_slopes(f_0s: &[f64], f_hs: &mut [f64], n: usize)
    requires { (n ≤ length f_0s.now) × (n ≤ length f_hs.old) }
    ensures { f_hs.new ≡ splice f_hs.old 0 (listed (slope_between f_0s.now f_hs.old) n) }
{
    for i in 0..n {
        f_hs[i] = (-f_0s[i] + f_hs[i]) / 0.0000001;
    }
}

// Weighted first, then added.
pub fn weighted_slope(weights: &[f64], kinds: &[u16], f_0s: &[f64], f_hs: &mut [f64]) -> f64
    requires { (length kinds.now ≤ length f_0s.now) × (length kinds.now ≤ length f_hs.old) }
    ensures { result ≡ weighted_by weights.now kinds.now
        (listed (slope_between f_0s.now f_hs.old) (length kinds.now)) }
{
    put_slopes(f_0s, f_hs, kinds.len());
    weights::weighted_sum(weights, kinds, f_hs)
}

// From losses f_0s, whose weighted sum is f_0, to losses f_hs.
pub fn slope(
    rule: Rule,
    weights: &[f64],
    kinds: &[u16],
    f_0: f64,
    f_0s: &[f64],
    f_hs: &mut [f64],
) -> f64
    requires { (length kinds.now ≤ length f_0s.now) × (length kinds.now ≤ length f_hs.old) }
    ensures { result ≡ slope_by rule weights.now kinds.now f_0 f_0s.now f_hs.old }
{
    match rule {
        Rule::EachLoss => weighted_slope(weights, kinds, f_0s, f_hs),
        Rule::WeightedSum => (-f_0 + weights::weighted_sum(weights, kinds, f_hs)) / 0.000001,
    }
}
