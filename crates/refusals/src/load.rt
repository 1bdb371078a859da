// Refusals 5 and 6, and those of loading and of sizing.
ghost use Rattle.std.specs.Prelude.{◌≡◌, cond, ◌+◌, ◌*◌, ◌≤◌, length};
ghost use Rattle.refusals.specs.Number.{number_of};
ghost use Rattle.refusals.specs.Refusal.{ranged_pair, pair_fits, bad_limits, seven_fit, link_fits, bad_floats, load_refusal, sizing_refusal};

use crate::refusal::Refusal;
use crate::{lengths, range, shape};
use groove::objective;

#[tactic(auto, unfolding(crate::specs::Refusal::ranged_pair))]
fn ranged(lower: f64, upper: f64) -> bool
    ensures { result ≡ ranged_pair lower upper }
{
    range::is_within(100.0, lower) && range::is_within(100.0, upper) && upper - lower >= 0.001
}

#[tactic(auto, unfolding(crate::specs::Refusal::pair_fits))]
fn pair_fits(lower: f64, upper: f64) -> bool
    ensures { result ≡ pair_fits lower upper }
{
    objective::free(lower, upper) || ranged(lower, upper)
}

#[tactic(auto, using(crate::specs::Range::turns), unfolding(crate::specs::Refusal::limits_fit, crate::specs::Refusal::bad_limits))]
fn limits_refusal(joints: usize, limits: &[f64]) -> Result<(), Refusal>
    requires { joints ≤ 64 }
    ensures { number_of result ≡ cond (bad_limits joints limits.now) 5 0 }
{
    if limits.len() != 2 * joints {
        return Err(Refusal::Limits);
    }
    let mut ok = true;
    for j in 0..joints {
        ok &= pair_fits(limits[2 * j], limits[2 * j + 1]);
    }
    if ok { Ok(()) } else { Err(Refusal::Limits) }
}

// Whether the seven floats from `at` are in a link's range.
#[tactic(auto, using(crate::specs::Range::parts), unfolding(crate::specs::Refusal::seven_fit))]
pub(crate) fn seven_fit(floats: &[f64], at: usize) -> bool
    requires { at + 7 ≤ length floats.now }
    ensures { result ≡ seven_fit floats.now at }
{
    range::all_within(10.0, &floats[at..at + 3]) && range::unit(&floats[at + 3..at + 7])
}

#[tactic(auto, unfolding(crate::specs::Refusal::link_fits))]
fn link_fits(floats: &[f64], link: usize) -> bool
    requires { 7 * link + 7 ≤ length floats.now }
    ensures { result ≡ link_fits floats.now link }
{
    seven_fit(floats, 7 * link)
}

#[tactic(auto, using(crate::specs::Range::turns), unfolding(crate::specs::Refusal::bad_floats))]
fn floats_refusal(links: usize, floats: &[f64]) -> Result<(), Refusal>
    requires { 7 * links ≤ length floats.now }
    ensures { number_of result ≡ cond (bad_floats links floats.now) 6 0 }
{
    let mut ok = true;
    for l in 0..links {
        ok &= link_fits(floats, l);
    }
    if ok { Ok(()) } else { Err(Refusal::Floats) }
}

#[tactic(auto, using(crate::specs::Passed::sheets), unfolding(crate::specs::Lowest::first_of))]
pub fn load_refusal(
    sizes: &[u16],
    codes: &[u16],
    floats: &[f64],
    limits: &[f64],
) -> Result<(), Refusal>
    ensures { number_of result ≡ load_refusal sizes.now codes.now floats.now limits.now }
{
    shape::shape_refusal(sizes, codes, floats.len())?;
    limits_refusal(lengths::block_length(codes), limits)?;
    floats_refusal(codes.len(), floats)
}

// As loading, but without the limits.
#[tactic(auto, using(crate::specs::Passed::sheets), unfolding(crate::specs::Lowest::first_of))]
pub fn sizing_refusal(sizes: &[u16], codes: &[u16], floats: &[f64]) -> Result<(), Refusal>
    ensures { number_of result ≡ sizing_refusal sizes.now codes.now floats.now }
{
    shape::shape_refusal(sizes, codes, floats.len())?;
    floats_refusal(codes.len(), floats)
}
