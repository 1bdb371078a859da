// From sizes, codes and floats alone: no limits, no state, no walk.
ghost use Rattle.std.specs.Prelude.{◌≡◌};
ghost use Rattle.sizing.specs.Sizing.{sizing_of};

use crate::plan;
use crate::plan::Plan;
use refusals::refusal::Refusal;
use refusals::{load, shape};
use task::picks::Picks;

// The plan of a sheet, its objectives those of the list that is picked, or the refusal with which loading meets it where its limits are good.
pub fn sizing(sizes: &[u16], codes: &[u16], floats: &[f64], picks: Picks) -> Result<Plan, Refusal>
    ensures { result ≡ sizing_of picks sizes.now codes.now floats.now }
{
    load::sizing_refusal(sizes, codes, floats)?;
    Ok(plan::of_sheet(shape::links(sizes), codes, floats, picks))
}
