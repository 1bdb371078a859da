// The lengths with which the frame lists and the record of a sheet can be reserved.
ghost use Rattle.std.specs.Prelude.{◌≡◌};
ghost use Rattle.calls.specs.Arms.{Accepted};
ghost use Rattle.sizing.specs.Sizing.{plan_of};

use objective_master::count;
use one_block::grad;
use refusals::lengths;
use task::picks::Picks;

// Floats of the lists of positions and of rotations of `frames`, objectives, and entries of the record of `gradient_one_block`.
#[derive(Clone, Copy)]
pub struct Plan {
    pub positions: usize,
    pub rotations: usize,
    pub objectives: usize,
    pub entries: usize,
}

// The plan of a good sheet.
pub(crate) fn of_sheet(counts: &[u16], codes: &[u16], floats: &[f64], picks: Picks) -> Plan
    requires { Accepted counts.now codes.now floats.now }
    ensures { result ≡ plan_of picks counts.now codes.now }
{
    let positions = lengths::positions_length(counts);
    let rotations = lengths::rotations_length(counts);
    let objectives = count::objective_count(counts, codes, picks);
    let entries = grad::entries(counts, codes);
    Plan {
        positions,
        rotations,
        objectives,
        entries,
    }
}
