// What the numbers behind a byte call's lists pick.
ghost use Rattle.std.specs.Prelude.{◌≡◌};
ghost use Rattle.lent_bytes.specs.Picks.{picks_from};

use task::picks::Picks;

// Kept: a `From<u32>` for Picks would have to stand in crate task, which no byte call's number reaches.
pub fn decode(strict: u32) -> Picks
    ensures { result ≡ picks_from strict }
{
    Picks {
        strict: strict != 0,
    }
}
