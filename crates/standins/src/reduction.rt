// Document 02's change 7: sine and cosine of a large angle are those of the angle less the whole turns nearest to it.
ghost use Rattle.std.specs.Prelude.{◌≡◌};
ghost use Rattle.standins.specs.Reduction.{turned_of, reduced_of};

const TURN: f64 = 6.283185307179586;

#[tactic(auto, unfolding(crate::specs::Reduction::turned_of))]
fn turned(a: f64) -> f64
    ensures { result ≡ turned_of a }
{
    a - whole::nearest_whole(a / TURN) * TURN
}

// a itself up to 4.5 in size. A NaN stays; an infinity gives a NaN.
pub(crate) fn reduced(a: f64) -> f64
    ensures { result ≡ reduced_of a }
{
    if a > 4.5 {
        return turned(a);
    }
    if a < -4.5 {
        return turned(a);
    }
    a
}
