// The cut to 0..1, and the size of a number.
ghost use Rattle.std.specs.Prelude.{◌≡◌};
ghost use Rattle.standins.specs.Num.{abs_of};
ghost use Rattle.standins.specs.Cut.{cut_of};

// num's `clamp` to 0..1 too.
#[tactic(auto, unfolding(crate::specs::Cut::cut_of))]
pub fn cut(x: f64) -> f64
    ensures { result ≡ cut_of x }
{
    if x < 0.0 {
        return 0.0;
    }
    if x > 1.0 {
        return 1.0;
    }
    x
}

pub fn abs(x: f64) -> f64
    ensures { result ≡ abs_of x }
{
    if x < 0.0 {
        return -x;
    }
    if x == 0.0 {
        return 0.0;
    }
    x
}
