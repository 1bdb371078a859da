#![tactic(auto)]
// The whole number nearest to an f64.
ghost use Rattle.std.specs.Prelude.{◌≡◌};
ghost use Rattle.whole.specs.Whole.{whole_of, IsNearestWhole};

// 2^52: from here on every f64 is whole, and from here to 2^53 the f64s are the whole numbers.
const P52: f64 = 4503599627370496.0;

// A tie goes to the even one, a zero comes out as +0.0; a NaN and an infinity stay. The sum with 2^52 rounds to a whole number, and taking 2^52 off again is exact.
pub fn nearest_whole(x: f64) -> f64
    ensures same { result ≡ whole_of x }
    ensures nearest { IsNearestWhole x result }
{
    if x >= P52 {
        return x;
    }
    if x <= -P52 {
        return x;
    }
    if x < 0.0 {
        return x - P52 + P52;
    }
    x + P52 - P52
}
