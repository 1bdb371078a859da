// Sine, cosine, the exponential and the arc tangent: each a series worked out from its last term down, one rounding for each operation.
ghost use Rattle.std.specs.Prelude.{◌≡◌, ◌≤◌};
ghost use Rattle.standins.specs.Reduction.{reduced_of};
ghost use Rattle.standins.specs.Series.{divisor_of, sine_of, cosine_of, sine_cosine_of, both_series_of, exp_series_of, squarings, exp_of, halved_of, arc_series_of, small_angle_of, atan2_of};

use crate::reduction;

// k·(k+1), the divisor of both series: k is even in the sine, odd in the cosine.
fn divisor(k: usize) -> f64
    requires { k ≤ 32 }
    ensures { result ≡ divisor_of k }
{
    (k * (k + 1)) as f64
}

// The reduced angle, and the series of the sine and of the cosine of its square.
#[derive(Clone, Copy)]
struct BothSeries {
    angle: f64,
    sine: f64,
    cosine: f64,
}

// Both in one loop: the two chains of divisions do not wait for each other, and one instruction divides for both.
fn both_series(a: f64) -> BothSeries
    ensures { result ≡ both_series_of (reduced_of a) }
{
    let angle = reduction::reduced(a);
    let q = angle * angle;
    let mut s = 1.0;
    let mut c = 1.0;
    for n in (1..17).rev() {
        s = 1.0 - s * q / divisor(2 * n);
        c = 1.0 - c * q / divisor(2 * n - 1);
    }
    BothSeries {
        angle,
        sine: s,
        cosine: c,
    }
}

// The sine and the cosine of one angle.
#[derive(Clone, Copy, Debug, PartialEq)]
pub struct SineCosine {
    pub sine: f64,
    pub cosine: f64,
}

#[tactic(auto, unfolding(crate::specs::Series::sine_of, crate::specs::Series::cosine_of, crate::specs::Series::sine_series_of, crate::specs::Series::cosine_series_of))]
pub fn sine_cosine(a: f64) -> SineCosine
    ensures { result ≡ sine_cosine_of a }
{
    let both = both_series(a);
    SineCosine {
        sine: both.angle * both.sine,
        cosine: both.cosine,
    }
}

#[tactic(auto, unfolding(crate::specs::Series::sine_of, crate::specs::Series::sine_series_of))]
pub fn sin(a: f64) -> f64
    ensures { result ≡ sine_of a }
{
    let both = both_series(a);
    both.angle * both.sine
}

#[tactic(auto, unfolding(crate::specs::Series::cosine_of, crate::specs::Series::cosine_series_of))]
pub fn cos(a: f64) -> f64
    ensures { result ≡ cosine_of a }
{
    let both = both_series(a);
    both.cosine
}

fn exp_series(z: f64) -> f64
    ensures { result ≡ exp_series_of z }
{
    let mut e = 1.0;
    for n in (1..19usize).rev() {
        e = 1.0 + e * z / (n as f64);
    }
    e
}

fn squared(a: f64, times: usize) -> f64
    ensures { result ≡ squarings times a }
{
    let mut e = a;
    for _ in 0..times {
        e = e * e;
    }
    e
}

// The exponential, for y <= 0.
pub fn exp(y: f64) -> f64
    ensures { result ≡ exp_of y }
{
    if y < -700.0 {
        return 0.0;
    }
    if y > 0.0 {
        return 0.0 / 0.0;
    }
    if y != y {
        return 0.0 / 0.0;
    }
    squared(exp_series(y / 1024.0), 10)
}

// The tangent of half the angle whose tangent is r.
#[tactic(auto, unfolding(crate::specs::Series::halved_of))]
fn halved(r: f64) -> f64
    ensures { result ≡ halved_of r }
{
    r / (1.0 + root::sqrt(1.0 + r * r))
}

fn arc_series(r: f64) -> f64
    ensures { result ≡ arc_series_of r }
{
    let q = r * r;
    let mut s = 1.0 / 25.0;
    for n in (1..13usize).rev() {
        s = 1.0 / ((2 * n - 1) as f64) - s * q;
    }
    s
}

// The angle whose tangent is r, for 0 <= r <= 1.
fn small_angle(r: f64) -> f64
    ensures { result ≡ small_angle_of r }
{
    let h = halved(halved(r));
    4.0 * (h * arc_series(h))
}

// The angle whose tangent is n/w, for n > 0 and w >= 0.
#[tactic(auto, unfolding(crate::specs::Series::atan2_of))]
pub fn atan2(n: f64, w: f64) -> f64
    ensures { result ≡ atan2_of n w }
{
    if n > w {
        return 1.5707963267948966 - small_angle(w / n);
    }
    small_angle(n / w)
}
