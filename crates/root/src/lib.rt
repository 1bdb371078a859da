#![tactic(auto)]
// The correctly rounded square root of an f64.
ghost use Rattle.std.specs.Prelude.{◌≡◌, true, ℕ, ◌+◌, ◌-◌, ◌*◌, ◌^◌, ◌<◌, ◌≤◌};
ghost use Rattle.root.specs.Whole.{Digits, EvenOf, PartsOf, PatternOf};
ghost use Rattle.root.specs.Root.{root_of, IsRoot};

// 2^26, 2^52, 2^53 and 2^55.
const P26: u64 = 67108864;

const P52: u64 = 4503599627370496;

const P53: u64 = 9007199254740992;

const P55: u64 = 36028797018963968;

// The pattern of the positive infinity: 2047 * 2^52.
const INFINITY: u64 = 9218868437227405312;

// x in units of 2^-1074, times 2^52, is a * 4^h.
#[derive(Clone, Copy)]
struct Scaled {
    a: u64,
    h: u64,
}

fn even(m: u64, k: u64) -> Scaled
    requires { (2 ^ 52 ≤ m) × (m < 2 ^ 53) × (k ≤ 2097) }
    ensures { EvenOf m k result.a result.h }
{
    if k % 2 == 1 {
        return Scaled { a: m * 2, h: k / 2 };
    }
    Scaled { a: m, h: k / 2 }
}

// A subnormal, whose exponent field is 0, is moved up by its leading zeros first.
fn parts(b: u64) -> Scaled
    requires { (0 < b) × (b < 2047 * 2 ^ 52) }
    ensures { PartsOf b result.a result.h }
{
    let e = b / P52;
    let t = b % P52;
    if e == 0 {
        let z = t.leading_zeros() as u64;
        return even(t << (z - 11), 63 - z);
    }
    even(t + P52, e + 51)
}

// About the root of a number u with a's digits, 16 <= u < 64. Nothing is claimed of it.
// One Halley step from a straight line gives s, cut to 26 digits so that its square is exact;
// then the first terms of s / sqrt(1 - z), where z is 1 - s * s / u.
fn guess(a: u64) -> f64
    requires { a ≤ 2 ^ 54 - 2 }
{
    let p = a / P53;
    let u = f64::from_bits((1026 + p) * P52 + (a >> p));
    let v = 1.0 / u;
    let t = u * 0.0857864 + 2.7451663;
    let s = t * (t * t + 3.0 * u) / (3.0 * (t * t) + u) + 805306368.0 - 805306368.0;
    let z = (u - s * s) * v;
    s + s * z * (0.5 + z * (0.375 + 0.3125 * z))
}

// True only if q is the whole number nearest to the root of a * 2^52. With q = h * 2^26 + l its square is hi * 2^52 + lo.
fn near(a: u64, q: u64) -> bool
    requires { (2 ^ 52 ≤ a) × (a ≤ 2 ^ 54 - 2) × (q < 2 ^ 55) }
    ensures { result ≡ true → Digits a q }
{
    let h = q / P26;
    let l = q % P26;
    let m = 2 * h * l;
    let hi = h * h + m / P26;
    let lo = m % P26 * P26 + l * l;
    if hi + (lo + q) / P52 < a {
        return false;
    }
    hi + (lo + P55 - q) / P52 < a + 8
}

// Digit by digit: r is the weight of the digit, and y * r / 2 is what q * q leaves of a * 2^52.
fn by_digits(a: u64) -> u64
    requires { (2 ^ 52 ≤ a) × (a ≤ 2 ^ 54 - 2) }
    ensures { Digits a result }
{
    let mut q = 0u64;
    let mut y = a;
    for k in (0..53u32).rev() {
        let r = 1u64 << k;
        y *= 2;
        let t = 4 * q + 2 * r;
        if t <= y {
            y -= t;
            q += r;
        }
    }
    if 2 * q < y { q + 1 } else { q }
}

// A guess that passes the test is right; the digit loop answers for the few that do not.
fn digits(a: u64) -> u64
    requires { (2 ^ 52 ≤ a) × (a ≤ 2 ^ 54 - 2) }
    ensures { Digits a result }
{
    let s = guess(a);
    if s != s {
        return by_digits(a);
    }
    let q = s.to_bits() % P55;
    if near(a, q) {
        return q;
    }
    by_digits(a)
}

fn pattern(b: u64) -> u64
    requires { (0 < b) × (b < 2047 * 2 ^ 52) }
    ensures { PatternOf b result }
{
    let p = parts(b);
    let q = digits(p.a);
    (p.h + 485) * P52 + q
}

// IEEE 754's square root, for every x.
pub fn sqrt(x: f64) -> f64
    ensures same { result ≡ root_of x }
    ensures nearest { IsRoot x result }
{
    if x != x {
        return 0.0 / 0.0;
    }
    if x == 0.0 {
        return x;
    }
    if x < 0.0 {
        return 0.0 / 0.0;
    }
    let b = x.to_bits();
    if b == INFINITY {
        return x;
    }
    f64::from_bits(pattern(b))
}
