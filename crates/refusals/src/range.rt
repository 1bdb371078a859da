// Tests of ranges, closed: a NaN is within none. Each is one `&=` in a loop, so that a loop has no branch.
ghost use Rattle.std.specs.Prelude.{◌≡◌, ◌+◌, ◌≤◌, length};
ghost use Rattle.refusals.specs.Range.{every, between, within, within_at, near_one, squares_of, unit_at};

#[tactic(auto, unfolding(crate::specs::Range::between))]
pub fn is_between(low: usize, high: usize, n: usize) -> bool
    ensures { result ≡ between low high n }
{
    low <= n && n <= high
}

// Within -bound..bound.
#[tactic(auto, unfolding(crate::specs::Range::within))]
pub fn is_within(bound: f64, v: f64) -> bool
    ensures { result ≡ within bound v }
{
    -bound <= v && v <= bound
}

// Whether all of the list are within -bound..bound.
#[tactic(auto, using(crate::specs::Range::turns), unfolding(crate::specs::Range::within_at))]
pub fn all_within(bound: f64, list: &[f64]) -> bool
    ensures { result ≡ every (within_at bound list.now 0) (length list.now) }
{
    let mut ok = true;
    for v in list {
        ok &= is_within(bound, *v);
    }
    ok
}

#[tactic(auto, unfolding(crate::specs::Range::near_one))]
fn near_one(s: f64) -> bool
    ensures { result ≡ near_one s }
{
    0.999999999 <= s && s <= 1.000000001
}

#[tactic(auto, unfolding(crate::specs::Range::squares_of))]
fn squares(w: f64, i: f64, j: f64, k: f64) -> f64
    ensures { result ≡ squares_of w i j k }
{
    w * w + i * i + j * j + k * k
}

// Whether a quaternion's four floats have a squares' sum near 1.
#[tactic(auto, unfolding(crate::specs::Range::unit_at))]
pub fn unit(q: &[f64]) -> bool
    requires { 4 ≤ length q.now }
    ensures { result ≡ unit_at q.now 0 }
{
    near_one(squares(q[0], q[1], q[2], q[3]))
}
