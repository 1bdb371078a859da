// What stands at a place of a list that is lent as little-endian bytes.
ghost use Rattle.std.specs.Prelude.{◌≡◌, ◌+◌, ◌≤◌, ◌<◌, length};
ghost use Rattle.lists.specs.Listed.{listed};
ghost use Rattle.lent_bytes.specs.Bytes.{pair_at, float_at};

use crate::element::Element;

// Two bytes, the lower first.
pub fn pair_at(b: &[u8], at: usize) -> u64
    requires { at + 2 ≤ length b.now }
    ensures { (result ≡ pair_at b.now at) × (result < 65536) }
{
    u16::from_le_bytes([b[at], b[at + 1]]) as u64
}

// Float i of a byte list, a NaN where the list ends before it.
pub fn float_at(b: &[u8], i: usize) -> f64
    ensures { result ≡ float_at b.now i }
{
    let (floats, _) = b.as_chunks::<8>();
    match floats.get(i) {
        Some(le) => f64::from_bytes(le),
        None => 0.0 / 0.0,
    }
}

// Fills `out` with the floats of a byte list.
pub fn floats(b: &[u8], out: &mut [f64])
    ensures { out.new ≡ listed (float_at b.now) (length out.old) }
{
    for (i, x) in out.iter_mut().enumerate() {
        *x = float_at(b, i);
    }
}
