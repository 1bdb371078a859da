// Lists of floats that may be left out: one without a byte is told from one of a wrong length.
ghost use Rattle.std.specs.Prelude.{◌≡◌, length};
ghost use Rattle.lent_bytes.specs.Lent.{Front, floats_in};
ghost use Rattle.lent_bytes.specs.Optional.{optional_in, count_of};

use crate::lent;

// No whole number of floats, or more than there is room for.
#[derive(Clone, Copy)]
pub struct WrongLength;

// The floats of a byte list go to the front of `out`; `None` is a list without a byte, which is left out.
pub fn floats(b: &[u8], out: &mut [f64]) -> Result<Option<usize>, WrongLength>
    ensures told { result ≡ optional_in (length out.old) b.now }
    ensures held { Front (floats_in (length out.old) b.now) out.new (count_of result) }
{
    let n = lent::decode(b, out);
    if b.len() == 0 {
        return Ok(None);
    }
    if n == 0 {
        return Err(WrongLength);
    }
    Ok(Some(n))
}
