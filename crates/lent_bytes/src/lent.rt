// Lists that are lent as little-endian bytes: in and out as u16s and floats.
ghost use Rattle.std.specs.Prelude.{◌≡◌, ◌+◌, ◌*◌, ◌/◌, ◌≤◌, ◌<◌, length};
ghost use Rattle.lists.specs.Splice.{splice};
ghost use Rattle.lent_bytes.specs.Lent.{Front, count_in, numbers_in, floats_in, whole_in, room_in, number_room_in, bytes_of, bytes_of_numbers};

use crate::element::Element;

// How many elements of `width` bytes `size` bytes are, 0 where they are no whole count.
fn whole(width: usize, size: usize) -> usize
    requires { 0 < width }
    ensures { result ≡ whole_in width size }
{
    if size % width != 0 {
        return 0;
    }
    size / width
}

// How many elements of `width` bytes are taken of `size` bytes.
fn count(width: usize, most: usize, size: usize) -> usize
    requires { 0 < width }
    ensures count { result ≡ count_in width most size }
    ensures fits { (result ≤ most) × (result ≤ size / width) }
{
    let n = whole(width, size);
    if most < n { 0 } else { n }
}

// The elements of a byte list go to the front of `out`.
pub fn decode<T: Element<N>, const N: usize>(b: &[u8], out: &mut [T]) -> usize
    ensures { Front (T.taken (length out.old) b.now) out.new result }
{
    let n = count(N, out.len(), b.len());
    let (elements, _) = b.as_chunks::<N>();
    for (i, x) in out[..n].iter_mut().enumerate() {
        *x = T::from_bytes(&elements[i]);
    }
    n
}

// The bytes of elements go to `out` from `at` on.
pub fn put<T: Element<N>, const N: usize>(src: &[T], at: usize, out: &mut [u8])
    requires { at + N * length src.now ≤ length out.old }
    ensures { out.new ≡ splice out.old at (T.laid src.now) }
{
    for (i, x) in src.iter().enumerate() {
        let from = at + N * i;
        out[from..from + N].copy_from_slice(&x.to_bytes());
    }
}

// Kept: names for the two instances; the crates above call them and their proofs cite them.
pub fn numbers(b: &[u8], out: &mut [u16]) -> usize
    ensures { Front (numbers_in (length out.old) b.now) out.new result }
{
    decode(b, out)
}

pub fn floats(b: &[u8], out: &mut [f64]) -> usize
    ensures { Front (floats_in (length out.old) b.now) out.new result }
{
    decode(b, out)
}

// The room in floats of an output of `size` bytes.
pub fn room(size: usize) -> usize
    ensures { result ≡ room_in size }
{
    whole(8, size)
}

// The room in u16s of an output of `size` bytes.
pub fn number_room(size: usize) -> usize
    ensures { result ≡ number_room_in size }
{
    whole(2, size)
}

pub fn put_floats(src: &[f64], at: usize, out: &mut [u8])
    requires { at + 8 * length src.now ≤ length out.old }
    ensures { out.new ≡ splice out.old at (bytes_of src.now) }
{
    put(src, at, out);
}

pub fn put_numbers(src: &[u16], at: usize, out: &mut [u8])
    requires { at + 2 * length src.now ≤ length out.old }
    ensures { out.new ≡ splice out.old at (bytes_of_numbers src.now) }
{
    put(src, at, out);
}
