// A list that was lent, decoded: an array and how much of it is in use.
ghost use Rattle.std.specs.Prelude.{◌≡◌, ◌≤◌, List, [], take};

use crate::element::Element;
use crate::lent;
use std::marker::Model;
use std::ops::DerefSlice;

#[derive(Drop)]
pub struct Held<T, const N: usize> {
    list: [T; N],
    len: usize,
}

// Clauses see the elements in use.
impl<T, const N: usize> Model for Held<T, N> {
    ghost Value = { List T };

    ghost view = { λ h. take h.len h.list };

    ghost invariant = { λ h. h.len ≤ N };
}

impl<T: Copy + Default, const N: usize> Held<T, N> {
    pub fn empty() -> Self
        ensures { result ≡ [] }
    {
        Held {
            list: [T::default(); N],
            len: 0,
        }
    }
}

impl<T, const N: usize> Held<T, N> {
    pub fn new(list: [T; N], len: usize) -> Self
        requires { len ≤ N }
        ensures { result ≡ take len list }
    {
        Held { list, len }
    }
}

impl<T, const N: usize> DerefSlice for Held<T, N> {
    type Elem = T;

    ghost deref_gives = { λ h xs. xs ≡ h };

    fn deref(&self) -> &[T] {
        &self.list[..self.len]
    }
}

// The elements of a byte list, of which at most N are taken, in the place of what was held.
pub fn refill<T: Element<W>, const W: usize, const N: usize>(b: &[u8], held: &mut Held<T, N>)
    ensures { held.new ≡ T.taken N b.now }
{
    held.len = lent::decode(b, &mut held.list);
}

pub fn decode<T: Element<W>, const W: usize, const N: usize>(b: &[u8]) -> Held<T, N>
    ensures { result ≡ T.taken N b.now }
{
    let mut held = Held::empty();
    refill(b, &mut held);
    held
}
