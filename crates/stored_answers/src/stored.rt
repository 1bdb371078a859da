// The stored list of answers: records one behind the other, each a call, a number and lists of bytes.
ghost use Rattle.std.specs.Prelude.{◌≡◌, ◌+◌, ◌*◌, ◌≤◌, ◌<◌, ◌^◌, length};
ghost use Rattle.stored_answers.specs.Stored.{number_at, part_of, place_of, list_of};

use lent_bytes::bytes;

// The u16 at a place, 0 where the list ends before it.
pub fn number_at(s: &[u8], at: usize) -> usize
    requires { at ≤ 2 ^ 60 }
    ensures { (result ≡ number_at s.now at) × (result < 65536) }
{
    if s.len() < at + 2 {
        return 0;
    }
    bytes::pair_at(s, at) as usize
}

// So many bytes from a place on, none where the list ends before them.
fn part(s: &[u8], from: usize, n: usize) -> &[u8]
    requires { (from ≤ 2 ^ 60) × (n < 65536) }
    ensures { (result.now ≡ part_of s.now from n) × (length result.now < 65536) }
{
    let to = from + n;
    if s.len() < to {
        return &s[0..0];
    }
    &s[from..to]
}

// The record of the list `s` that begins at `at`.
#[derive(Clone, Copy)]
pub struct Record<'a> {
    pub s: &'a [u8],
    pub at: usize,
    ghost near: { at ≤ 2 ^ 40 },
}

impl<'a> Record<'a> {
    pub fn call(self) -> usize
        ensures { (result ≡ number_at self.entry.s.now self.entry.at) × (result < 65536) }
    {
        number_at(self.s, self.at)
    }

    // The number that the call answered.
    pub fn number(self) -> usize
        ensures { (result ≡ number_at self.entry.s.now (self.entry.at + 2)) × (result < 65536) }
    {
        number_at(self.s, self.at + 2)
    }

    // Where list k begins.
    pub fn place(self, k: usize) -> usize
        requires { k ≤ 20 }
        ensures { (result ≡ place_of self.entry.s.now self.entry.at k) × (result ≤ self.entry.at + 4 + 65537 * k) }
    {
        let mut p = self.at + 4;
        for i in 0..k {
            p = p + 2 + number_at(self.s, p);
        }
        p
    }

    // The bytes of list k.
    pub fn list(self, k: usize) -> &'a [u8]
        requires { k ≤ 20 }
        ensures { (result.now ≡ list_of self.entry.s.now self.entry.at k) × (length result.now < 65536) }
    {
        let p = self.place(k);
        part(self.s, p + 2, number_at(self.s, p))
    }
}
