// Whether an answer agrees with the stored one: the number, and every output byte for byte.
ghost use Rattle.std.specs.Prelude.{◌≡◌, ◌+◌, ◌≤◌, length, map};
ghost use Rattle.stored_answers.specs.Agree.{same_bytes, answer_agrees};

use crate::stored::Record;

pub fn same(a: &[u8], b: &[u8]) -> bool
    ensures { result ≡ same_bytes a.now b.now }
{
    a == b
}

// A number, and outputs that are stored from list k on.
pub fn agrees(r: Record, number: u32, k: usize, outputs: &[&[u8]]) -> bool
    requires { k + length outputs.now ≤ 21 }
    ensures { result ≡ answer_agrees r.entry.s.now r.entry.at number k (map (λ o. o.now) outputs.now) }
{
    if number as usize != r.number() {
        return false;
    }
    for (i, output) in outputs.iter().enumerate() {
        if !same(output, r.list(k + i)) {
            return false;
        }
    }
    true
}
