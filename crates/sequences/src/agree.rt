// Whether an answer agrees with the stored one: the number, then output after output as bytes.
ghost use Rattle.std.specs.Prelude.{◌≡◌, cond, false, [], ◌∷◌, ◌≤◌, ◌<◌, length};
ghost use Rattle.refusals.specs.Number.{number_of};
ghost use Rattle.calls.specs.Answer.{answer_value};
ghost use Rattle.lent_bytes.specs.Lent.{bytes_of};
ghost use Rattle.stored_answers.specs.Stored.{list_of};
ghost use Rattle.stored_answers.specs.Agree.{same_bytes, answer_agrees};

use calls::answer;
use lent_bytes::element::Element;
use lent_bytes::lent;
use refusals::refusal::{Refusal, number_of};
use stored_answers::agree::same;
use stored_answers::stored::Record;

pub fn number(r: Record, number: u16) -> bool
    ensures { result ≡ answer_agrees r.entry.s.now r.entry.at number 0 [] }
{
    number as usize == r.number()
}

// Whether the bytes of elements are `b`.
fn same_elements<T: Element<N>, const N: usize>(xs: &[T], b: &[u8]) -> bool
    requires { length b.now < 65536 }
    ensures { result ≡ same_bytes (T.laid xs.now) b.now }
{
    if 65536 / N < xs.len() {
        return false;
    }
    let mut out = [0u8; 65536];
    let n = N * xs.len();
    lent::put(xs, 0, &mut out);
    same(&out[..n], b)
}

// What came before agrees, and so do elements that are stored as list k.
pub fn elements<T: Element<N>, const N: usize>(agreed: bool, r: Record, k: usize, xs: &[T]) -> bool
    requires { k ≤ 12 }
    ensures { result ≡ cond agreed (same_bytes (T.laid xs.now) (list_of r.entry.s.now r.entry.at k)) false }
{
    agreed && same_elements(xs, r.list(k))
}

// A number, and a value that is stored as list k.
pub fn answered(r: Record, k: usize, given: Result<f64, Refusal>) -> bool
    requires { k ≤ 12 }
    ensures { result ≡ answer_agrees r.entry.s.now r.entry.at (number_of given) k (bytes_of (answer_value given ∷ []) ∷ []) }
{
    let a = number(r, number_of(given));
    elements(a, r, k, &[answer::value(given)])
}
