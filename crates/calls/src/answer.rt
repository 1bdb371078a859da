// What a call that answers one float gives back: the value, or the refusal.
ghost use Rattle.std.specs.Prelude.{◌≡◌};
ghost use Rattle.calls.specs.Answer.{answer_value};

use refusals::refusal::Refusal;

// The value of an answer, NaN for a refusal.
pub fn value(answer: Result<f64, Refusal>) -> f64
    ensures { result ≡ answer_value answer }
{
    answer.unwrap_or(0.0 / 0.0)
}
