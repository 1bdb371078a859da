// The objective.
ghost use Rattle.std.specs.Prelude.{◌≡◌};
ghost use Rattle.task.specs.Task.{given_in};
ghost use Rattle.refusals.specs.Refusal.{block_refusal};
ghost use Rattle.gradient.specs.Gradient.{value_at};
ghost use Rattle.refusals.specs.Number.{number_of};
ghost use Rattle.calls.specs.Answer.{answer_value, value_if};
ghost use Rattle.calls.specs.AcceptedTask.{AcceptedTask};

use gradient::value;
use refusals::lent;
use refusals::refusal::Refusal;
use task::picks::Picks;

#[tactic(auto, using(crate::specs::AcceptedTask::ready_of), unfolding(crate::specs::Answer::value_if))]
pub fn objective(
    counts: &[u16],
    codes: &[u16],
    floats: &[f64],
    task: &[f64],
    picks: Picks,
    block: &[f64],
) -> Result<f64, Refusal>
    requires { AcceptedTask counts.now codes.now task.now floats.now }
    ensures number { number_of result ≡ block_refusal codes.now block.now }
    ensures value { answer_value result ≡ value_if (number_of result) (value_at (given_in counts codes task picks) floats.now block.now) }
{
    lent::block_refusal(codes, block)?;
    let v = value::objective(counts, codes, floats, task, picks, block);
    Ok(v)
}
