// Both gradients on two blocks: joints that are read, and a scratch block.
ghost use Rattle.std.specs.Prelude.{◌≡◌, length};
ghost use Rattle.task.specs.Task.{given_in};
ghost use Rattle.gradient.specs.Gradient.{value_at, slopes_of};
ghost use Rattle.refusals.specs.Number.{number_of};
ghost use Rattle.calls.specs.Answer.{answer_value, value_if};
ghost use Rattle.calls.specs.AcceptedTask.{AcceptedTask, slopes_refusal, FrontIfTaken};

use gradient::gradient as two_blocks;
use gradient::slopes::Rule;
use refusals::refusal::Refusal;
use refusals::{lengths, lent};
use task::picks::Picks;

#[tactic(auto, unfolding(refusals::specs::Lowest::first_of, crate::specs::AcceptedTask::slopes_refusal))]
fn slopes_refusal(
    codes: &[u16],
    joints: &[f64],
    scratch: usize,
    slopes: usize,
) -> Result<(), Refusal>
    ensures { number_of result ≡ slopes_refusal codes.now joints.now scratch slopes }
{
    let n = lengths::block_length(codes);
    lent::block_refusal(codes, joints)?;
    lent::room_refusal(n, scratch)?;
    lent::room_refusal(n, slopes)
}

// The slopes by the rule: `gradient`, or `gradient_finite_diff`.
#[tactic(auto, using(crate::specs::AcceptedTask::tasks), unfolding(crate::specs::Answer::value_if, crate::specs::Arms::if_taken))]
pub fn gradient(
    rule: Rule,
    counts: &[u16],
    codes: &[u16],
    floats: &[f64],
    task: &[f64],
    picks: Picks,
    joints: &[f64],
    scratch: &mut [f64],
    slopes: &mut [f64],
) -> Result<f64, Refusal>
    requires { AcceptedTask counts.now codes.now task.now floats.now }
    ensures number { number_of result ≡ slopes_refusal codes.now joints.now (length scratch.old) (length slopes.old) }
    ensures value { answer_value result ≡ value_if (number_of result) (value_at (given_in counts codes task picks) floats.now joints.now) }
    ensures scratch { FrontIfTaken (number_of result) scratch joints.now }
    ensures slopes { FrontIfTaken (number_of result) slopes (slopes_of rule (given_in counts codes task picks) floats.now joints.now) }
{
    slopes_refusal(codes, joints, scratch.len(), slopes.len())?;
    let v = two_blocks::gradient(
        rule, counts, codes, floats, task, picks, joints, scratch, slopes,
    );
    Ok(v)
}
