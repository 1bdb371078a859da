// The gradient on one block, which is raised and put back joint after joint, and its record.
ghost use Rattle.std.specs.Prelude.{◌≡◌, ◌≤◌, length};
ghost use Rattle.task.specs.Task.{given_in};
ghost use Rattle.gradient.specs.Gradient.{value_at, gradient_of};
ghost use Rattle.calls.specs.Arms.{Accepted};
ghost use Rattle.refusals.specs.Number.{number_of};
ghost use Rattle.calls.specs.Answer.{answer_value, value_if};
ghost use Rattle.calls.specs.AcceptedTask.{AcceptedTask, FrontIfTaken};
ghost use Rattle.calls.specs.OneBlock.{record_refusal, one_block_refusal, RecordIfTaken};

use one_block::grad;
use refusals::refusal::Refusal;
use refusals::{lengths, lent};
use task::picks::Picks;

#[tactic(auto, unfolding(refusals::specs::Lowest::first_of, crate::specs::OneBlock::record_refusal))]
pub fn record_refusal(
    entries: usize,
    joints: usize,
    links: usize,
    poses: usize,
) -> Result<(), Refusal>
    requires { entries ≤ 4160 }
    ensures { number_of result ≡ record_refusal entries joints links poses }
{
    lent::room_refusal(entries, joints)?;
    lent::room_refusal(entries, links)?;
    lent::room_refusal(lengths::record_poses_length(entries), poses)
}

#[tactic(auto, unfolding(refusals::specs::Lowest::first_of, crate::specs::OneBlock::one_block_refusal))]
fn one_block_refusal(
    counts: &[u16],
    codes: &[u16],
    floats: &[f64],
    block: &[f64],
    slopes: usize,
    record_joints: usize,
    record_links: usize,
    record_poses: usize,
) -> Result<(), Refusal>
    requires { Accepted counts.now codes.now floats.now }
    ensures { number_of result ≡ one_block_refusal counts.now codes.now block.now slopes record_joints record_links record_poses }
{
    lent::block_refusal(codes, block)?;
    lent::room_refusal(lengths::block_length(codes), slopes)?;
    let entries = grad::entries(counts, codes);
    record_refusal(entries, record_joints, record_links, record_poses)
}

// Each objective's slope by a step of 1e-7. The block ends as it came, refused or not.
#[tactic(auto, using(crate::specs::OneBlock::tasks), unfolding(crate::specs::Answer::value_if, crate::specs::Arms::if_taken))]
pub fn gradient_one_block(
    counts: &[u16],
    codes: &[u16],
    floats: &[f64],
    task: &[f64],
    picks: Picks,
    block: &mut [f64],
    slopes: &mut [f64],
    record_joints: &mut [u16],
    record_links: &mut [u16],
    record_poses: &mut [f64],
) -> Result<f64, Refusal>
    requires { AcceptedTask counts.now codes.now task.now floats.now }
    ensures number { number_of result ≡ one_block_refusal counts.now codes.now block.old (length slopes.old) (length record_joints.old) (length record_links.old) (length record_poses.old) }
    ensures value { answer_value result ≡ value_if (number_of result) (value_at (given_in counts codes task picks) floats.now block.old) }
    ensures block { block.new ≡ block.old }
    ensures slopes { FrontIfTaken (number_of result) slopes (gradient_of (given_in counts codes task picks) floats.now block.old) }
    ensures record_written { RecordIfTaken (number_of result) record_joints record_links record_poses counts.now codes.now floats.now block.old }
{
    one_block_refusal(
        counts,
        codes,
        floats,
        block,
        slopes.len(),
        record_joints.len(),
        record_links.len(),
        record_poses.len(),
    )?;
    let v = grad::gradient(
        counts,
        codes,
        floats,
        task,
        picks,
        block,
        slopes,
        record_joints,
        record_links,
        record_poses,
    );
    Ok(v)
}
