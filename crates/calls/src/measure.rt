// The manipulability of the arms.
ghost use Rattle.std.specs.Prelude.{◌≡◌, ◌≤◌, length};
ghost use Rattle.sheet.specs.Chain.{total};
ghost use Rattle.spacetime.specs.Walk.{pose_of};
ghost use Rattle.manipulability.specs.Jacobian.{manipulability_of};
ghost use Rattle.refusals.specs.Refusal.{block_refusal};
ghost use Rattle.calls.specs.Arms.{Accepted};
ghost use Rattle.refusals.specs.Number.{number_of};
ghost use Rattle.calls.specs.Answer.{answer_value, value_if};
ghost use Rattle.calls.specs.Six.{any_six};

use manipulability::robot;
use manipulability::view::Poses;
use refusals::lent;
use refusals::refusal::Refusal;
use sheet::chain;
use spacetime::arm;

// Whether a chain has six joints or more; with fewer its manipulability is 0.
fn any_six(counts: &[u16], codes: &[u16]) -> bool
    requires { (total counts.now ≡ length codes.now) × (length codes.now ≤ 64) }
    ensures { result ≡ any_six counts.now codes.now }
{
    let mut under = true;
    let mut link: usize = 0;
    let mut joint: usize = 0;
    for n in counts {
        link += *n as usize;
        let next = chain::joint_number(codes, link);
        // No branch: every chain is looked at.
        under &= next - joint < 6;
        joint = next;
    }
    !under
}

#[tactic(auto, unfolding(crate::specs::Answer::value_if))]
pub fn manipulability(
    counts: &[u16],
    codes: &[u16],
    floats: &[f64],
    block: &[f64],
) -> Result<f64, Refusal>
    requires { Accepted counts.now codes.now floats.now }
    ensures number { number_of result ≡ block_refusal codes.now block.now }
    ensures value { answer_value result ≡ value_if (number_of result)
        (manipulability_of (pose_of counts.now codes.now floats.now block.now) counts.now codes.now) }
{
    lent::block_refusal(codes, block)?;
    if !any_six(counts, codes) {
        return Ok(0.0);
    }
    let mut poses = [0.0; 448];
    arm::get_frames_immutable(counts, codes, floats, block, &mut poses);
    // Nothing was walked again: the view's tail is empty.
    let view = Poses {
        base: &poses,
        tail: &block[0..0],
        from: 0,
        to: 0,
    };
    Ok(robot::get_manipulability_immutable(counts, codes, view))
}
