// The objective at a block of joints that is walked afresh.
ghost use Rattle.std.specs.Prelude.{◌≡◌, ◌*◌, ◌≤◌, length};
ghost use Rattle.lists.specs.Splice.{splice};
ghost use Rattle.task.specs.Task.{given_in};
ghost use Rattle.objective_master.specs.Kinds.{kinds_of};
ghost use Rattle.gradient.specs.Gradient.{losses_at, value_at};
ghost use Rattle.gradient.specs.Ready.{Ready};

use manipulability::view::Poses;
use objective_master::{losses, relaxed_ik, weights};
use spacetime::arm;
use task::parts;
use task::picks::Picks;

// The losses of all objectives; `poses` gets the walk.
pub fn losses_of(
    counts: &[u16],
    codes: &[u16],
    floats: &[f64],
    task: &[f64],
    picks: Picks,
    x: &[f64],
    poses: &mut [f64],
    out: &mut [f64],
)
    requires ready { Ready counts.now codes.now task.now floats.now x.now }
    requires codes_in_bounds { (7 * length codes.now ≤ length poses.old) × (length (kinds_of picks counts.now codes.now) ≤ length out.old) }
    ensures { out.new ≡ splice out.old 0 (losses_at (given_in counts codes task picks) floats.now x.now) }
{
    arm::get_frames_immutable(counts, codes, floats, x, poses);
    let all = Poses {
        base: poses,
        tail: poses,
        from: 0,
        to: codes.len(),
    };
    losses::put_losses(counts, codes, task, picks, x, all, None, out);
}

// The objective's value; `out` gets the losses.
pub fn value_of(
    counts: &[u16],
    codes: &[u16],
    floats: &[f64],
    task: &[f64],
    picks: Picks,
    x: &[f64],
    kinds: &[u16],
    poses: &mut [f64],
    out: &mut [f64],
) -> f64
    requires ready { Ready counts.now codes.now task.now floats.now x.now × (kinds.now ≡ kinds_of picks counts.now codes.now) }
    requires codes_in_bounds { (7 * length codes.now ≤ length poses.old) × (length kinds.now ≤ length out.old) }
    ensures value { result ≡ value_at (given_in counts codes task picks) floats.now x.now }
    ensures out_after { out.new ≡ splice out.old 0 (losses_at (given_in counts codes task picks) floats.now x.now) }
{
    losses_of(counts, codes, floats, task, picks, x, poses, out);
    weights::weighted_sum(parts::weights(task), kinds, out)
}

// The objective's value, with a list for the poses.
fn objective_in(
    counts: &[u16],
    codes: &[u16],
    floats: &[f64],
    task: &[f64],
    picks: Picks,
    x: &[f64],
    poses: &mut [f64],
) -> f64
    requires { Ready counts.now codes.now task.now floats.now x.now × (7 * length codes.now ≤ length poses.old) }
    ensures { result ≡ value_at (given_in counts codes task picks) floats.now x.now }
{
    let mut losses = [0.0; 131];
    let mut kinds = [0u16; 131];
    let n = relaxed_ik::relaxed_ik(counts, codes, picks, &mut kinds);
    value_of(
        counts,
        codes,
        floats,
        task,
        picks,
        x,
        &kinds[..n],
        poses,
        &mut losses,
    )
}

// A list is set to zero at every call, so a sheet of few links gets a short one.
pub fn objective(
    counts: &[u16],
    codes: &[u16],
    floats: &[f64],
    task: &[f64],
    picks: Picks,
    x: &[f64],
) -> f64
    requires { Ready counts.now codes.now task.now floats.now x.now }
    ensures { result ≡ value_at (given_in counts codes task picks) floats.now x.now }
{
    if codes.len() <= 16 {
        let mut few = [0.0; 112];
        return objective_in(counts, codes, floats, task, picks, x, &mut few);
    }
    let mut poses = [0.0; 448];
    objective_in(counts, codes, floats, task, picks, x, &mut poses)
}
