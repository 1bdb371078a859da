// `gradient`, each objective's slope by a step of 1e-7, and `gradient_finite_diff`, the slope of the weighted sum by a step of 1e-6: one rule's difference.
ghost use Rattle.std.specs.Prelude.{◌≡◌, ◌≤◌, ◌<◌, length};
ghost use Rattle.lists.specs.Splice.{splice};
ghost use Rattle.task.specs.Task.{given_in};
ghost use Rattle.gradient.specs.Gradient.{value_at, slope_at, slopes_of};
ghost use Rattle.gradient.specs.Ready.{Ready, Known};

use crate::slopes::Rule;
use crate::{slopes, value};
use lists;
use objective_master::relaxed_ik;
use task::parts;
use task::picks::Picks;

// What is asked of a joint: its slope under a rule, where the objective's value is f_0.
#[derive(Clone, Copy)]
struct Asked {
    rule: Rule,
    joint: usize,
    f_0: f64,
}

// The slope along a joint, the losses of the block as it stands being f_0s. The block gets its old value back.
fn slope(
    asked: Asked,
    counts: &[u16],
    codes: &[u16],
    floats: &[f64],
    task: &[f64],
    picks: Picks,
    scratch: &mut [f64],
    kinds: &[u16],
    f_0s: &[f64],
    poses: &mut [f64],
    f_hs: &mut [f64],
) -> f64
    requires ready { Ready counts.now codes.now task.now floats.now scratch.old × (asked.joint < length scratch.old) }
    requires known { Known counts.now codes.now task.now picks floats.now scratch.old kinds.now asked.f_0 f_0s.now poses.old f_hs.old }
    ensures value { result ≡ slope_at asked.rule (given_in counts codes task picks) floats.now scratch.old asked.joint }
    ensures scratch_unchanged { scratch.new ≡ scratch.old }
{
    let joint = asked.joint;
    let rule = asked.rule;
    let old = scratch[joint];
    scratch[joint] = old + slopes::step(rule);
    value::losses_of(counts, codes, floats, task, picks, scratch, poses, f_hs);
    scratch[joint] = old;
    slopes::slope(rule, parts::weights(task), kinds, asked.f_0, f_0s, f_hs)
}

// The slopes along all joints.
fn put_gradient(
    rule: Rule,
    counts: &[u16],
    codes: &[u16],
    floats: &[f64],
    task: &[f64],
    picks: Picks,
    scratch: &mut [f64],
    kinds: &[u16],
    f_0: f64,
    f_0s: &[f64],
    poses: &mut [f64],
    f_hs: &mut [f64],
    slopes: &mut [f64],
)
    requires ready { Ready counts.now codes.now task.now floats.now scratch.old × (length scratch.old ≤ length slopes.old) }
    requires known { Known counts.now codes.now task.now picks floats.now scratch.old kinds.now f_0 f_0s.now poses.old f_hs.old }
    ensures slopes_after { slopes.new ≡ splice slopes.old 0 (slopes_of rule (given_in counts codes task picks) floats.now scratch.old) }
    ensures scratch_unchanged { scratch.new ≡ scratch.old }
{
    for joint in 0..scratch.len() {
        let asked = Asked { rule, joint, f_0 };
        slopes[joint] = slope(
            asked, counts, codes, floats, task, picks, scratch, kinds, f_0s, poses, f_hs,
        );
    }
}

// Value and slopes at the block that scratch holds.
fn gradient_on(
    rule: Rule,
    counts: &[u16],
    codes: &[u16],
    floats: &[f64],
    task: &[f64],
    picks: Picks,
    scratch: &mut [f64],
    slopes: &mut [f64],
) -> f64
    requires { Ready counts.now codes.now task.now floats.now scratch.old × (length scratch.old ≤ length slopes.old) }
    ensures value { result ≡ value_at (given_in counts codes task picks) floats.now scratch.old }
    ensures slopes_after { slopes.new ≡ splice slopes.old 0 (slopes_of rule (given_in counts codes task picks) floats.now scratch.old) }
    ensures scratch_unchanged { scratch.new ≡ scratch.old }
{
    let mut poses = [0.0; 448];
    let mut f_0s = [0.0; 131];
    let mut f_hs = [0.0; 131];
    let mut list = [0u16; 131];
    let n = relaxed_ik::relaxed_ik(counts, codes, picks, &mut list);
    let kinds = &list[..n];
    let f_0 = value::value_of(
        counts, codes, floats, task, picks, scratch, kinds, &mut poses, &mut f_0s,
    );
    put_gradient(
        rule, counts, codes, floats, task, picks, scratch, kinds, f_0, &f_0s, &mut poses,
        &mut f_hs, slopes,
    );
    f_0
}

// The joints are read; scratch is raised joint by joint, and holds the joints in the end.
pub fn gradient(
    rule: Rule,
    counts: &[u16],
    codes: &[u16],
    floats: &[f64],
    task: &[f64],
    picks: Picks,
    joints: &[f64],
    scratch: &mut [f64],
    slopes: &mut [f64],
) -> f64
    requires { Ready counts.now codes.now task.now floats.now joints.now × (length joints.now ≤ length scratch.old) × (length joints.now ≤ length slopes.old) }
    ensures value { result ≡ value_at (given_in counts codes task picks) floats.now joints.now }
    ensures slopes_after { slopes.new ≡ splice slopes.old 0 (slopes_of rule (given_in counts codes task picks) floats.now joints.now) }
    ensures scratch_after { scratch.new ≡ splice scratch.old 0 joints.now }
{
    lists::copy(joints, scratch);
    gradient_on(
        rule,
        counts,
        codes,
        floats,
        task,
        picks,
        &mut scratch[..joints.len()],
        slopes,
    )
}
