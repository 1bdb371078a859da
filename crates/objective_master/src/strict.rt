// objective.rs: `MatchEEPosGoals` and `MatchEEQuatGoals`, the objectives of a goal without tolerance.
ghost use Rattle.std.specs.Prelude.{◌≡◌};
ghost use Rattle.objective_master.specs.Strict.{min_of, negative_of, angle_from, pos_goals_loss, quat_goals_loss};

use geometry::quaternion::Quat;
use geometry::vector;
use geometry::vector::Vec3;
use groove::objective;
use utils_rust::transformations;

// Rust's `min`: a NaN gives way to a number.
fn min(a: f64, b: f64) -> f64
    ensures { result ≡ min_of a b }
{
    if a != a {
        return b;
    }
    if b < a {
        return b;
    }
    a
}

fn negative(q: Quat) -> Quat
    ensures { result ≡ negative_of q }
{
    Quat {
        w: -q.w,
        i: -q.i,
        j: -q.j,
        k: -q.k,
    }
}

// The end's rotation as it stands, and its negative, which is the same turn.
fn angle_from(goal: Quat, end: Quat) -> f64
    ensures { result ≡ angle_from goal end }
{
    let ee_quat2 = transformations::from_quaternion(negative(end));
    let disp = transformations::angle_between_quaternion(goal, end);
    let disp2 = transformations::angle_between_quaternion(goal, ee_quat2);
    min(disp, disp2)
}

pub fn pos_goals_loss(goal: Vec3, end: Vec3) -> f64
    ensures { result ≡ pos_goals_loss goal end }
{
    objective::match_ee_pos_goals(vector::norm(vector::sub(end, goal)))
}

pub fn quat_goals_loss(goal: Quat, end: Quat) -> f64
    ensures { result ≡ quat_goals_loss goal end }
{
    objective::match_ee_quat_goals(angle_from(goal, end))
}
