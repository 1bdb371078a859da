// objective.rs and `relaxed_ik`: what the objectives cost, in their order, of poses read through a view.
ghost use Rattle.std.specs.Prelude.{◌≡◌, true, false, ◌++◌, ◌+◌, ◌*◌, ◌≤◌, ◌<◌, length};
ghost use Rattle.lists.specs.Splice.{splice};
ghost use Rattle.lists.specs.Runs.{runs};
ghost use Rattle.sheet.specs.Chain.{total};
ghost use Rattle.task.specs.Task.{task_length, xopt_of, prev_state_of, prev_state2_of, given_of, given_in};
ghost use Rattle.spacetime.specs.Floats.{flat_vec};
ghost use Rattle.spacetime.specs.Tool.{tip_of};
ghost use Rattle.spacetime.specs.Frames.{Chains};
ghost use Rattle.manipulability.specs.View.{seen_by, HasLinks, walked_again};
ghost use Rattle.manipulability.specs.Jacobian.{Counted};
ghost use Rattle.objective_master.specs.Objective.{goal_width};
ghost use Rattle.objective_master.specs.Losses.{tolerance_at, off_goal, turn_from_goal, off_losses, turn_losses, strict_losses, pose_losses, goal_losses, limit_losses, change_losses, motion_losses, losses_of, Lent};
ghost use Rattle.objective_master.specs.Cached.{end_again, is_raised, CachedPiece, CachedPieces, Cached};

use crate::{relaxed_ik, strict};
use geometry::pose::Pose;
use geometry::vector::Vec3;
use geometry::{quaternion, vector};
use groove::objective;
use manipulability::robot;
use manipulability::view::Poses;
use self_collision::pairs;
use spacetime::{floats, tool};
use standins::cut;
use task::parts;
use task::picks::Picks;

fn tolerance(goals: &[f64], c: usize, a: usize) -> f64
    requires { 13 * c + 7 + a < length goals.now }
    ensures { result ≡ tolerance_at goals.now c a }
{
    goals[13 * c + 7 + a]
}

// A chain's end position as its goal sees it.
fn off_goal(goals: &[f64], c: usize, end: Pose) -> Vec3
    requires { 13 * c + 13 ≤ length goals.now }
    ensures { result ≡ off_goal goals.now c end }
{
    let q = quaternion::inverse(floats::get_quat(goals, 13 * c + 3));
    let p = end.position;
    quaternion::rotate(q, vector::sub(p, floats::get_vec(goals, 13 * c)))
}

// The turn from a chain's goal to its end.
fn turn_from_goal(goals: &[f64], c: usize, end: Pose) -> Vec3
    requires { 13 * c + 13 ≤ length goals.now }
    ensures { result ≡ turn_from_goal goals.now c end }
{
    let q = quaternion::inverse(floats::get_quat(goals, 13 * c + 3));
    let p = end.rotation;
    quaternion::scaled_axis(quaternion::product(q, p))
}

// Along the three axes; the point is worked out once.
fn off_losses(goals: &[f64], c: usize, end: Pose) -> Vec3
    requires { 13 * c + 13 ≤ length goals.now }
    ensures { flat_vec result ≡ off_losses goals.now c end }
{
    let v = off_goal(goals, c, end);
    Vec3 {
        x: objective::match_ee_posi_dof(v.x, tolerance(goals, c, 0)),
        y: objective::match_ee_posi_dof(v.y, tolerance(goals, c, 1)),
        z: objective::match_ee_posi_dof(v.z, tolerance(goals, c, 2)),
    }
}

// About the three axes; the turn is worked out once.
fn turn_losses(goals: &[f64], c: usize, end: Pose) -> Vec3
    requires { 13 * c + 13 ≤ length goals.now }
    ensures { flat_vec result ≡ turn_losses goals.now c end }
{
    let v = turn_from_goal(goals, c, end);
    Vec3 {
        x: objective::match_ee_rota_dof(0.0 + cut::abs(v.x), tolerance(goals, c, 3)),
        y: objective::match_ee_rota_dof(0.0 + cut::abs(v.y), tolerance(goals, c, 4)),
        z: objective::match_ee_rota_dof(0.0 + cut::abs(v.z), tolerance(goals, c, 5)),
    }
}

fn put_tolerance_losses(goals: &[f64], c: usize, end: Pose, at: usize, out: &mut [f64])
    requires { (13 * c + 13 ≤ length goals.now) × (at + goal_width false ≤ length out.old) }
    ensures { out.new ≡ splice out.old at (off_losses goals.now c end ++ turn_losses goals.now c end) }
{
    let offs = off_losses(goals, c, end);
    let turns = turn_losses(goals, c, end);
    floats::put_vec(out, at, offs);
    floats::put_vec(out, at + 3, turns);
}

fn put_strict_losses(goals: &[f64], c: usize, end: Pose, at: usize, out: &mut [f64])
    requires { (13 * c + 13 ≤ length goals.now) × (at + goal_width true ≤ length out.old) }
    ensures { out.new ≡ splice out.old at (strict_losses goals.now c end) }
{
    let goal_position = floats::get_vec(goals, 13 * c);
    let goal_quat = floats::get_quat(goals, 13 * c + 3);
    out[at] = strict::pos_goals_loss(goal_position, end.position);
    out[at + 1] = strict::quat_goals_loss(goal_quat, end.rotation);
}

// Of the list that was picked.
fn put_pose_losses(goals: &[f64], c: usize, end: Pose, picks: Picks, at: usize, out: &mut [f64])
    requires { (13 * c + 13 ≤ length goals.now) × (at + goal_width picks.strict ≤ length out.old) }
    ensures { out.new ≡ splice out.old at (pose_losses picks.strict goals.now c end) }
{
    if picks.strict {
        put_strict_losses(goals, c, end, at, out);
        return;
    }
    put_tolerance_losses(goals, c, end, at, out);
}

// Chain c's goal. If its last link was not walked again, its losses stand already.
fn put_goal(
    goals: &[f64],
    tools: &[f64],
    poses: Poses<'_>,
    link: usize,
    c: usize,
    picks: Picks,
    at: usize,
    out: &mut [f64],
)
    requires c_in_bounds { (13 * c + 13 ≤ length goals.now) × (8 * c + 8 ≤ length tools.now) × (at + goal_width picks.strict ≤ length out.old) }
    requires view { HasLinks poses (link + 1) }
    requires cached_piece { CachedPiece (walked_again poses.from poses.to link) at
        (pose_losses picks.strict goals.now c (tip_of tools.now c (seen_by poses link))) out.old }
    ensures { out.new ≡ splice out.old at
        (pose_losses picks.strict goals.now c (tip_of tools.now c (seen_by poses.entry link))) }
{
    if poses.walked_again(link) {
        let last = poses.pose(link);
        let end = tool::tip(tools, c, last);
        put_pose_losses(goals, c, end, picks, at, out);
        return;
    }
}

// The goals of all chains, from the front on.
fn put_goals(
    counts: &[u16],
    goals: &[f64],
    tools: &[f64],
    poses: Poses<'_>,
    picks: Picks,
    out: &mut [f64],
)
    requires chains { Chains counts.now × (13 * length counts.now ≤ length goals.now) × (8 * length counts.now ≤ length tools.now) }
    requires view { HasLinks poses (total counts.now) }
    requires cached_pieces { CachedPieces (goal_losses picks.strict counts.now goals.now tools.now (seen_by poses)) (goal_width picks.strict)
        (end_again counts.now poses.from poses.to) 0 (length counts.now) out.old }
    ensures { out.new ≡ splice out.old 0
        (runs (goal_losses picks.strict counts.now goals.now tools.now (seen_by poses.entry)) 0 (length counts.now)) }
{
    let mut l: usize = 0;
    for (c, count) in counts.iter().enumerate() {
        let end = l + *count as usize;
        let at = relaxed_ik::goals_to(picks, c);
        put_goal(goals, tools, poses, end - 1, c, picks, at, out);
        l = end;
    }
}

// Joint j was raised; with none, all joints are new.
fn is_raised(raised: Option<usize>, j: usize) -> bool
    ensures { result ≡ is_raised raised j }
{
    match raised {
        Some(joint) => joint == j,
        None => true,
    }
}

// Joint j's limits. If another joint was raised, the loss stands already.
fn put_limit(limits: &[f64], x: &[f64], raised: Option<usize>, j: usize, at: usize, out: &mut [f64])
    requires j_in_bounds { (j < length x.now) × (2 * j + 2 ≤ length limits.now) × (at < length out.old) }
    requires cached_piece { CachedPiece (is_raised raised j) at (limit_losses limits.now x.now j) out.old }
    ensures { out.new ≡ splice out.old at (limit_losses limits.now x.now j) }
{
    if is_raised(raised, j) {
        out[at] = objective::each_joint_limits(x[j], limits[2 * j], limits[2 * j + 1]);
        return;
    }
}

fn put_limits(limits: &[f64], x: &[f64], raised: Option<usize>, at: usize, out: &mut [f64])
    requires x_in_bounds { 2 * length x.now ≤ length limits.now }
    requires cached_pieces { CachedPieces (limit_losses limits.now x.now) 1 (is_raised raised) at (length x.now) out.old }
    ensures { out.new ≡ splice out.old at
        (runs (limit_losses limits.now x.now) 0 (length x.now)) }
{
    for j in 0..x.len() {
        put_limit(limits, x, raised, j, at + j, out);
    }
}

// Velocity, acceleration and jerk.
fn put_changes(task: &[f64], x: &[f64], at: usize, out: &mut [f64])
    requires { (length task.now ≡ task_length) × (length x.now ≤ 16) × (at + 3 ≤ length out.old) }
    ensures { out.new ≡ splice out.old at (change_losses x.now
        (xopt_of (length x.now) task.now) (prev_state_of (length x.now) task.now) (prev_state2_of (length x.now) task.now)) }
{
    let xopt = parts::xopt(task, x.len());
    let prev_state = parts::prev_state(task, x.len());
    let prev_state2 = parts::prev_state2(task, x.len());
    let v = objective::joint_changes(x, xopt, prev_state, prev_state2);
    let three = Vec3 {
        x: objective::minimize_velocity(v.velocity),
        y: objective::minimize_acceleration(v.acceleration),
        z: objective::minimize_jerk(v.jerk),
    };
    floats::put_vec(out, at, three);
}

// The four of all joints.
fn put_motion(
    counts: &[u16],
    codes: &[u16],
    task: &[f64],
    x: &[f64],
    poses: Poses<'_>,
    at: usize,
    out: &mut [f64],
)
    requires task_len { (length task.now ≡ task_length) × (length x.now ≤ 16) × (at + 4 ≤ length out.old) }
    requires counted { Counted counts.now codes.now × HasLinks poses (length codes.now) }
    ensures { out.new ≡ splice out.old at
        (motion_losses (seen_by poses.entry) counts.now codes.now x.now
        (xopt_of (length x.now) task.now) (prev_state_of (length x.now) task.now) (prev_state2_of (length x.now) task.now)) }
{
    let m = robot::get_manipulability_immutable(counts, codes, poses);
    put_changes(task, x, at, out);
    out[at + 3] = objective::maximize_manipulability(m);
}

// The losses of all objectives, from the front of `out` on: those of objectives that read no link walked again and no joint raised
// stand in `out` already, and are left there.
pub fn put_losses(
    counts: &[u16],
    codes: &[u16],
    task: &[f64],
    picks: Picks,
    x: &[f64],
    poses: Poses<'_>,
    raised: Option<usize>,
    out: &mut [f64],
)
    requires lent { Lent counts.now codes.now task.now x.now poses.base.now poses.tail.now poses.from poses.to }
    requires cached { Cached (given_of counts.now codes.now task.now picks) (seen_by poses)
        x.now poses.from poses.to raised out.old }
    ensures { out.new ≡ splice out.old 0
        (losses_of (given_in counts codes task picks) (seen_by poses.entry) x.now) }
{
    let goals = parts::goals(task, counts.len());
    let tools = parts::tools(task, counts.len());
    put_goals(counts, goals, tools, poses, picks, out);
    let n = relaxed_ik::goals_to(picks, counts.len());
    let limits = parts::limits(task, x.len());
    put_limits(limits, x, raised, n, out);
    let m = n + x.len();
    put_motion(counts, codes, task, x, poses, m, out);
    let any_nan = objective::any_nan(x);
    pairs::put_pairs(counts, codes, poses, any_nan, m + 4, out);
}
