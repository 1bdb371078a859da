// The losses on numbers, and those of the goals and limits on their arguments.
ghost use Rattle.std.specs.Prelude.{◌≡◌};
ghost use Rattle.geometry.specs.Vector.{vec};
ghost use Rattle.geometry.specs.Quaternion.{quat};
ghost use Rattle.groove.specs.Loss.{groove_loss, swamp_groove_loss, swamp_loss, match_ee_posi_dof, match_ee_rota_dof, each_joint_limits};
ghost use Rattle.objective_master.specs.Strict.{pos_goals_loss, quat_goals_loss};

use geometry::quaternion::Quat;
use geometry::vector::Vec3;
use groove::objective;
use objective_master::strict;

#[unsafe(no_mangle)]
pub extern "C" fn relaxed_ik_groove_loss(x_val: f64, t: f64, c: f64, f: f64) -> f64
    ensures { result ≡ groove_loss x_val t c f }
{
    objective::groove_loss(x_val, t, c, f)
}

#[unsafe(no_mangle)]
pub extern "C" fn relaxed_ik_swamp_groove_loss(
    x_val: f64,
    g: f64,
    l_bound: f64,
    u_bound: f64,
    c: f64,
    f1: f64,
    f2: f64,
    f3: f64,
) -> f64
    ensures { result ≡ swamp_groove_loss x_val g l_bound u_bound c f1 f2 f3 }
{
    objective::swamp_groove_loss(x_val, g, l_bound, u_bound, c, f1, f2, f3)
}

#[unsafe(no_mangle)]
pub extern "C" fn relaxed_ik_swamp_loss(
    x_val: f64,
    l_bound: f64,
    u_bound: f64,
    f1: f64,
    f2: f64,
    p1: u16,
) -> f64
    ensures { result ≡ swamp_loss x_val l_bound u_bound f1 f2 p1 }
{
    objective::swamp_loss(x_val, l_bound, u_bound, f1, f2, p1)
}

#[unsafe(no_mangle)]
pub extern "C" fn relaxed_ik_loss_position(dist: f64, bound: f64) -> f64
    ensures { result ≡ match_ee_posi_dof dist bound }
{
    objective::match_ee_posi_dof(dist, bound)
}

#[unsafe(no_mangle)]
pub extern "C" fn relaxed_ik_loss_rotation(angle: f64, bound: f64) -> f64
    ensures { result ≡ match_ee_rota_dof angle bound }
{
    objective::match_ee_rota_dof(angle, bound)
}

#[unsafe(no_mangle)]
pub extern "C" fn relaxed_ik_loss_limits(x: f64, l: f64, u: f64) -> f64
    ensures { result ≡ each_joint_limits x l u }
{
    objective::each_joint_limits(x, l, u)
}

// Goals without tolerance: the goal's position or rotation, then the end's.
#[unsafe(no_mangle)]
pub extern "C" fn relaxed_ik_loss_pos_goals(
    gx: f64,
    gy: f64,
    gz: f64,
    x: f64,
    y: f64,
    z: f64,
) -> f64
    ensures { result ≡ pos_goals_loss (vec gx gy gz) (vec x y z) }
{
    let goal = Vec3 {
        x: gx,
        y: gy,
        z: gz,
    };
    let end = Vec3 { x, y, z };
    strict::pos_goals_loss(goal, end)
}

#[unsafe(no_mangle)]
pub extern "C" fn relaxed_ik_loss_quat_goals(
    gw: f64,
    gi: f64,
    gj: f64,
    gk: f64,
    w: f64,
    i: f64,
    j: f64,
    k: f64,
) -> f64
    ensures { result ≡ quat_goals_loss (quat gw gi gj gk) (quat w i j k) }
{
    let goal = Quat {
        w: gw,
        i: gi,
        j: gj,
        k: gk,
    };
    let end = Quat { w, i, j, k };
    strict::quat_goals_loss(goal, end)
}
