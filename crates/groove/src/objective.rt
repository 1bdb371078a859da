// objective.rs: the losses, which loss each objective has, and the objectives on their arguments. Wherever they are used d = g = 2.
ghost use Rattle.std.specs.Prelude.{◌≡◌, ◌≤◌, length};
ghost use Rattle.groove.specs.Loss.{groove_loss, scaled_of, bounds_penalty, swamp_groove_loss, swamp_loss, evaluate_of, narrow_of, room_loss, position_loss, rotation_loss, pair_loss, manipulability_loss, free_of, limits_loss, change_loss, strict_loss, match_ee_posi_dof, match_ee_rota_dof, self_collision, maximize_manipulability, each_joint_limits, minimize_velocity, minimize_acceleration, minimize_jerk, match_ee_pos_goals, match_ee_quat_goals, roots_of, changes_of, any_nan};

// The losses by kind, each with its own centre, bounds, widths and factors.
#[derive(Clone, Copy)]
pub enum Loss {
    Groove {
        t: f64,
        c: f64,
        f: f64,
    },
    SwampGroove {
        g: f64,
        l_bound: f64,
        u_bound: f64,
        c: f64,
        f1: f64,
        f2: f64,
        f3: f64,
    },
    Swamp {
        l_bound: f64,
        u_bound: f64,
        f1: f64,
        f2: f64,
        p1: u16,
    },
    FixedCost(f64),
}

// How much the joints move, as norms over the joints.
#[derive(Clone, Copy)]
pub struct Changes {
    pub velocity: f64,
    pub acceleration: f64,
    pub jerk: f64,
}

pub fn groove_loss(x_val: f64, t: f64, c: f64, f: f64) -> f64
    ensures { result ≡ groove_loss x_val t c f }
{
    let d = x_val - t;
    -standins::series::exp(-(d * d) / (2.0 * (c * c))) + f * (d * d)
}

// The place between the bounds: -1 at the lower, 1 at the upper.
fn scaled(x_val: f64, l_bound: f64, u_bound: f64) -> f64
    ensures { result ≡ scaled_of x_val l_bound u_bound }
{
    (2.0 * x_val - l_bound - u_bound) / (u_bound - l_bound)
}

// Near 0 inside the bounds, near 1 outside. Any power other than 30 counts as 20.
fn bounds_penalty(x: f64, p1: u16) -> f64
    ensures { result ≡ bounds_penalty x p1 }
{
    if p1 == 30 {
        return 1.0 - standins::series::exp(-standins::power::power30(x / standins::power::b30()));
    }
    1.0 - standins::series::exp(-standins::power::power20(x / standins::power::b20()))
}

// p1 = 20 wherever it is used.
pub fn swamp_groove_loss(
    x_val: f64,
    g: f64,
    l_bound: f64,
    u_bound: f64,
    c: f64,
    f1: f64,
    f2: f64,
    f3: f64,
) -> f64
    ensures { result ≡ swamp_groove_loss x_val g l_bound u_bound c f1 f2 f3 }
{
    let x = scaled(x_val, l_bound, u_bound);
    let d = x_val - g;
    -f1 * standins::series::exp(-(d * d) / (2.0 * (c * c)))
        + f2 * (d * d)
        + f3 * bounds_penalty(x, 20)
}

pub fn swamp_loss(x_val: f64, l_bound: f64, u_bound: f64, f1: f64, f2: f64, p1: u16) -> f64
    ensures { result ≡ swamp_loss x_val l_bound u_bound f1 f2 p1 }
{
    let x = scaled(x_val, l_bound, u_bound);
    (f1 + f2 * (x * x)) * bounds_penalty(x, p1) - 1.0
}

pub fn evaluate(loss: Loss, x_val: f64) -> f64
    ensures { result ≡ evaluate_of loss x_val }
{
    match loss {
        Loss::Groove { t, c, f } => groove_loss(x_val, t, c, f),
        Loss::SwampGroove {
            g,
            l_bound,
            u_bound,
            c,
            f1,
            f2,
            f3,
        } => swamp_groove_loss(x_val, g, l_bound, u_bound, c, f1, f2, f3),
        Loss::Swamp {
            l_bound,
            u_bound,
            f1,
            f2,
            p1,
        } => swamp_loss(x_val, l_bound, u_bound, f1, f2, p1),
        Loss::FixedCost(cost) => cost,
    }
}

// Whether a tolerance counts as none.
fn narrow(bound: f64) -> bool
    ensures { result ≡ narrow_of bound }
{
    bound <= 0.01
}

// The loss of a tolerance that leaves room.
fn room_loss(bound: f64) -> Loss
    ensures { result ≡ room_loss bound }
{
    Loss::SwampGroove {
        g: 0.0,
        l_bound: -bound,
        u_bound: bound,
        c: bound * 2.0,
        f1: 1.0,
        f2: 0.01,
        f3: 100.0,
    }
}

pub fn position_loss(bound: f64) -> Loss
    ensures { result ≡ position_loss bound }
{
    if narrow(bound) {
        return Loss::Groove {
            t: 0.0,
            c: 0.1,
            f: 10.0,
        };
    }
    room_loss(bound)
}

pub fn rotation_loss(bound: f64) -> Loss
    ensures { result ≡ rotation_loss bound }
{
    if narrow(bound) {
        return Loss::Groove {
            t: 0.0,
            c: 0.1,
            f: 10.0,
        };
    }
    if bound >= 3.14159260 {
        return Loss::Swamp {
            l_bound: -bound,
            u_bound: bound,
            f1: 100.0,
            f2: 0.1,
            p1: 20,
        };
    }
    room_loss(bound)
}

pub fn pair_loss(any_nan: bool) -> Loss
    ensures { result ≡ pair_loss any_nan }
{
    if any_nan {
        return Loss::FixedCost(10.0);
    }
    Loss::Swamp {
        l_bound: 0.02,
        u_bound: 1.5,
        f1: 60.0,
        f2: 0.0001,
        p1: 30,
    }
}

pub fn manipulability_loss() -> Loss
    ensures { result ≡ manipulability_loss }
{
    Loss::Groove {
        t: 1.0,
        c: 0.5,
        f: 0.1,
    }
}

// Whether a pair of limits stands for none.
pub fn free(l: f64, u: f64) -> bool
    ensures { result ≡ free_of l u }
{
    l == -999.0 && u == 999.0
}

pub fn limits_loss(l: f64, u: f64) -> Loss
    ensures { result ≡ limits_loss l u }
{
    if free(l, u) {
        return Loss::FixedCost(-1.0);
    }
    Loss::Swamp {
        l_bound: l,
        u_bound: u,
        f1: 10.0,
        f2: 10.0,
        p1: 20,
    }
}

pub fn change_loss() -> Loss
    ensures { result ≡ change_loss }
{
    Loss::Groove {
        t: 0.0,
        c: 0.1,
        f: 10.0,
    }
}

// A goal without tolerance.
pub fn strict_loss() -> Loss
    ensures { result ≡ strict_loss }
{
    Loss::Groove {
        t: 0.0,
        c: 0.1,
        f: 10.0,
    }
}

// The objectives, each on its argument.
// Kept: several have one body, since each has the name that it has in the source.
pub fn match_ee_posi_dof(dist: f64, bound: f64) -> f64
    ensures { result ≡ match_ee_posi_dof dist bound }
{
    evaluate(position_loss(bound), dist)
}

pub fn match_ee_rota_dof(angle: f64, bound: f64) -> f64
    ensures { result ≡ match_ee_rota_dof angle bound }
{
    evaluate(rotation_loss(bound), angle)
}

pub fn self_collision(dis: f64, any_nan: bool) -> f64
    ensures { result ≡ self_collision dis any_nan }
{
    evaluate(pair_loss(any_nan), dis)
}

pub fn maximize_manipulability(x_val: f64) -> f64
    ensures { result ≡ maximize_manipulability x_val }
{
    evaluate(manipulability_loss(), x_val)
}

pub fn each_joint_limits(x: f64, l: f64, u: f64) -> f64
    ensures { result ≡ each_joint_limits x l u }
{
    evaluate(limits_loss(l, u), x)
}

pub fn minimize_velocity(x_val: f64) -> f64
    ensures { result ≡ minimize_velocity x_val }
{
    evaluate(change_loss(), x_val)
}

pub fn minimize_acceleration(x_val: f64) -> f64
    ensures { result ≡ minimize_acceleration x_val }
{
    evaluate(change_loss(), x_val)
}

pub fn minimize_jerk(x_val: f64) -> f64
    ensures { result ≡ minimize_jerk x_val }
{
    evaluate(change_loss(), x_val)
}

pub fn match_ee_pos_goals(x_val: f64) -> f64
    ensures { result ≡ match_ee_pos_goals x_val }
{
    evaluate(strict_loss(), x_val)
}

pub fn match_ee_quat_goals(x_val: f64) -> f64
    ensures { result ≡ match_ee_quat_goals x_val }
{
    evaluate(strict_loss(), x_val)
}

// The roots of the three sums.
fn roots(velocity: f64, acceleration: f64, jerk: f64) -> Changes
    ensures { result ≡ roots_of velocity acceleration jerk }
{
    Changes {
        velocity: root::sqrt(velocity),
        acceleration: root::sqrt(acceleration),
        jerk: root::sqrt(jerk),
    }
}

// The arguments of the three, in one loop.
pub fn joint_changes(x: &[f64], xopt: &[f64], prev_state: &[f64], prev_state2: &[f64]) -> Changes
    requires { (length x.now ≤ length xopt.now) × (length x.now ≤ length prev_state.now) × (length x.now ≤ length prev_state2.now) }
    ensures { result ≡ changes_of x.now xopt.now prev_state.now prev_state2.now }
{
    let mut velocity = 0.0;
    let mut acceleration = 0.0;
    let mut jerk = 0.0;
    for i in 0..x.len() {
        let v1 = x[i] - xopt[i];
        let v2 = xopt[i] - prev_state[i];
        let v3 = prev_state[i] - prev_state2[i];
        let a1 = v1 - v2;
        let a2 = v2 - v3;
        velocity = velocity + v1 * v1;
        acceleration = acceleration + a1 * a1;
        jerk = jerk + (a1 - a2) * (a1 - a2);
    }
    roots(velocity, acceleration, jerk)
}

// Whether some joint is a NaN.
pub fn any_nan(x: &[f64]) -> bool
    ensures { result ≡ any_nan x.now }
{
    x.iter().any(|v| v.is_nan())
}
