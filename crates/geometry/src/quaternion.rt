// Quaternions, w first, and rotations by them.
#![tactic(auto, unfolding(crate::specs::Quaternion::product_of, crate::specs::Quaternion::inverse_of, crate::specs::Quaternion::axis_of, crate::specs::Quaternion::twice_of, crate::specs::Quaternion::rotate_of, crate::specs::Quaternion::identity_of, crate::specs::Quaternion::quat_x_of, crate::specs::Quaternion::quat_y_of, crate::specs::Quaternion::quat_z_of, crate::specs::Quaternion::turn_axis_of, crate::specs::Quaternion::scaled_axis_of))]

ghost use Rattle.std.specs.Prelude.{◌≡◌};
ghost use Rattle.geometry.specs.Quaternion.{product_of, inverse_of, axis_of, twice_of, rotate_of, identity_of, quat_x_of, quat_y_of, quat_z_of, turn_axis_of, scaled_axis_of};

use crate::vector;
use crate::vector::Vec3;
use standins::series::SineCosine;
use standins::{cut, series};

#[derive(Clone, Copy)]
pub struct Quat {
    pub w: f64,
    pub i: f64,
    pub j: f64,
    pub k: f64,
}

pub fn product(a: Quat, b: Quat) -> Quat
    ensures { result ≡ product_of a b }
{
    Quat {
        w: a.w * b.w - a.i * b.i - a.j * b.j - a.k * b.k,
        i: a.w * b.i + a.i * b.w + a.j * b.k - a.k * b.j,
        j: a.w * b.j - a.i * b.k + a.j * b.w + a.k * b.i,
        k: a.w * b.k + a.i * b.j - a.j * b.i + a.k * b.w,
    }
}

pub fn inverse(q: Quat) -> Quat
    ensures { result ≡ inverse_of q }
{
    Quat {
        w: q.w,
        i: -q.i,
        j: -q.j,
        k: -q.k,
    }
}

fn axis(q: Quat) -> Vec3
    ensures { result ≡ axis_of q }
{
    Vec3 {
        x: q.i,
        y: q.j,
        z: q.k,
    }
}

fn twice(v: Vec3) -> Vec3
    ensures { result ≡ twice_of v }
{
    Vec3 {
        x: 2.0 * v.x,
        y: 2.0 * v.y,
        z: 2.0 * v.z,
    }
}

// v turned by q.
pub fn rotate(q: Quat, v: Vec3) -> Vec3
    ensures { result ≡ rotate_of q v }
{
    let u = axis(q);
    let t = twice(vector::cross(u, v));
    vector::add(vector::add(vector::scale(t, q.w), vector::cross(u, t)), v)
}

pub fn identity() -> Quat
    ensures { result ≡ identity_of }
{
    Quat {
        w: 1.0,
        i: 0.0,
        j: 0.0,
        k: 0.0,
    }
}

// A turn by v about x, as `from_euler_angles` makes it.
pub fn get_quat_x(v: f64) -> Quat
    ensures { result ≡ quat_x_of v }
{
    let SineCosine { sine, cosine } = series::sine_cosine(v * 0.5);
    Quat {
        w: cosine,
        i: sine,
        j: 0.0,
        k: 0.0,
    }
}

pub fn get_quat_y(v: f64) -> Quat
    ensures { result ≡ quat_y_of v }
{
    let SineCosine { sine, cosine } = series::sine_cosine(v * 0.5);
    Quat {
        w: cosine,
        i: 0.0,
        j: sine,
        k: 0.0,
    }
}

pub fn get_quat_z(v: f64) -> Quat
    ensures { result ≡ quat_z_of v }
{
    let SineCosine { sine, cosine } = series::sine_cosine(v * 0.5);
    Quat {
        w: cosine,
        i: 0.0,
        j: 0.0,
        k: sine,
    }
}

fn turn_axis(q: Quat) -> Vec3
    ensures { result ≡ turn_axis_of q }
{
    let u = axis(q);
    if q.w < 0.0 {
        return vector::negate(u);
    }
    u
}

// The rotation axis of q, its length the rotation angle.
pub fn scaled_axis(q: Quat) -> Vec3
    ensures { result ≡ scaled_axis_of q }
{
    let norm = vector::norm(axis(q));
    if norm == 0.0 {
        return vector::zero();
    }
    let angle = 2.0 * series::atan2(norm, cut::abs(q.w));
    vector::scale(vector::over(turn_axis(q), norm), angle)
}
