// transformations.rs: the logarithm of a rotation, and the angle between two.
// Beside them `from_quaternion`, which `MatchEEQuatGoals` asks for.
ghost use Rattle.std.specs.Prelude.{◌≡◌};
ghost use Rattle.utils_rust.specs.Transformations.{from_quaternion, quaternion_log, quaternion_disp, angle_between_quaternion};

use crate::acos;
use geometry::quaternion::Quat;
use geometry::vector::Vec3;
use geometry::{quaternion, vector};
use standins::{cut, series};

// nalgebra's `UnitQuaternion::from_quaternion`.
pub fn from_quaternion(q: Quat) -> Quat
    ensures { result ≡ from_quaternion q }
{
    let norm = root::sqrt(q.w * q.w + q.i * q.i + q.j * q.j + q.k * q.k);
    Quat {
        w: q.w / norm,
        i: q.i / norm,
        j: q.j / norm,
        k: q.k / norm,
    }
}

pub fn quaternion_log(q: Quat) -> Vec3
    ensures { result ≡ quaternion_log q }
{
    let out_vec = Vec3 {
        x: q.i,
        y: q.j,
        z: q.k,
    };
    if cut::abs(q.w) < 1.0 {
        let a = acos::acos(q.w);
        let sina = series::sin(a);
        if cut::abs(sina) >= 0.005 {
            let c = a / sina;
            return vector::scale(out_vec, c);
        }
    }
    out_vec
}

pub fn quaternion_disp(q: Quat, q_prime: Quat) -> Vec3
    ensures { result ≡ quaternion_disp q q_prime }
{
    quaternion_log(quaternion::product(quaternion::inverse(q), q_prime))
}

pub fn angle_between_quaternion(q: Quat, q_prime: Quat) -> f64
    ensures { result ≡ angle_between_quaternion q q_prime }
{
    vector::norm(quaternion_disp(q, q_prime)) * 2.0
}
