// The rotations of goals without tolerance, in numbers, answered one component at a time.
ghost use Rattle.std.specs.Prelude.{◌≡◌};
ghost use Rattle.geometry.specs.Quaternion.{quat};
ghost use Rattle.utils_rust.specs.Acos.{acos_of};
ghost use Rattle.utils_rust.specs.Transformations.{from_quaternion, quaternion_log, quaternion_disp, angle_between_quaternion};
ghost use Rattle.exports.specs.Parts.{vec_part, quat_part};

use crate::shapes;
use geometry::quaternion::Quat;
use utils_rust::{acos, transformations};

#[unsafe(no_mangle)]
pub extern "C" fn relaxed_ik_acos(w: f64) -> f64
    ensures { result ≡ acos_of w }
{
    acos::acos(w)
}

#[unsafe(no_mangle)]
pub extern "C" fn relaxed_ik_from_quaternion(w: f64, i: f64, j: f64, k: f64, part: u32) -> f64
    ensures { result ≡ quat_part (from_quaternion (quat w i j k)) part }
{
    shapes::quat_part(transformations::from_quaternion(Quat { w, i, j, k }), part)
}

#[unsafe(no_mangle)]
pub extern "C" fn relaxed_ik_quaternion_log(w: f64, i: f64, j: f64, k: f64, part: u32) -> f64
    ensures { result ≡ vec_part (quaternion_log (quat w i j k)) part }
{
    shapes::vec_part(transformations::quaternion_log(Quat { w, i, j, k }), part)
}

#[unsafe(no_mangle)]
pub extern "C" fn relaxed_ik_quaternion_disp(
    w: f64,
    i: f64,
    j: f64,
    k: f64,
    w2: f64,
    i2: f64,
    j2: f64,
    k2: f64,
    part: u32,
) -> f64
    ensures { result ≡ vec_part (quaternion_disp (quat w i j k) (quat w2 i2 j2 k2)) part }
{
    let q = Quat { w, i, j, k };
    let q_prime = Quat {
        w: w2,
        i: i2,
        j: j2,
        k: k2,
    };
    shapes::vec_part(transformations::quaternion_disp(q, q_prime), part)
}

#[unsafe(no_mangle)]
pub extern "C" fn relaxed_ik_angle_between_quaternion(
    w: f64,
    i: f64,
    j: f64,
    k: f64,
    w2: f64,
    i2: f64,
    j2: f64,
    k2: f64,
) -> f64
    ensures { result ≡ angle_between_quaternion (quat w i j k) (quat w2 i2 j2 k2) }
{
    let q = Quat { w, i, j, k };
    let q_prime = Quat {
        w: w2,
        i: i2,
        j: j2,
        k: k2,
    };
    transformations::angle_between_quaternion(q, q_prime)
}
