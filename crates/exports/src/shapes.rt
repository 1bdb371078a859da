// Vectors and quaternions in numbers, answered one component at a time.
ghost use Rattle.std.specs.Prelude.{◌≡◌};
ghost use Rattle.geometry.specs.Vector.{cross_of, norm_of, vec};
ghost use Rattle.geometry.specs.Quaternion.{product_of, inverse_of, rotate_of, scaled_axis_of, quat};
ghost use Rattle.geometry.specs.Segment.{distance_of};
ghost use Rattle.exports.specs.Parts.{vec_part, quat_part, get_quat_part};

use geometry::quaternion::Quat;
use geometry::vector::Vec3;
use geometry::{quaternion, segment, vector};

// Component `part` of a vector: 0 to 2 for x, y, z; any other is a NaN.
pub(crate) fn vec_part(v: Vec3, part: u32) -> f64
    ensures { result ≡ vec_part v part }
{
    if part == 0 {
        return v.x;
    }
    if part == 1 {
        return v.y;
    }
    if part == 2 {
        return v.z;
    }
    0.0 / 0.0
}

// Component `part` of a quaternion: 0 to 3 for w, i, j, k; any other is a NaN.
pub(crate) fn quat_part(q: Quat, part: u32) -> f64
    ensures { result ≡ quat_part q part }
{
    if part == 0 {
        return q.w;
    }
    if part == 1 {
        return q.i;
    }
    if part == 2 {
        return q.j;
    }
    if part == 3 {
        return q.k;
    }
    0.0 / 0.0
}

#[unsafe(no_mangle)]
pub extern "C" fn relaxed_ik_quat_product(
    aw: f64,
    ai: f64,
    aj: f64,
    ak: f64,
    bw: f64,
    bi: f64,
    bj: f64,
    bk: f64,
    part: u32,
) -> f64
    ensures { result ≡ quat_part (product_of (quat aw ai aj ak) (quat bw bi bj bk)) part }
{
    let a = Quat {
        w: aw,
        i: ai,
        j: aj,
        k: ak,
    };
    let b = Quat {
        w: bw,
        i: bi,
        j: bj,
        k: bk,
    };
    quat_part(quaternion::product(a, b), part)
}

#[unsafe(no_mangle)]
pub extern "C" fn relaxed_ik_quat_inverse(w: f64, i: f64, j: f64, k: f64, part: u32) -> f64
    ensures { result ≡ quat_part (inverse_of (quat w i j k)) part }
{
    quat_part(quaternion::inverse(Quat { w, i, j, k }), part)
}

#[unsafe(no_mangle)]
pub extern "C" fn relaxed_ik_rotate(
    w: f64,
    i: f64,
    j: f64,
    k: f64,
    x: f64,
    y: f64,
    z: f64,
    part: u32,
) -> f64
    ensures { result ≡ vec_part (rotate_of (quat w i j k) (vec x y z)) part }
{
    vec_part(
        quaternion::rotate(Quat { w, i, j, k }, Vec3 { x, y, z }),
        part,
    )
}

#[unsafe(no_mangle)]
pub extern "C" fn relaxed_ik_cross(
    x: f64,
    y: f64,
    z: f64,
    x2: f64,
    y2: f64,
    z2: f64,
    part: u32,
) -> f64
    ensures { result ≡ vec_part (cross_of (vec x y z) (vec x2 y2 z2)) part }
{
    let b = Vec3 {
        x: x2,
        y: y2,
        z: z2,
    };
    vec_part(vector::cross(Vec3 { x, y, z }, b), part)
}

#[unsafe(no_mangle)]
pub extern "C" fn relaxed_ik_norm(x: f64, y: f64, z: f64) -> f64
    ensures { result ≡ norm_of (vec x y z) }
{
    vector::norm(Vec3 { x, y, z })
}

// Axis 0 to 2 for x, y, z; any other is a NaN.
#[unsafe(no_mangle)]
pub extern "C" fn relaxed_ik_get_quat(axis: u32, v: f64, part: u32) -> f64
    ensures { result ≡ get_quat_part axis v part }
{
    if axis == 0 {
        return quat_part(quaternion::get_quat_x(v), part);
    }
    if axis == 1 {
        return quat_part(quaternion::get_quat_y(v), part);
    }
    if axis == 2 {
        return quat_part(quaternion::get_quat_z(v), part);
    }
    0.0 / 0.0
}

#[unsafe(no_mangle)]
pub extern "C" fn relaxed_ik_scaled_axis(w: f64, i: f64, j: f64, k: f64, part: u32) -> f64
    ensures { result ≡ vec_part (scaled_axis_of (quat w i j k)) part }
{
    vec_part(quaternion::scaled_axis(Quat { w, i, j, k }), part)
}

#[unsafe(no_mangle)]
pub extern "C" fn relaxed_ik_segment_distance(
    ax: f64,
    ay: f64,
    az: f64,
    bx: f64,
    by: f64,
    bz: f64,
    cx: f64,
    cy: f64,
    cz: f64,
    dx: f64,
    dy: f64,
    dz: f64,
) -> f64
    ensures { result ≡ distance_of (vec ax ay az) (vec bx by bz) (vec cx cy cz) (vec dx dy dz) }
{
    let start1 = Vec3 {
        x: ax,
        y: ay,
        z: az,
    };
    let end1 = Vec3 {
        x: bx,
        y: by,
        z: bz,
    };
    let start2 = Vec3 {
        x: cx,
        y: cy,
        z: cz,
    };
    let end2 = Vec3 {
        x: dx,
        y: dy,
        z: dz,
    };
    segment::distance(start1, end1, start2, end2)
}
