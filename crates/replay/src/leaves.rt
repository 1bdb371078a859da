// The stand-ins, losses and shapes by themselves, by their call numbers. `b` has the floats asked, as bytes.
ghost use Rattle.std.specs.Prelude.{◌≡◌, ◌≤◌};
ghost use Rattle.lists.specs.Listed.{listed};
ghost use Rattle.geometry.specs.Matrix.{determinant_of, gram_of};
ghost use Rattle.lent_bytes.specs.Bytes.{float_at};
ghost use Rattle.lent_bytes.specs.Lent.{floats_in};
ghost use Rattle.replay.specs.Leaves.{vec_at, quat_at, groove_loss_at, swamp_groove_loss_at, swamp_loss_at, standin_of, loss_of, measure_of, quat_of, vec_of};

use geometry::quaternion::Quat;
use geometry::vector::Vec3;
use geometry::{matrix, quaternion, segment, vector};
use groove::objective;
use lent_bytes::bytes::float_at;
use lent_bytes::{bytes, lent};
use standins::{cut, power, series};

pub fn vec_at(b: &[u8], i: usize) -> Vec3
    requires { i ≤ 9 }
    ensures { result ≡ vec_at b.now i }
{
    Vec3 {
        x: float_at(b, i),
        y: float_at(b, i + 1),
        z: float_at(b, i + 2),
    }
}

pub fn quat_at(b: &[u8], i: usize) -> Quat
    requires { i ≤ 4 }
    ensures { result ≡ quat_at b.now i }
{
    Quat {
        w: float_at(b, i),
        i: float_at(b, i + 1),
        j: float_at(b, i + 2),
        k: float_at(b, i + 3),
    }
}

pub fn standin(call: usize, b: &[u8]) -> f64
    ensures { result ≡ standin_of call b.now }
{
    match call {
        11 => root::sqrt(float_at(b, 0)),
        12 => series::sin(float_at(b, 0)),
        13 => series::cos(float_at(b, 0)),
        14 => series::exp(float_at(b, 0)),
        15 => series::atan2(float_at(b, 0), float_at(b, 1)),
        16 => power::power20(float_at(b, 0)),
        17 => power::power30(float_at(b, 0)),
        18 => power::b20(),
        19 => power::b30(),
        20 => cut::cut(float_at(b, 0)),
        _ => cut::abs(float_at(b, 0)),
    }
}

fn groove_loss(b: &[u8]) -> f64
    ensures { result ≡ groove_loss_at b.now }
{
    objective::groove_loss(
        float_at(b, 0),
        float_at(b, 1),
        float_at(b, 2),
        float_at(b, 3),
    )
}

fn swamp_groove_loss(b: &[u8]) -> f64
    ensures { result ≡ swamp_groove_loss_at b.now }
{
    objective::swamp_groove_loss(
        float_at(b, 0),
        float_at(b, 1),
        float_at(b, 2),
        float_at(b, 3),
        float_at(b, 4),
        float_at(b, 5),
        float_at(b, 6),
        float_at(b, 7),
    )
}

fn swamp_loss(b: &[u8], p1: u16) -> f64
    ensures { result ≡ swamp_loss_at b.now p1 }
{
    objective::swamp_loss(
        float_at(b, 0),
        float_at(b, 1),
        float_at(b, 2),
        float_at(b, 3),
        float_at(b, 4),
        p1,
    )
}

pub fn loss(call: usize, b: &[u8]) -> f64
    ensures { result ≡ loss_of call b.now }
{
    match call {
        22 => groove_loss(b),
        23 => swamp_groove_loss(b),
        24 => swamp_loss(b, 20),
        25 => swamp_loss(b, 30),
        26 => objective::match_ee_posi_dof(float_at(b, 0), float_at(b, 1)),
        27 => objective::match_ee_rota_dof(float_at(b, 0), float_at(b, 1)),
        _ => objective::each_joint_limits(float_at(b, 0), float_at(b, 1), float_at(b, 2)),
    }
}

fn determinant(b: &[u8]) -> f64
    ensures { result ≡ determinant_of (listed (float_at b.now) 36) }
{
    let mut m = [0.0; 36];
    bytes::floats(b, &mut m);
    matrix::determinant(m)
}

pub fn measure(call: usize, b: &[u8]) -> f64
    ensures { result ≡ measure_of call b.now }
{
    match call {
        29 => vector::norm(vec_at(b, 0)),
        30 => segment::distance(vec_at(b, 0), vec_at(b, 3), vec_at(b, 6), vec_at(b, 9)),
        _ => determinant(b),
    }
}

pub fn quat(call: usize, b: &[u8]) -> Quat
    ensures { result ≡ quat_of call b.now }
{
    match call {
        32 => quaternion::product(quat_at(b, 0), quat_at(b, 4)),
        33 => quaternion::inverse(quat_at(b, 0)),
        34 => quaternion::get_quat_x(float_at(b, 0)),
        35 => quaternion::get_quat_y(float_at(b, 0)),
        _ => quaternion::get_quat_z(float_at(b, 0)),
    }
}

pub fn vec(call: usize, b: &[u8]) -> Vec3
    ensures { result ≡ vec_of call b.now }
{
    match call {
        37 => quaternion::rotate(quat_at(b, 0), vec_at(b, 4)),
        38 => vector::cross(vec_at(b, 0), vec_at(b, 3)),
        _ => quaternion::scaled_axis(quat_at(b, 0)),
    }
}

// Columns of six floats, at most sixteen.
pub fn gram(b: &[u8]) -> [f64; 36]
    ensures { result ≡ gram_of (floats_in 96 b.now) }
{
    let mut j = [0.0; 96];
    let n = lent::floats(b, &mut j);
    matrix::gram(&j[..n])
}
