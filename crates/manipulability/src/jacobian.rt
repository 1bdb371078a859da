// arm.rs: the Jacobian of a chain and its manipulability, from the poses of a view.
ghost use Rattle.std.specs.Prelude.{◌≡◌, ◌+◌, ◌-◌, ◌*◌, ◌≤◌, ◌<◌, length, get_or, take};
ghost use Rattle.lists.specs.Splice.{splice};
ghost use Rattle.lists.specs.Listed.{listed};
ghost use Rattle.sheet.specs.Chain.{joints_of, joints_in};
ghost use Rattle.manipulability.specs.View.{seen_by, HasLinks};
ghost use Rattle.manipulability.specs.Jacobian.{axis_piece, axes_of, filling_of, unit_of, start_filling, axis_vector, column_of, filled_of, turns_at, step_at, jacobian_of, manipulability_in, Part};

use crate::view::Poses;
use geometry::pose::Pose;
use geometry::quaternion::Quat;
use geometry::vector::Vec3;
use geometry::{matrix, vector};
use sheet::code::Kind;
use sheet::{chain, code, reader};
use spacetime::{arm, floats};
use standins::cut;

// What the walk of a chain carries beside the matrix.
#[derive(Clone, Copy)]
pub struct Fill {
    pub column: usize,
    pub axis: Vec3,
}

// Adds the axis of a link's joint to those of the joints before it.
fn put_axis(codes: &[u16], link: usize, axes: &mut [u16; 16], joint: usize) -> usize
    requires { (link < length codes.now) × (joint + joints_of (get_or codes.now link 0) ≤ 16) × (length axes.old ≡ 16) }
    ensures { (result ≡ joint + joints_of (get_or codes.now link 0)) × (axes.new ≡ splice axes.old joint (axis_piece codes.now link)) }
{
    let k = reader::read(codes, link);
    if !code::has_joint(k) {
        return joint;
    }
    axes[joint] = code::axis(k);
    joint + 1
}

// The axes of a chain's joints, in order.
fn joint_axes(codes: &[u16], first: usize, end: usize) -> [u16; 16]
    requires { Part codes.now first end }
    ensures { take (joints_in codes.now first end) result ≡ axes_of codes.now first (end - first) }
{
    let mut axes = [0u16; 16];
    let mut joint: usize = 0;
    for link in first..end {
        joint = put_axis(codes, link, &mut axes, joint);
    }
    axes
}

fn unit(i: usize) -> f64
    ensures { result ≡ unit_of i }
{
    if i % 6 == i / 6 {
        return 1.0;
    }
    0.0
}

fn identity(j: &mut [f64])
    ensures { j.new ≡ listed unit_of (length j.old) }
{
    for (i, x) in j.iter_mut().enumerate() {
        *x = unit(i);
    }
}

fn axis_vector(axis: u16, q: Quat, old: Vec3) -> Vec3
    ensures { result ≡ axis_vector axis q old }
{
    if axis == 0 {
        return old;
    }
    arm::own_axis(q, axis)
}

fn put_column(j: &mut [f64], at: usize, v: Vec3, end: Vec3, position: Vec3)
    requires { at + 6 ≤ length j.old }
    ensures { j.new ≡ splice j.old at (column_of v end position) }
{
    let linear = vector::cross(v, vector::sub(end, position));
    floats::put_vec(j, at, linear);
    floats::put_vec(j, at + 3, v);
}

fn fill_column(p: Pose, end: Vec3, axis: u16, s: Fill, j: &mut [f64]) -> Fill
    requires { 6 * s.column + 6 ≤ length j.old }
    ensures { filling_of result j.new ≡ filled_of p end axis (filling_of s j.old) }
{
    let v = axis_vector(axis, p.rotation, s.axis);
    let c = s.column;
    put_column(j, 6 * c, v, end, p.position);
    Fill {
        column: c + 1,
        axis: v,
    }
}

fn turns(codes: &[u16], link: usize) -> bool
    ensures { result ≡ turns_at codes.now link }
{
    let kind = reader::kind_at(codes, link);
    match kind {
        Kind::Turning(_) => true,
        Kind::Sliding(_) => false,
        Kind::Telescoping(_) => false,
        Kind::Fixed => false,
        Kind::Unlisted => false,
    }
}

// One link of the chain. The axis is that of the joint with the column's number, which need not be the link's own.
fn step(
    codes: &[u16],
    link: usize,
    p: Pose,
    end: Vec3,
    axes: &[u16],
    s: Fill,
    j: &mut [f64],
) -> Fill
    requires link_in_bounds { s.column + joints_of (get_or codes.now link 0) ≤ length axes.now }
    requires axes_in_bounds { 6 * length axes.now ≤ length j.old }
    ensures { filling_of result j.new ≡ step_at codes.now link p end axes.now (filling_of s j.old) }
{
    if turns(codes, link) {
        let c = s.column;
        return fill_column(p, end, axes[c], s, j);
    }
    s
}

// Fills the identity's columns, link after link; the last link is skipped.
fn columns(codes: &[u16], poses: Poses<'_>, first: usize, end: usize, axes: &[u16], j: &mut [f64])
    requires part { Part codes.now first end × (first < end) }
    requires view { HasLinks poses (length codes.now) }
    requires axes_value { (axes.now ≡ axes_of codes.now first (end - first)) × (j.old ≡ (start_filling (joints_in codes.now first end)).matrix) }
    ensures { j.new ≡ jacobian_of (seen_by poses.entry) codes.now first end }
{
    let last = poses.pose(end - 1);
    let position = last.position;
    let mut s = Fill {
        column: 0,
        axis: vector::zero(),
    };
    for link in first..end - 1 {
        let p = poses.pose(link);
        s = step(codes, link, p, position, axes, s, j);
    }
}

// The Jacobian of the chain from `first` on, below `end`, by columns of six floats.
pub fn get_jacobian_immutable(
    codes: &[u16],
    poses: Poses<'_>,
    first: usize,
    end: usize,
    j: &mut [f64],
)
    requires part { Part codes.now first end × (first < end) }
    requires view { HasLinks poses (length codes.now) }
    requires j_len { length j.old ≡ 6 * joints_in codes.now first end }
    ensures { j.new ≡ jacobian_of (seen_by poses.entry) codes.now first end }
{
    let all = joint_axes(codes, first, end);
    let n = j.len() / 6;
    identity(j);
    columns(codes, poses, first, end, &all[..n], j);
}

// Room for the columns of 16 joints.
fn room() -> [f64; 96]
    ensures { length result ≡ 96 }
{
    [0.0; 96]
}

// A chain's manipulability: 0 for fewer than six joints.
pub fn get_manipulability_immutable(
    codes: &[u16],
    poses: Poses<'_>,
    first: usize,
    end: usize,
) -> f64
    requires part { Part codes.now first end }
    requires view { HasLinks poses (length codes.now) }
    ensures { result ≡ manipulability_in (seen_by poses.entry) codes.now first end }
{
    let n = chain::joint_number(codes, end) - chain::joint_number(codes, first);
    if n < 6 {
        return 0.0;
    }
    let mut a = room();
    let w = 6 * n;
    get_jacobian_immutable(codes, poses, first, end, &mut a[..w]);
    let d = matrix::determinant(matrix::gram(&a[..w]));
    root::sqrt(cut::cut(d))
}
