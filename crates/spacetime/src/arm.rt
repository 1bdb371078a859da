// arm.rs: the step from link to link, and the walk of a chain.
ghost use Rattle.std.specs.Prelude.{◌≡◌, ◌+◌, ◌*◌, ◌≤◌, ◌<◌, length, get_or};
ghost use Rattle.lists.specs.Splice.{splice};
ghost use Rattle.sheet.specs.Chain.{joints_of, joints};
ghost use Rattle.spacetime.specs.Floats.{quat_at};
ghost use Rattle.spacetime.specs.Link.{is_none, offset_of, signed_by, along_of, turn_of, joint_turn, about_of, turned_by, carried_of, slid_of, own_axis_of, telescoped_of, moved_of, extended_of, link_of};
ghost use Rattle.spacetime.specs.Walk.{value_of, after_link, start_of, Sheet, frames_of};
ghost use Rattle.spacetime.specs.Turns.{turns_of, start_turn, after_turn, rotations_by, Rotated};

use crate::floats;
use geometry::pose::Pose;
use geometry::quaternion::Quat;
use geometry::vector::Vec3;
use geometry::{pose, quaternion, vector};
use sheet::code::Kind;
use sheet::{chain, reader};

// An offset that turns nothing.
fn is_none(o: Quat) -> bool
    ensures { result ≡ is_none o }
{
    o.i == 0.0 && o.j == 0.0 && o.k == 0.0
}

fn offset(q: Quat, o: Quat) -> Quat
    ensures { result ≡ offset_of q o }
{
    if is_none(o) {
        return q;
    }
    quaternion::product(q, o)
}

fn signed(axis: u16, v: f64) -> f64
    ensures { result ≡ signed_by axis v }
{
    if axis > 3 {
        return -v;
    }
    v
}

// v along an axis of the base.
fn along(axis: u16, v: f64) -> Vec3
    ensures { result ≡ along_of axis v }
{
    let s = signed(axis, v);
    let coordinate = axis % 3;
    if coordinate == 1 {
        return Vec3 {
            x: s,
            y: 0.0,
            z: 0.0,
        };
    }
    if coordinate == 2 {
        return Vec3 {
            x: 0.0,
            y: s,
            z: 0.0,
        };
    }
    Vec3 {
        x: 0.0,
        y: 0.0,
        z: s,
    }
}

fn turn(axis: u16, v: f64) -> Quat
    ensures { result ≡ turn_of axis v }
{
    let s = signed(axis, v);
    let coordinate = axis % 3;
    if coordinate == 1 {
        return quaternion::get_quat_x(s);
    }
    if coordinate == 2 {
        return quaternion::get_quat_y(s);
    }
    quaternion::get_quat_z(s)
}

// A joint's turn at v; a link that does not turn has none to add.
fn joint_turn(kind: Kind, v: f64) -> Quat
    ensures { result ≡ joint_turn kind v }
{
    match kind {
        Kind::Turning(axis) => turn(axis, v),
        Kind::Sliding(_) | Kind::Telescoping(_) | Kind::Fixed | Kind::Unlisted => {
            quaternion::identity()
        }
    }
}

// q turned by t, unless the axis is none.
fn about(axis: u16, q: Quat, t: Quat) -> Quat
    ensures { result ≡ about_of axis q t }
{
    if axis == 0 {
        return q;
    }
    quaternion::product(q, t)
}

// q turned by its joint's turn t, if the link turns.
fn turned(kind: Kind, q: Quat, t: Quat) -> Quat
    ensures { result ≡ turned_by kind q t }
{
    match kind {
        Kind::Turning(axis) => about(axis, q, t),
        Kind::Sliding(_) | Kind::Telescoping(_) | Kind::Fixed | Kind::Unlisted => q,
    }
}

fn carried(p: Pose, d: Vec3) -> Vec3
    ensures { result ≡ carried_of p d }
{
    let at = p.position;
    let q = p.rotation;
    vector::add(quaternion::rotate(q, d), at)
}

fn slid(before: Vec3, carried: Vec3, axis: u16, v: f64) -> Vec3
    ensures { result ≡ slid_of before carried axis v }
{
    if axis == 0 {
        return before;
    }
    vector::add(carried, along(axis, v))
}

// An axis, as a rotation turns it.
pub fn own_axis(rotation: Quat, axis: u16) -> Vec3
    ensures { result ≡ own_axis_of rotation axis }
{
    quaternion::rotate(rotation, along(axis, 1.0))
}

fn telescoped(carried: Vec3, rotation: Quat, axis: u16, v: f64) -> Vec3
    ensures { result ≡ telescoped_of carried rotation axis v }
{
    if axis == 0 {
        return carried;
    }
    vector::add(carried, vector::scale(own_axis(rotation, axis), v))
}

// The point after a link, but for a move along its own axis. Every kind but a prismatic joint without axis is carried, so that is worked out first, and stands in the code once.
fn moved(kind: Kind, p: Pose, d: Vec3, v: f64) -> Vec3
    ensures { result ≡ moved_of kind p d v }
{
    let c = carried(p, d);
    match kind {
        Kind::Sliding(axis) => slid(p.position, c, axis, v),
        Kind::Turning(_) | Kind::Telescoping(_) | Kind::Fixed | Kind::Unlisted => c,
    }
}

// That move, asked with the rotation after the link. Apart from `moved`, so that each is short enough for the compiler to put both into the walk.
fn extended(kind: Kind, at: Vec3, rotation: Quat, v: f64) -> Vec3
    ensures { result ≡ extended_of kind at rotation v }
{
    match kind {
        Kind::Telescoping(axis) => telescoped(at, rotation, axis, v),
        Kind::Turning(_) | Kind::Sliding(_) | Kind::Fixed | Kind::Unlisted => at,
    }
}

// The pose after a link of displacement d and offset o, its joint at v and turned by t.
pub(crate) fn link(kind: Kind, d: Vec3, o: Quat, v: f64, t: Quat, p: Pose) -> Pose
    requires { t ≡ joint_turn kind v }
    ensures { result ≡ link_of kind d o v p }
{
    let q = turned(kind, offset(p.rotation, o), t);
    Pose {
        position: extended(kind, moved(kind, p, d, v), q, v),
        rotation: q,
    }
}

fn value(codes: &[u16], block: &[f64], link: usize, joint: usize) -> f64
    requires { (link < length codes.now) × (joint + joints_of (get_or codes.now link 0) ≤ length block.now) }
    ensures { result ≡ value_of codes.now block.now link joint }
{
    if chain::has_joint_at(codes, link) {
        block[joint]
    } else {
        0.0
    }
}

// The pose after a link of the sheet, its joint read from the block.
pub fn after_link(
    p: Pose,
    codes: &[u16],
    floats: &[f64],
    block: &[f64],
    at: usize,
    joint: usize,
) -> Pose
    requires at_in_bounds { (at < length codes.now) × (7 * at + 7 ≤ length floats.now) }
    requires at_in_bounds_2 { joint + joints_of (get_or codes.now at 0) ≤ length block.now }
    ensures { result ≡ after_link codes.now floats.now block.now p at joint }
{
    let kind = reader::kind_at(codes, at);
    let d = floats::get_vec(floats, 7 * at);
    let o = floats::get_quat(floats, 7 * at + 3);
    let v = value(codes, block, at, joint);
    link(kind, d, o, v, joint_turn(kind, v), p)
}

// The pose with which a link is met: a chain starts at the origin.
pub fn start(counts: &[u16], at: usize, p: Pose) -> Pose
    ensures { result ≡ start_of counts.now at p }
{
    if chain::is_first(counts, at) {
        return pose::origin();
    }
    p
}

// The turns of all joints, one a link: their series wait for nothing, so they go together.
fn put_turns(codes: &[u16], block: &[f64], turns: &mut [f64])
    requires { (joints codes.now ≤ length block.now) × (4 * length codes.now ≤ length turns.old) × (length codes.now ≤ 64) }
    ensures { turns.new ≡ splice turns.old 0 (turns_of codes.now block.now) }
{
    let mut joint: usize = 0;
    for at in 0..codes.len() {
        let v = value(codes, block, at, joint);
        let t = joint_turn(reader::kind_at(codes, at), v);
        floats::put_quat(turns, 4 * at, t);
        joint = chain::next_joint(codes, at, joint);
    }
}

fn start_rotation(counts: &[u16], at: usize, q: Quat) -> Quat
    ensures { result ≡ start_turn counts.now at q }
{
    if chain::is_first(counts, at) {
        return quaternion::identity();
    }
    q
}

// The rotation after a link that is met with q, its turn t.
fn after_turn(codes: &[u16], floats: &[f64], q: Quat, at: usize, t: Quat) -> Quat
    requires { 7 * at + 7 ≤ length floats.now }
    ensures { result ≡ after_turn codes.now floats.now q at t }
{
    let o = floats::get_quat(floats, 7 * at + 3);
    turned(reader::kind_at(codes, at), offset(q, o), t)
}

// Each link's turn gives way to the rotation after the link: rotations do not wait for positions.
fn walk_rotations(counts: &[u16], codes: &[u16], floats: &[f64], turns: &mut [f64])
    requires { (7 * length codes.now ≤ length floats.now) × (4 * length codes.now ≤ length turns.old) × (length codes.now ≤ 64) }
    ensures { turns.new ≡ splice turns.old 0 (rotations_by counts.now codes.now floats.now turns.old) }
{
    let mut q = quaternion::identity();
    for at in 0..codes.len() {
        let t = floats::get_quat(turns, 4 * at);
        q = after_turn(codes, floats, start_rotation(counts, at, q), at, t);
        floats::put_quat(turns, 4 * at, q);
    }
}

// The pose after a link whose rotation is known.
fn after_known(
    p: Pose,
    codes: &[u16],
    floats: &[f64],
    block: &[f64],
    rotations: &[f64],
    at: usize,
    joint: usize,
) -> Pose
    requires at_in_bounds { (at < length codes.now) × (7 * at + 7 ≤ length floats.now) × (4 * at + 4 ≤ length rotations.now) }
    requires at_in_bounds_2 { joint + joints_of (get_or codes.now at 0) ≤ length block.now }
    requires at_value { quat_at rotations.now (4 * at) ≡ (after_link codes.now floats.now block.now p at joint).rotation }
    ensures { result ≡ after_link codes.now floats.now block.now p at joint }
{
    let kind = reader::kind_at(codes, at);
    let d = floats::get_vec(floats, 7 * at);
    let v = value(codes, block, at, joint);
    let rotation = floats::get_quat(rotations, 4 * at);
    Pose {
        position: extended(kind, moved(kind, p, d, v), rotation, v),
        rotation,
    }
}

// Walks all links, whose rotations are known.
fn walk(
    counts: &[u16],
    codes: &[u16],
    floats: &[f64],
    block: &[f64],
    rotations: &[f64],
    out: &mut [f64],
)
    requires sheet { Sheet counts.now codes.now floats.now block.now }
    requires rotated { Rotated counts.now codes.now floats.now block.now rotations.now }
    requires codes_in_bounds { 7 * length codes.now ≤ length out.old }
    ensures { out.new ≡ splice out.old 0 (frames_of counts.now codes.now floats.now block.now) }
{
    let mut p = pose::origin();
    let mut joint: usize = 0;
    for at in 0..codes.len() {
        p = after_known(
            start(counts, at, p),
            codes,
            floats,
            block,
            rotations,
            at,
            joint,
        );
        floats::put(out, 7 * at, p);
        joint = chain::next_joint(codes, at, joint);
    }
}

// Walks all links, and writes the pose after each as seven floats.
pub fn get_frames_immutable(
    counts: &[u16],
    codes: &[u16],
    floats: &[f64],
    block: &[f64],
    out: &mut [f64],
)
    requires sheet { Sheet counts.now codes.now floats.now block.now }
    requires codes_in_bounds { 7 * length codes.now ≤ length out.old }
    ensures { out.new ≡ splice out.old 0 (frames_of counts.now codes.now floats.now block.now) }
{
    let mut rotations = [0.0; 256];
    put_turns(codes, block, &mut rotations);
    walk_rotations(counts, codes, floats, &mut rotations);
    walk(counts, codes, floats, block, &rotations, out);
}
