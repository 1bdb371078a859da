// Vectors, quaternions and poses in lists of floats.
ghost use Rattle.std.specs.Prelude.{◌≡◌, ◌+◌, ◌≤◌, length};
ghost use Rattle.lists.specs.Splice.{splice};
ghost use Rattle.spacetime.specs.Floats.{vec_at, quat_at, pose_at, flat_vec, flat_quat, flat};

use geometry::pose::Pose;
use geometry::quaternion::Quat;
use geometry::vector::Vec3;

pub fn get_vec(l: &[f64], at: usize) -> Vec3
    requires { at + 3 ≤ length l.now }
    ensures { result ≡ vec_at l.now at }
{
    Vec3 {
        x: l[at],
        y: l[at + 1],
        z: l[at + 2],
    }
}

pub fn get_quat(l: &[f64], at: usize) -> Quat
    requires { at + 4 ≤ length l.now }
    ensures { result ≡ quat_at l.now at }
{
    Quat {
        w: l[at],
        i: l[at + 1],
        j: l[at + 2],
        k: l[at + 3],
    }
}

pub fn get(l: &[f64], at: usize) -> Pose
    requires { at + 7 ≤ length l.now }
    ensures { result ≡ pose_at l.now at }
{
    Pose {
        position: get_vec(l, at),
        rotation: get_quat(l, at + 3),
    }
}

pub fn put_vec(l: &mut [f64], at: usize, v: Vec3)
    requires { at + 3 ≤ length l.old }
    ensures { l.new ≡ splice l.old at (flat_vec v) }
{
    l[at] = v.x;
    l[at + 1] = v.y;
    l[at + 2] = v.z;
}

pub fn put_quat(l: &mut [f64], at: usize, q: Quat)
    requires { at + 4 ≤ length l.old }
    ensures { l.new ≡ splice l.old at (flat_quat q) }
{
    l[at] = q.w;
    l[at + 1] = q.i;
    l[at + 2] = q.j;
    l[at + 3] = q.k;
}

pub fn put(l: &mut [f64], at: usize, p: Pose)
    requires { at + 7 ≤ length l.old }
    ensures { l.new ≡ splice l.old at (flat p) }
{
    let v = p.position;
    let q = p.rotation;
    put_vec(l, at, v);
    put_quat(l, at + 3, q);
}
