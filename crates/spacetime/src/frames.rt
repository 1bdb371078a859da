// The frame lists that a caller gets, made of a walk's poses, seven floats a link.
ghost use Rattle.std.specs.Prelude.{◌≡◌, ◌+◌, ◌*◌, ◌≤◌, ◌<◌, length};
ghost use Rattle.lists.specs.Splice.{splice};
ghost use Rattle.lists.specs.Runs.{runs};
ghost use Rattle.sheet.specs.Chain.{total};
ghost use Rattle.spacetime.specs.Walk.{list_pose};
ghost use Rattle.spacetime.specs.Frames.{Chains, position_at, rotation_at, positions_from, rotations_from, positions_of, rotations_of, ends_of};

use crate::{floats, tool};
use geometry::{quaternion, vector};

// Kept: positions and rotations go apart, here and below. They differ in stride, head and tail, and a trait that says so, with its laws, is longer than the loops that it saves.
fn link_positions(poses: &[f64], from: usize, n: usize, out: &mut [f64], at: usize)
    requires { (7 * (from + n) ≤ length poses.now) × (at + 3 * n ≤ length out.old) }
    ensures { out.new ≡ splice out.old at (runs (position_at (list_pose poses.now)) from n) }
{
    for i in 0..n {
        let v = floats::get_vec(poses, 7 * (from + i));
        floats::put_vec(out, at + 3 * i, v);
    }
}

fn link_rotations(poses: &[f64], from: usize, n: usize, out: &mut [f64], at: usize)
    requires { (7 * (from + n) ≤ length poses.now) × (at + 4 * n ≤ length out.old) }
    ensures { out.new ≡ splice out.old at (runs (rotation_at (list_pose poses.now)) from n) }
{
    for i in 0..n {
        let q = floats::get_quat(poses, 7 * (from + i) + 3);
        floats::put_quat(out, at + 4 * i, q);
    }
}

fn chain_positions(poses: &[f64], from: usize, n: usize, out: &mut [f64], at: usize)
    requires { (7 * (from + n) ≤ length poses.now) × (at + 3 * (n + 1) ≤ length out.old) }
    ensures { out.new ≡ splice out.old at (positions_from (list_pose poses.now) from n) }
{
    floats::put_vec(out, at, vector::zero());
    link_positions(poses, from, n, out, at + 3);
}

fn chain_rotations(poses: &[f64], from: usize, n: usize, out: &mut [f64], at: usize)
    requires { (0 < n) × (7 * (from + n) ≤ length poses.now) × (at + 4 * (n + 2) ≤ length out.old) }
    ensures { out.new ≡ splice out.old at (rotations_from (list_pose poses.now) from n) }
{
    floats::put_quat(out, at, quaternion::identity());
    link_rotations(poses, from, n, out, at + 4);
    let last = floats::get_quat(poses, 7 * (from + n - 1) + 3);
    floats::put_quat(out, at + 4 + 4 * n, last);
}

// Positions by 3: L + 1 of each chain.
pub fn put_positions(counts: &[u16], poses: &[f64], out: &mut [f64])
    requires chains { Chains counts.now }
    requires counts_in_bounds { (7 * total counts.now ≤ length poses.now) × (3 * (total counts.now + length counts.now) ≤ length out.old) }
    ensures { out.new ≡ splice out.old 0 (positions_of counts.now (list_pose poses.now)) }
{
    let mut from: usize = 0;
    for (c, n) in counts.iter().enumerate() {
        let n = *n as usize;
        chain_positions(poses, from, n, out, 3 * (from + c));
        from += n;
    }
}

// Rotations by 4: L + 2 of each chain.
pub fn put_rotations(counts: &[u16], poses: &[f64], out: &mut [f64])
    requires chains { Chains counts.now }
    requires counts_in_bounds { (7 * total counts.now ≤ length poses.now) × (4 * (total counts.now + 2 * length counts.now) ≤ length out.old) }
    ensures { out.new ≡ splice out.old 0 (rotations_of counts.now (list_pose poses.now)) }
{
    let mut from: usize = 0;
    for (c, n) in counts.iter().enumerate() {
        let n = *n as usize;
        chain_rotations(poses, from, n, out, 4 * (from + 2 * c));
        from += n;
    }
}

// End poses by 7, one a chain: its last frame, followed by its tool if it has one.
pub fn put_ends(counts: &[u16], tools: &[f64], poses: &[f64], out: &mut [f64])
    requires chains { Chains counts.now × (8 * length counts.now ≤ length tools.now) }
    requires counts_in_bounds { (7 * total counts.now ≤ length poses.now) × (7 * length counts.now ≤ length out.old) }
    ensures { out.new ≡ splice out.old 0 (ends_of counts.now tools.now (list_pose poses.now)) }
{
    let mut from: usize = 0;
    for (c, n) in counts.iter().enumerate() {
        from += *n as usize;
        let last = floats::get(poses, 7 * (from - 1));
        floats::put(out, 7 * c, tool::tip(tools, c, last));
    }
}
