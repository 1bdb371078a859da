// objective.rs, SelfCollision, and the last loops of `relaxed_ik`: the losses of the pairs, of poses read through a view.
ghost use Rattle.std.specs.Prelude.{◌≡◌, ◌+◌, ◌-◌, ◌≤◌, length};
ghost use Rattle.lists.specs.Splice.{splice};
ghost use Rattle.manipulability.specs.View.{seen_by, HasLinks};
ghost use Rattle.self_collision.specs.Pairs.{pair_at, pairs_from, pairs_of, first_arm, chain_lengths, point_on, link_distance, loss_from, last_from, pair_losses, pair_lasts, Paired, CachedPairs, triangle};

use geometry::vector::Vec3;
use geometry::{segment, vector};
use groove::objective;
use manipulability::view::Poses;
use sheet::chain;

// Position i of the arm that starts at link `first`.
fn point(poses: Poses<'_>, first: usize, i: usize) -> Vec3
    requires { HasLinks poses (first + i) }
    ensures { result ≡ point_on (seen_by poses.entry) first i }
{
    if i == 0 {
        return vector::zero();
    }
    poses.position(first + i - 1)
}

fn link_distance(poses: Poses<'_>, first: usize, j: usize, k: usize) -> f64
    requires { HasLinks poses (first + k + 1) × (j ≤ k) }
    ensures { result ≡ link_distance (seen_by poses.entry) first j k }
{
    let start1 = point(poses, first, j);
    let end1 = point(poses, first, j + 1);
    let start2 = point(poses, first, k);
    let end2 = point(poses, first, k + 1);
    segment::distance(start1, end1, start2, end2) - 0.05
}

// Links j and k of the arm that starts at link `first`. Below `from` no link was walked again, and the loss stands already.
fn put_pair(
    poses: Poses<'_>,
    first: usize,
    j: usize,
    k: usize,
    any_nan: bool,
    at: usize,
    out: &mut [f64],
)
    requires view { HasLinks poses (first + k + 1) × (j ≤ k) }
    requires cached_pairs { CachedPairs (pair_at (last_from first) j k) (pair_at (loss_from (seen_by poses) first any_nan) j k) poses.from at out.old }
    ensures { out.new ≡ splice out.old at (pair_at (loss_from (seen_by poses.entry) first any_nan) j k) }
{
    if first + k < poses.from {
        return;
    }
    out[at] = objective::self_collision(link_distance(poses, first, j, k), any_nan);
}

// Link j with those from j + 2 on, below n; the next free place.
fn put_row(
    poses: Poses<'_>,
    first: usize,
    j: usize,
    n: usize,
    any_nan: bool,
    at: usize,
    out: &mut [f64],
) -> usize
    requires view { HasLinks poses (first + n) × (j + 2 ≤ n) }
    requires cached_pairs { CachedPairs (pairs_from (last_from first) n j) (pairs_from (loss_from (seen_by poses) first any_nan) n j) poses.from at out.old }
    ensures value { result ≡ at + (n - (j + 2)) }
    ensures out_after { out.new ≡ splice out.old at (pairs_from (loss_from (seen_by poses.entry) first any_nan) n j) }
{
    let mut p = at;
    for k in j + 2..n {
        put_pair(poses, first, j, k, any_nan, p, out);
        p += 1;
    }
    p
}

// All that a chain of n joints adds.
fn put_chain(
    poses: Poses<'_>,
    first: usize,
    n: usize,
    any_nan: bool,
    at: usize,
    out: &mut [f64],
) -> usize
    requires view { HasLinks poses (first + n) }
    requires cached_pairs { CachedPairs (pairs_of (last_from first) n) (pairs_of (loss_from (seen_by poses) first any_nan) n) poses.from at out.old }
    ensures value { result ≡ at + triangle (n - 2) }
    ensures out_after { out.new ≡ splice out.old at (pairs_of (loss_from (seen_by poses.entry) first any_nan) n) }
{
    let mut p = at;
    for j in 0..n.saturating_sub(2) {
        p = put_row(poses, first, j, n, any_nan, p, out);
    }
    p
}

// Writes the losses of all chains' pairs from `at` on. Each looks at arm 0, which starts at link 0.
pub fn put_pairs(
    counts: &[u16],
    codes: &[u16],
    poses: Poses<'_>,
    any_nan: bool,
    at: usize,
    out: &mut [f64],
)
    requires paired { Paired counts.now codes.now × HasLinks poses (length codes.now) }
    requires cached_pairs { CachedPairs (pair_lasts counts.now first_arm (chain_lengths counts.now codes.now))
        (pair_losses counts.now (seen_by poses) first_arm (chain_lengths counts.now codes.now) any_nan) poses.from at out.old }
    ensures { out.new ≡ splice out.old at
        (pair_losses counts.now (seen_by poses.entry) first_arm (chain_lengths counts.now codes.now) any_nan) }
{
    let mut p = at;
    let mut l: usize = 0;
    let mut joint: usize = 0;
    for count in counts {
        let end = l + *count as usize;
        let next = chain::joint_number(codes, end);
        p = put_chain(poses, 0, next - joint, any_nan, p, out);
        l = end;
        joint = next;
    }
}
