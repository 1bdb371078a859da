// Walking, with a record of every link walked: the joint raised, the link, and the pose after it as seven floats.
ghost use Rattle.std.specs.Prelude.{◌≡◌, List, [], ◌∷◌, ◌+◌, ◌-◌, ◌*◌, ◌≤◌, ◌<◌, length, get_or, set, Float};
ghost use Rattle.std.specs.Float.{nan};
ghost use Rattle.lists.specs.Splice.{splice};
ghost use Rattle.lists.specs.Runs.{runs};
ghost use Rattle.sheet.specs.Chain.{joint_of};
ghost use Rattle.spacetime.specs.Floats.{flat};
ghost use Rattle.spacetime.specs.Walk.{Sheet, poses};
ghost use Rattle.gradient.specs.Slopes.{step};
ghost use Rattle.gradient.specs.Gradient.{raised_by};
ghost use Rattle.one_block.specs.Record.{joint_entry, link_entry, place_after, place_after_all, Meets, Room};

use geometry::pose::Pose;
use sheet::chain;
use spacetime::{arm, floats};

// Where a walk stands: the record's next entry, the next joint, and the pose after the link before.
#[derive(Clone, Copy)]
pub struct Place {
    pub at: usize,
    pub joint: usize,
    pub pose: Pose,
}

// Walking a link: the only function here that makes a link pose, and the only one that writes the record.
pub fn walk_link(
    here: Place,
    counts: &[u16],
    codes: &[u16],
    floats: &[f64],
    block: &[f64],
    link: usize,
    raised: u16,
    joints: &mut [u16],
    links: &mut [u16],
    frames: &mut [f64],
) -> Place
    requires sheet { Sheet counts.now codes.now floats.now block.now }
    requires link_in_bounds { (link < length codes.now) × (here.joint ≡ joint_of codes.now link) }
    requires room { Room joints.old links.old frames.old (here.at + 1) }
    ensures value { result ≡ place_after counts.now codes.now floats.now block.now link here }
    ensures joints_after { joints.new ≡ splice joints.old here.at (raised ∷ []) }
    ensures links_after { links.new ≡ splice links.old here.at (link ∷ []) }
    ensures frames_after { frames.new ≡ splice frames.old (7 * here.at) (flat result.pose) }
{
    let at = here.at;
    let joint = here.joint;
    let before = arm::start(counts, link, here.pose);
    let pose = arm::after_link(before, codes, floats, block, link, joint);
    joints[at] = raised;
    links[at] = link as u16;
    floats::put(frames, 7 * at, pose);
    Place {
        at: at + 1,
        joint: chain::next_joint(codes, link, joint),
        pose,
    }
}

// Walks the links from `from` to `to`.
pub fn walk(
    counts: &[u16],
    codes: &[u16],
    floats: &[f64],
    block: &[f64],
    from: usize,
    to: usize,
    here: Place,
    raised: u16,
    joints: &mut [u16],
    links: &mut [u16],
    frames: &mut [f64],
) -> Place
    requires sheet { Sheet counts.now codes.now floats.now block.now }
    requires from_le_to { (from ≤ to) × (to ≤ length codes.now) }
    requires meets { Meets counts.now codes.now floats.now block.now from here }
    requires room { Room joints.old links.old frames.old (here.at + (to - from)) }
    ensures value { result ≡ place_after_all counts.now codes.now floats.now block.now from (to - from) here }
    ensures joints_after { joints.new ≡ splice joints.old here.at (runs (joint_entry raised) from (to - from)) }
    ensures links_after { links.new ≡ splice links.old here.at (runs (link_entry raised) from (to - from)) }
    ensures frames_after { frames.new ≡ splice frames.old (7 * here.at)
        (runs (poses counts.now codes.now floats.now block.now) from (to - from)) }
{
    let mut p = here;
    for link in from..to {
        p = walk_link(
            p, counts, codes, floats, block, link, raised, joints, links, frames,
        );
    }
    p
}

// Raises a joint of the block, and answers its old value.
pub fn raise(block: &mut [f64], joint: usize) -> f64
    requires { joint < length block.old }
    ensures value { result ≡ get_or block.old joint nan }
    ensures block_after { block.new ≡ raised_by step block.old joint }
{
    let old = block[joint];
    block[joint] = old + 0.0000001;
    old
}

// Walks again from a joint's link to the end of its chain, on the block as it is, and answers the record's next entry.
pub fn walk_again(
    counts: &[u16],
    codes: &[u16],
    floats: &[f64],
    block: &mut [f64],
    link: usize,
    end: usize,
    here: Place,
    joints: &mut [u16],
    links: &mut [u16],
    frames: &mut [f64],
) -> usize
    requires sheet { Sheet counts.now codes.now floats.now block.old }
    requires link_le_end { (link ≤ end) × (end ≤ length codes.now) }
    requires meets { Meets counts.now codes.now floats.now block.old link here }
    requires room { Room joints.old links.old frames.old (here.at + (end - link)) }
    ensures value { result ≡ here.at + (end - link) }
    ensures block_after { block.new ≡ block.old }
    ensures joints_after { joints.new ≡ splice joints.old here.at (runs (joint_entry here.joint) link (end - link)) }
    ensures links_after { links.new ≡ splice links.old here.at (runs (link_entry here.joint) link (end - link)) }
    ensures frames_after { frames.new ≡ splice frames.old (7 * here.at)
        (runs (poses counts.now codes.now floats.now block.old) link (end - link)) }
{
    let raised = here.joint as u16;
    let after = walk(
        counts, codes, floats, block, link, end, here, raised, joints, links, frames,
    );
    after.at
}

// Puts a joint's old value back: a block that was raised there is again what it was.
pub fn put_back(block: &mut [f64], joint: usize, old: f64)
    requires { joint < length block.old }
    ensures block_after { block.new ≡ set block.old joint old }
    ensures block_after_2 { (x : List Float) (h : Float) → block.old ≡ raised_by h x joint → old ≡ get_or x joint nan → block.new ≡ x }
{
    block[joint] = old;
}
