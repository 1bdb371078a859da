// The gradient, on the one block that is lent.
ghost use Rattle.std.specs.Prelude.{◌≡◌, ◌+◌, ◌*◌, ◌≤◌, ◌<◌, Some, length, get_or, take};
ghost use Rattle.lists.specs.Splice.{splice};
ghost use Rattle.lists.specs.Runs.{runs};
ghost use Rattle.sheet.specs.Chain.{total};
ghost use Rattle.task.specs.Task.{given_of, given_in};
ghost use Rattle.spacetime.specs.Walk.{Sheet, frames_of};
ghost use Rattle.manipulability.specs.View.{seen_by};
ghost use Rattle.objective_master.specs.Losses.{Lent};
ghost use Rattle.objective_master.specs.Kinds.{kinds_of};
ghost use Rattle.objective_master.specs.Cached.{Cached};
ghost use Rattle.gradient.specs.Gradient.{value_at, gradient_of};
ghost use Rattle.gradient.specs.Ready.{Ready};
ghost use Rattle.one_block.specs.Record.{joint_entry, link_entry, record_joints, record_links, record_poses, again_entries, every_again, Writes, again_at, entries_of, place_after_turn, Room, AtTurn};
ghost use Rattle.one_block.specs.Slope.{slope_to, slopes_after, Basis};

use crate::walk;
use crate::walk::Place;
use geometry::pose;
use gradient::slopes;
use manipulability::view::Poses;
use objective_master::{losses, relaxed_ik, weights};
use sheet::chain;
use spacetime::floats;
use task::parts;
use task::picks::Picks;

// A link's turn in the loop over what is walked again, and where that loop stands.
#[derive(Clone, Copy)]
struct Turn {
    link: usize,
    here: Place,
}

// The first walk: all links, no joint raised.
fn first_walk(
    counts: &[u16],
    codes: &[u16],
    floats: &[f64],
    block: &[f64],
    joints: &mut [u16],
    links: &mut [u16],
    frames: &mut [f64],
)
    requires sheet { Sheet counts.now codes.now floats.now block.now }
    requires room { Room joints.old links.old frames.old (length codes.now) }
    ensures joints_after { joints.new ≡ splice joints.old 0 (runs (joint_entry 65535) 0 (length codes.now)) }
    ensures links_after { links.new ≡ splice links.old 0 (runs (link_entry 65535) 0 (length codes.now)) }
    ensures frames_after { frames.new ≡ splice frames.old 0 (frames_of counts.now codes.now floats.now block.now) }
{
    let here = Place {
        at: 0,
        joint: 0,
        pose: pose::origin(),
    };
    walk::walk(
        counts,
        codes,
        floats,
        block,
        0,
        codes.len(),
        here,
        65535,
        joints,
        links,
        frames,
    );
}

// A raised joint's slope: the first losses f_0s are kept where the copy x touches nothing.
fn slope(
    counts: &[u16],
    codes: &[u16],
    task: &[f64],
    picks: Picks,
    x: &[f64],
    poses: Poses<'_>,
    joint: usize,
    kinds: &[u16],
    f_0s: &[f64],
) -> f64
    requires kinds_value { (kinds.now ≡ kinds_of picks counts.now codes.now) × (length kinds.now ≤ 131) × (length kinds.now ≤ length f_0s.now) }
    requires lent { Lent counts.now codes.now task.now x.now poses.base.now poses.tail.now poses.from poses.to }
    requires cached { Cached (given_of counts.now codes.now task.now picks) (seen_by poses) x.now poses.from poses.to (Some joint) f_0s.now }
    ensures { result ≡ slope_to (given_in counts codes task picks) f_0s.now (seen_by poses.entry) x.now }
{
    let mut f_hs = [0.0; 131];
    lists::copy(&f_0s[..kinds.len()], &mut f_hs);
    losses::put_losses(counts, codes, task, picks, x, poses, Some(joint), &mut f_hs);
    slopes::weighted_slope(parts::weights(task), kinds, f_0s, &mut f_hs)
}

// A joint's turn: raised, its link and those after it walked again, its slope, put back. Answers the record's next entry.
fn one_joint(
    counts: &[u16],
    codes: &[u16],
    floats: &[f64],
    task: &[f64],
    picks: Picks,
    block: &mut [f64],
    turn: Turn,
    kinds: &[u16],
    f_0s: &[f64],
    grad: &mut [f64],
    joints: &mut [u16],
    links: &mut [u16],
    frames: &mut [f64],
) -> usize
    requires ready { Ready counts.now codes.now task.now floats.now block.old }
    requires room { Room joints.old links.old frames.old (entries_of counts.now codes.now) }
    requires at_turn { AtTurn counts.now codes.now floats.now block.old turn frames.old × (get_or codes.now turn.link 0 ≡ 0 → ⊥) }
    requires basis { Basis counts.now codes.now task.now picks floats.now block.old kinds.now f_0s.now grad.old }
    ensures value { result ≡ turn.here.at + again_at counts.now codes.now turn.link }
    ensures block_after { block.new ≡ block.old }
    ensures writes { Writes turn.here.at (again_entries counts.now codes.now floats.now block.old turn.link) joints links frames }
    ensures grad_after { grad.new ≡ slopes_after (given_in counts codes task picks) floats.now block.old turn.link grad.old }
{
    let link = turn.link;
    let here = turn.here;
    let at = here.at;
    let joint = here.joint;
    let end = chain::chain_end(counts, link);
    let old = walk::raise(block, joint);
    let next = walk::walk_again(
        counts, codes, floats, block, link, end, here, joints, links, frames,
    );
    let record: &[f64] = frames;
    let poses = Poses {
        base: record,
        tail: &record[7 * at..],
        from: link,
        to: end,
    };
    grad[joint] = slope(counts, codes, task, picks, block, poses, joint, kinds, f_0s);
    walk::put_back(block, joint, old);
    next
}

// A link's turn: nothing for a fixed one. Answers where the next link is met, its pose before read from the first walk.
fn link_turn(
    counts: &[u16],
    codes: &[u16],
    floats: &[f64],
    task: &[f64],
    picks: Picks,
    block: &mut [f64],
    turn: Turn,
    kinds: &[u16],
    f_0s: &[f64],
    grad: &mut [f64],
    joints: &mut [u16],
    links: &mut [u16],
    frames: &mut [f64],
) -> Place
    requires ready { Ready counts.now codes.now task.now floats.now block.old }
    requires room { Room joints.old links.old frames.old (entries_of counts.now codes.now) }
    requires at_turn { AtTurn counts.now codes.now floats.now block.old turn frames.old }
    requires basis { Basis counts.now codes.now task.now picks floats.now block.old kinds.now f_0s.now grad.old }
    ensures value { result ≡ place_after_turn counts.now codes.now floats.now block.old turn }
    ensures block_after { block.new ≡ block.old }
    ensures writes { Writes turn.here.at (again_entries counts.now codes.now floats.now block.old turn.link) joints links frames }
    ensures grad_after { grad.new ≡ slopes_after (given_in counts codes task picks) floats.now block.old turn.link grad.old }
{
    let link = turn.link;
    let here = turn.here;
    let at = here.at;
    let joint = here.joint;
    let pose = floats::get(frames, 7 * link);
    if !chain::has_joint_at(codes, link) {
        return Place { at, joint, pose };
    }
    let next = one_joint(
        counts, codes, floats, task, picks, block, turn, kinds, f_0s, grad, joints, links, frames,
    );
    Place {
        at: next,
        joint: joint + 1,
        pose,
    }
}

// Every joint's turn, behind the first walk.
fn every_joint(
    counts: &[u16],
    codes: &[u16],
    floats: &[f64],
    task: &[f64],
    picks: Picks,
    block: &mut [f64],
    kinds: &[u16],
    f_0s: &[f64],
    grad: &mut [f64],
    joints: &mut [u16],
    links: &mut [u16],
    frames: &mut [f64],
)
    requires ready { Ready counts.now codes.now task.now floats.now block.old }
    requires room { Room joints.old links.old frames.old (entries_of counts.now codes.now) }
    requires frames_value { take (7 * length codes.now) frames.old ≡ frames_of counts.now codes.now floats.now block.old }
    requires basis { Basis counts.now codes.now task.now picks floats.now block.old kinds.now f_0s.now grad.old }
    ensures block_after { block.new ≡ block.old }
    ensures grad_after { grad.new ≡ splice grad.old 0 (gradient_of (given_in counts codes task picks) floats.now block.old) }
    ensures writes { Writes (length codes.now) (every_again counts.now codes.now floats.now block.old) joints links frames }
{
    let mut p = Place {
        at: codes.len(),
        joint: 0,
        pose: pose::origin(),
    };
    for link in 0..codes.len() {
        let turn = Turn { link, here: p };
        p = link_turn(
            counts, codes, floats, task, picks, block, turn, kinds, f_0s, grad, joints, links,
            frames,
        );
    }
}

// The objective's value, and its gradient in `grad`. The record: all links, then for each joint its copy's links from its own to its chain's end.
pub fn gradient(
    counts: &[u16],
    codes: &[u16],
    floats: &[f64],
    task: &[f64],
    picks: Picks,
    block: &mut [f64],
    grad: &mut [f64],
    joints: &mut [u16],
    links: &mut [u16],
    frames: &mut [f64],
) -> f64
    requires ready { Ready counts.now codes.now task.now floats.now block.old × (length block.old ≤ length grad.old) }
    requires room { Room joints.old links.old frames.old (entries_of counts.now codes.now) }
    ensures value { result ≡ value_at (given_in counts codes task picks) floats.now block.old }
    ensures grad_after { grad.new ≡ splice grad.old 0 (gradient_of (given_in counts codes task picks) floats.now block.old) }
    ensures block_after { block.new ≡ block.old }
    ensures joints_after { (joints.new ≡ splice joints.old 0 (record_joints counts.now codes.now)) × (links.new ≡ splice links.old 0 (record_links counts.now codes.now)) }
    ensures frames_after { frames.new ≡ splice frames.old 0 (record_poses counts.now codes.now floats.now block.old) }
{
    let mut f_0s = [0.0; 131];
    let mut list = [0u16; 131];
    let n = relaxed_ik::relaxed_ik(counts, codes, picks, &mut list);
    let kinds = &list[..n];
    first_walk(counts, codes, floats, block, joints, links, frames);
    let all = Poses {
        base: frames,
        tail: frames,
        from: 0,
        to: codes.len(),
    };
    losses::put_losses(counts, codes, task, picks, block, all, None, &mut f_0s);
    every_joint(
        counts, codes, floats, task, picks, block, kinds, &f_0s, grad, joints, links, frames,
    );
    weights::weighted_sum(parts::weights(task), kinds, &f_0s)
}

// How many links are walked again for a link's joint.
fn entries_again(counts: &[u16], codes: &[u16], link: usize) -> usize
    requires { (link < total counts.now) × (link < length codes.now) × (length counts.now ≤ 4) }
    ensures { result ≡ again_at counts.now codes.now link }
{
    if !chain::has_joint_at(codes, link) {
        return 0;
    }
    let past = chain::chain_end(counts, link);
    past - link
}

// The number of entries that `gradient` writes.
pub fn entries(counts: &[u16], codes: &[u16]) -> usize
    requires { (total counts.now ≡ length codes.now) × (length counts.now ≤ 4) × (length codes.now ≤ 64) }
    ensures { result ≡ entries_of counts.now codes.now }
{
    let mut n = codes.len();
    for link in 0..codes.len() {
        n += entries_again(counts, codes, link);
    }
    n
}
