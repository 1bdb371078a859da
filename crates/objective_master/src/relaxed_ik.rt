// `ObjectiveMaster::relaxed_ik`: the list of objectives that is picked, in the source's order, each by the number of its kind.
ghost use Rattle.std.specs.Prelude.{◌≡◌, ◌+◌, ◌*◌, ◌≤◌, length};
ghost use Rattle.lists.specs.Splice.{splice};
ghost use Rattle.lists.specs.Runs.{runs};
ghost use Rattle.manipulability.specs.Jacobian.{Counted};
ghost use Rattle.objective_master.specs.Objective.{goal_width, objective_count};
ghost use Rattle.objective_master.specs.Kinds.{goal_kinds, motion_kinds, only_kind, kinds_of};

use crate::count;
use sheet::chain;
use task::picks::Picks;

// How many objectives a chain's goal has: with tolerances, and strict.
const TOLERANCE_WIDTH: usize = 6;

const STRICT_WIDTH: usize = 2;

// With tolerances: three positions, three rotations. Strict: one of each.
const TOLERANCE_KINDS: [u16; TOLERANCE_WIDTH] = [0, 0, 0, 1, 1, 1];

const STRICT_KINDS: [u16; STRICT_WIDTH] = [0, 1];

// Of all joints: velocity, acceleration, jerk, manipulability.
const MOTION_KINDS: [u16; 4] = [3, 4, 5, 6];

// n objectives of one kind.
fn put_kind(kind: u16, n: usize, at: usize, kinds: &mut [u16])
    requires { at + n ≤ length kinds.old }
    ensures { kinds.new ≡ splice kinds.old at (runs (only_kind kind) 0 n) }
{
    kinds[at..at + n].fill(kind);
}

// How many objectives the goals of so many chains have.
pub fn goals_to(picks: Picks, chains: usize) -> usize
    requires { chains ≤ 4 }
    ensures { (result ≡ chains * goal_width picks.strict) × (result ≤ 24) }
{
    if picks.strict {
        return chains * STRICT_WIDTH;
    }
    chains * TOLERANCE_WIDTH
}

fn put_goal(picks: Picks, at: usize, kinds: &mut [u16])
    requires { at + goal_width picks.strict ≤ length kinds.old }
    ensures { kinds.new ≡ splice kinds.old at (goal_kinds picks.strict) }
{
    if picks.strict {
        lists::copy(&STRICT_KINDS, &mut kinds[at..]);
        return;
    }
    lists::copy(&TOLERANCE_KINDS, &mut kinds[at..]);
}

// The goals of all chains.
fn put_goals(picks: Picks, chains: usize, kinds: &mut [u16])
    requires { (chains ≤ 4) × (chains * goal_width picks.strict ≤ length kinds.old) }
    ensures { kinds.new ≡ splice kinds.old 0 (runs (λ _. goal_kinds picks.strict) 0 chains) }
{
    for c in 0..chains {
        let at = goals_to(picks, c);
        put_goal(picks, at, kinds);
    }
}

fn put_motion(at: usize, kinds: &mut [u16])
    requires { at + 4 ≤ length kinds.old }
    ensures { kinds.new ≡ splice kinds.old at motion_kinds }
{
    lists::copy(&MOTION_KINDS, &mut kinds[at..]);
}

// Writes the list that was picked to the front of `kinds`, and answers its length.
pub fn relaxed_ik(counts: &[u16], codes: &[u16], picks: Picks, kinds: &mut [u16]) -> usize
    requires counted { Counted counts.now codes.now × (length counts.now ≤ 4) }
    requires codes_in_bounds { objective_count picks counts.now codes.now ≤ length kinds.old }
    ensures value { result ≡ objective_count picks counts.now codes.now }
    ensures kinds_after { kinds.new ≡ splice kinds.old 0 (kinds_of picks counts.now codes.now) }
{
    let n = count::objective_count(counts, codes, picks);
    let joints = chain::joint_number(codes, codes.len());
    let limits = goals_to(picks, counts.len());
    let motion = limits + joints;
    let pairs = motion + 4;
    put_goals(picks, counts.len(), kinds);
    put_kind(2, joints, limits, kinds);
    put_motion(motion, kinds);
    put_kind(7, n - pairs, pairs, kinds);
    n
}
