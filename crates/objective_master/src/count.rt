// How many objectives `relaxed_ik` lists.
ghost use Rattle.std.specs.Prelude.{◌≡◌, ◌-◌, ◌≤◌, length};
ghost use Rattle.manipulability.specs.Jacobian.{Counted};
ghost use Rattle.self_collision.specs.Pairs.{triangle};
ghost use Rattle.objective_master.specs.Objective.{objective_count};

use crate::relaxed_ik;
use sheet::chain;
use task::picks::Picks;

// The pairs that a chain of n joints adds: link k with each before its neighbour.
fn pair_count(n: usize) -> usize
    requires { n ≤ 16 }
    ensures { (result ≡ triangle (n - 2)) × (result ≤ 256) }
{
    let mut s: usize = 0;
    for k in 2..n {
        s += k - 1;
    }
    s
}

pub fn objective_count(counts: &[u16], codes: &[u16], picks: Picks) -> usize
    requires { Counted counts.now codes.now × (length counts.now ≤ 4) }
    ensures { result ≡ objective_count picks counts.now codes.now }
{
    let mut s: usize = 0;
    let mut l: usize = 0;
    let mut joint: usize = 0;
    for count in counts {
        let end = l + *count as usize;
        let next = chain::joint_number(codes, end);
        s += pair_count(next - joint);
        l = end;
        joint = next;
    }
    relaxed_ik::goals_to(picks, counts.len()) + joint + 4 + s
}
