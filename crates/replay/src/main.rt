#![tactic(auto)]
// Replays the stored list of the reference's answers, read from standard input, on the proved code, and says for each call how many cases differ.
mod cases;
mod leaf_cases;
mod leaves;
mod program;
mod strict_leaves;

ghost use Rattle.std.specs.Prelude.{◌≡◌, IfOk};
ghost use Rattle.stored_answers.specs.Records.{sum_of};
ghost use Rattle.stored_answers.specs.Damage.{damage_number};
ghost use Rattle.replay_calls.specs.Table.{calls};
ghost use Rattle.replay.specs.Tally.{cases_of, differ_of, damage_of};

use crate::program::ByteCalls;
use std::io;
use std::io::Print;
use stored_answers::damage::Damage;
use stored_answers::tally::Counts;
use stored_answers::{damage, input, report};

// The room for the list, in bytes.
const ROOM: usize = 655360;

fn check(s: &[u8]) -> Result<(), Damage>
    ensures { damage_number result ≡ damage_of s.now }
{
    damage::check::<ByteCalls>(s)
}

fn report<R: Print>(rt: &R, s: &[u8]) -> io::Result<Counts>
    ensures { IfOk result (λ all. (all.cases ≡ sum_of (cases_of s.now) calls) × (all.differ ≡ sum_of (differ_of s.now) calls)) }
{
    report::report::<ByteCalls, R>(rt, s)
}

fn replay<R: Print>(rt: &R, s: &[u8]) -> io::Result<()> {
    if let Err(found) = check(s) {
        return println!(rt; "{found}");
    }
    report(rt, s)?;
    Ok(())
}

fn main(rt: HostRuntime) -> io::Result<()> {
    let mut list = input::empty_room::<ROOM>();
    let n = input::read_full(&mut rt.stdin(), &mut list)?;
    if n == ROOM {
        return rt.write_all(b"the list is longer than the room for it\n");
    }
    replay(&rt, &list[..n])
}
