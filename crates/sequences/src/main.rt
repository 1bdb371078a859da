#![tactic(auto)]
// Plays stored sequences of calls on the state, read from standard input, on the proved code, and says for each call how many steps differ.
mod agree;
mod asked;
mod changes;
mod program;
mod steps;
mod table;

ghost use Rattle.std.specs.Prelude.{◌≡◌, IfOk};
ghost use Rattle.stored_answers.specs.Records.{sum_of};
ghost use Rattle.stored_answers.specs.Damage.{damage_number};
ghost use Rattle.sequences.specs.Table.{calls};
ghost use Rattle.sequences.specs.Steps.{cases_of, differ_of, damage_of};

use crate::program::StateCalls;
use std::io;
use std::io::Print;
use stored_answers::damage::Damage;
use stored_answers::tally::Counts;
use stored_answers::{damage, input, report};

// The room for the list, in bytes.
const ROOM: usize = 655360;

fn check(s: &[u8]) -> Result<(), Damage>
    ensures { damage_number result ≡ damage_of s.now }
{
    damage::check::<StateCalls>(s)
}

fn report<R: Print>(rt: &R, s: &[u8]) -> io::Result<Counts>
    ensures { IfOk result (λ all. (all.cases ≡ sum_of (cases_of s.now) calls) × (all.differ ≡ sum_of (differ_of s.now) calls)) }
{
    report::report::<StateCalls, R>(rt, s)
}

fn play<R: Print>(rt: &R, s: &[u8]) -> io::Result<()> {
    if let Err(found) = check(s) {
        return println!(rt; "{found}");
    }
    report(rt, s)?;
    Ok(())
}

fn main(rt: HostRuntime) -> io::Result<()> {
    let mut list = input::empty_room::<ROOM>();
    let n = input::read_full(&mut rt.stdin(), &mut list)?;
    if n == ROOM {
        return rt.write_all(b"the list is longer than the room for it\n");
    }
    play(&rt, &list[..n])
}
