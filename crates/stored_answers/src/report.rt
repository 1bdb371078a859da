// A line for each call, with its counts, on standard output.
ghost use Rattle.std.specs.Prelude.{◌≡◌, ◌+◌, IfOk};
ghost use Rattle.stored_answers.specs.Records.{sum_of, cases_by, differ_by, agrees_by};

use crate::program::Calls;
use crate::tally;
use crate::tally::Counts;
use std::io;
use std::io::Print;

fn print_counts<T: Calls, R: Print>(rt: &R, name: &str, t: Counts) -> io::Result<()> {
    let records = T::RECORDS;
    println!(rt; "{name}: {} {records}, {} differ", t.cases, t.differ)
}

// A line for each call; the sums over all of them.
fn each_call<T: Calls, R: Print>(rt: &R, s: &[u8]) -> io::Result<Counts>
    ensures { IfOk result (λ all. (all.cases ≡ sum_of (cases_by T.lists_of s.now) (T.LAST + 1))
        × (all.differ ≡ sum_of (differ_by T.lists_of (agrees_by T.agrees_of T.after_of T.begun T.lists_of s.now) s.now) (T.LAST + 1))) }
{
    let mut all = Counts {
        cases: 0,
        differ: 0,
    };
    for call in 0..T::LAST + 1 {
        let t = tally::tally::<T>(s, call);
        print_counts::<T, R>(rt, T::name(call), t)?;
        all = Counts {
            cases: all.cases + t.cases,
            differ: all.differ + t.differ,
        };
    }
    Ok(all)
}

pub fn report<T: Calls, R: Print>(rt: &R, s: &[u8]) -> io::Result<Counts>
    ensures { IfOk result (λ all. (all.cases ≡ sum_of (cases_by T.lists_of s.now) (T.LAST + 1))
        × (all.differ ≡ sum_of (differ_by T.lists_of (agrees_by T.agrees_of T.after_of T.begun T.lists_of s.now) s.now) (T.LAST + 1))) }
{
    let all = each_call::<T, R>(rt, s)?;
    print_counts::<T, R>(rt, "all", all)?;
    Ok(all)
}
