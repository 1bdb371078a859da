// How many of a call's records there are, and how many differ.
ghost use Rattle.std.specs.Prelude.{◌≡◌, ◌+◌, ◌≤◌};
ghost use Rattle.stored_answers.specs.Records.{is_case, is_different, cases_by, differ_by, agrees_by};

use crate::program::{Calls, record_end};
use crate::stored;
use crate::stored::Record;

#[derive(Clone, Copy)]
pub struct Counts {
    pub cases: usize,
    pub differ: usize,
}

// The tally with the record, where it is one of the call.
fn counted<T: Calls>(state: T::State, r: Record, call: usize, t: Counts) -> Counts
    requires { (t.cases ≤ 65535) × (t.differ ≤ 65535) }
    ensures { (result.cases ≡ t.cases + is_case r.entry.s.now call r.entry.at) × (result.cases ≤ t.cases + 1)
        × (result.differ ≡ t.differ + is_different (T.agrees_of state r.entry.s.now r.entry.at) r.entry.s.now call r.entry.at) × (result.differ ≤ t.differ + 1) }
{
    if r.call() != call {
        return t;
    }
    if T::agrees(state, r) {
        return Counts {
            cases: t.cases + 1,
            differ: t.differ,
        };
    }
    Counts {
        cases: t.cases + 1,
        differ: t.differ + 1,
    }
}

// Every record's call is made, on one state; those of the call are compared.
pub fn tally<T: Calls>(s: &[u8], call: usize) -> Counts
    ensures { (result.cases ≡ cases_by T.lists_of s.now call)
        × (result.differ ≡ differ_by T.lists_of (agrees_by T.agrees_of T.after_of T.begun T.lists_of s.now) s.now call)
        × (result.cases ≤ 65535) × (result.differ ≤ 65535) }
{
    let n = stored::number_at(s, 0);
    let mut state = T::begin();
    let mut t = Counts {
        cases: 0,
        differ: 0,
    };
    let mut at: usize = 2;
    for i in 0..n {
        let r = Record { s, at };
        t = counted::<T>(state, r, call, t);
        state = T::after(state, r);
        at = record_end::<T>(r);
    }
    t
}
