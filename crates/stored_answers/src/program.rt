// What a program that replays stored answers has of its own: its calls, by their numbers, and a state that they are made on one after the other.
ghost use Rattle.std.specs.Prelude.{◌≡◌, ◌+◌, ◌*◌, ◌≤◌, ℕ, Bool, List};
ghost use Rattle.stored_answers.specs.Stored.{number_at};
ghost use Rattle.stored_answers.specs.Records.{end_by};

use crate::stored::Record;

pub trait Calls {
    type State: Copy;

    // the calls are 0 to the last one
    ghost LAST: { ℕ };

    const LAST: usize;

    // what the report calls records
    const RECORDS: &'static str;

    ghost lists_of: { ℕ → ℕ };

    ghost begun: { Self.State };

    ghost after_of: { Self.State → List ℕ → ℕ → Self.State };

    ghost agrees_of: { Self.State → List ℕ → ℕ → Bool };

    fn name(call: usize) -> &'static str
        requires { call ≤ LAST };

    // How many lists a record of the call has.
    fn lists(call: usize) -> usize
        ensures { (result ≡ lists_of call) × (result ≤ 20) };

    // The state before the first record.
    fn begin() -> Self::State
        ensures { result ≡ begun };

    // The state after a record's call.
    fn after(state: Self::State, r: Record) -> Self::State
        ensures { result ≡ after_of state r.entry.s.now r.entry.at };

    // Whether the record has what its call answers.
    fn agrees(state: Self::State, r: Record) -> bool
        ensures { result ≡ agrees_of state r.entry.s.now r.entry.at };

    ghost few: { LAST ≤ 65535 };
}

// Where the record ends.
pub fn record_end<T: Calls>(r: Record) -> usize
    ensures { (result ≡ end_by T.lists_of r.entry.s.now r.entry.at) × (result ≤ r.entry.at + 1310744)
        × (result ≤ r.entry.at + 4 + 65537 * T.lists_of (number_at r.entry.s.now r.entry.at)) }
{
    r.place(T::lists(r.call()))
}
