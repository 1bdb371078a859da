// The numbers that a record stores as lists of their own: a chain's, and a pick.
ghost use Rattle.std.specs.Prelude.{◌≡◌, ◌≤◌};
ghost use Rattle.replay_calls.specs.Arms.{list_number};

use stored_answers::stored;
use stored_answers::stored::Record;

// The u16 that is list k of the record, 0 where that has no byte.
pub fn list_number(r: Record, k: usize) -> u32
    requires { k ≤ 20 }
    ensures { result ≡ list_number r.entry.s.now r.entry.at k }
{
    stored::number_at(r.list(k), 0) as u32
}
