// Whether a list is whole: its records are all there, of known calls, and nothing is behind them.
ghost use Rattle.std.specs.Prelude.{◌≡◌};
ghost use Rattle.stored_answers.specs.Records.{damage_at, damage_by};
ghost use Rattle.stored_answers.specs.Damage.{damage_number};

use crate::program::{Calls, record_end};
use crate::stored;
use crate::stored::Record;
use std::fmt;

#[derive(Clone, Copy, Debug, PartialEq, Eq)]
pub enum Damage {
    CutShort,
    UnknownCall,
    BytesBehind,
}

impl fmt::Display for Damage {
    fn fmt<W: fmt::Write>(&self, f: &mut fmt::Formatter<W>) -> fmt::Result {
        match self {
            Damage::CutShort => write!(f, "the list is cut short"),
            Damage::UnknownCall => write!(f, "the list has a record of an unknown call"),
            Damage::BytesBehind => write!(f, "the list has bytes behind its last record"),
        }
    }
}

fn record_damage<T: Calls>(r: Record) -> Result<(), Damage>
    ensures { damage_number result ≡ damage_at T.lists_of T.LAST r.entry.s.now r.entry.at }
{
    if r.s.len() < r.at + 4 {
        return Err(Damage::CutShort);
    }
    if T::LAST < r.call() {
        return Err(Damage::UnknownCall);
    }
    if r.s.len() < record_end::<T>(r) {
        return Err(Damage::CutShort);
    }
    Ok(())
}

pub fn check<T: Calls>(s: &[u8]) -> Result<(), Damage>
    ensures { damage_number result ≡ damage_by T.lists_of T.LAST s.now }
{
    if s.len() < 2 {
        return Err(Damage::CutShort);
    }
    let n = stored::number_at(s, 0);
    let mut at: usize = 2;
    for i in 0..n {
        let r = Record { s, at };
        record_damage::<T>(r)?;
        at = record_end::<T>(r);
    }
    if at != s.len() {
        return Err(Damage::BytesBehind);
    }
    Ok(())
}
