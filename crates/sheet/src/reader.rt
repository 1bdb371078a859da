// A small reader of the lent codes list: the next link's code, and the reader moved on by one link. Who keeps no reader calls `read`, whose parameters are plain.
ghost use Rattle.std.specs.Prelude.{◌≡◌, ◌+◌, ◌<◌, ◌^◌, get_or};
ghost use Rattle.sheet.specs.Read.{kind_at};

use super::code::{Kind, take_apart};

// The lent codes list and the next link.
#[derive(Clone, Copy)]
pub struct Reader<'a> {
    pub codes: &'a [u16],
    pub link: usize,
}

impl<'a> Reader<'a> {
    pub fn new(codes: &'a [u16], link: usize) -> Reader<'a>
        ensures { (result.codes ≡ codes.entry) × (result.link ≡ link) }
    {
        Reader { codes, link }
    }

    // The next link's code.
    pub fn next(self) -> u16
        ensures { result ≡ get_or self.entry.codes.now self.entry.link 0 }
    {
        code_at(self.codes, self.link)
    }

    // The reader moved on by one link.
    pub fn moved(self) -> Reader<'a>
        requires { self.link + 1 < 2 ^ 64 }
        ensures { (result.codes ≡ self.entry.codes) × (result.link ≡ self.entry.link + 1) }
    {
        Reader {
            codes: self.codes,
            link: self.link + 1,
        }
    }
}

// The work: a link's code. Past the end of the list there is nothing to move, as at a fixed link.
fn code_at(codes: &[u16], link: usize) -> u16
    ensures { result ≡ get_or codes.now link 0 }
{
    codes.get(link).copied().unwrap_or(0)
}

// A link's code.
pub fn read(codes: &[u16], link: usize) -> u16
    ensures { result ≡ get_or codes.now link 0 }
{
    Reader::new(codes, link).next()
}

// What a link is.
#[tactic(auto, unfolding(crate::specs::Read::kind_at))]
pub fn kind_at(codes: &[u16], link: usize) -> Kind
    ensures { result ≡ kind_at codes.now link }
{
    take_apart(read(codes, link))
}
