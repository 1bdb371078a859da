// Why a call is refused, and the number that the caller gets for it.
ghost use Rattle.std.specs.Prelude.{◌≡◌};
ghost use Rattle.refusals.specs.Number.{paper_number, number_of};

use std::error::Error;
use std::fmt;

#[derive(Clone, Copy, Debug, PartialEq, Eq)]
pub enum Refusal {
    // The sizes list: its length, the chains, the links of a chain.
    Sizes = 1,
    // Codes not one, or floats not seven, a link.
    Lengths = 2,
    // An unlisted code.
    Codes = 3,
    // A chain with too few joints, a later one with too many, or too many in all.
    Joints = 4,
    // Limits not two a joint, or a pair out of range.
    Limits = 5,
    // A link's displacement or offset out of range.
    Floats = 6,
    // A joint block or a history of the wrong length, or a joint out of range.
    Block = 7,
    // Goals not 13 a chain, or one out of range.
    Goals = 8,
    // An output, scratch or record list that is too short.
    Room = 9,
    // Weights not eight, or one out of range.
    Weights = 10,
    // A tool for a chain that is not loaded, or one that fits no link.
    Tool = 11,
    // No arms are loaded.
    NoArms = 20,
    // No goals are set.
    NoGoals = 21,
    // No reset since loading.
    NoStart = 22,
}

impl Refusal {
    pub fn number(self) -> u16
        ensures { result ≡ paper_number self }
    {
        self as u16
    }
}

impl From<Refusal> for u16 {
    ghost from_gives = { λ refusal number. number ≡ paper_number refusal };

    fn from(refusal: Refusal) -> u16 {
        refusal.number()
    }
}

impl fmt::Display for Refusal {
    fn fmt<W: fmt::Write>(&self, f: &mut fmt::Formatter<W>) -> fmt::Result {
        f.write_str(match self {
            Refusal::Sizes => "the sizes list is wrong",
            Refusal::Lengths => "the sheet's lists do not fit its sizes",
            Refusal::Codes => "a code is not listed",
            Refusal::Joints => "a chain has too few or too many joints",
            Refusal::Limits => "the limits are wrong",
            Refusal::Floats => "a link's displacement or offset is out of range",
            Refusal::Block => "the joints are not as many as the arms have, or one is out of range",
            Refusal::Goals => "the goals are wrong",
            Refusal::Room => "a list to be written is too short",
            Refusal::Weights => "the weights are wrong",
            Refusal::Tool => "the tool is wrong",
            Refusal::NoArms => "no arms are loaded",
            Refusal::NoGoals => "no goals are set",
            Refusal::NoStart => "there was no reset since loading",
        })
    }
}

impl Error for Refusal {}

// The number of an answer, which the caller gets: 0 where the call was accepted.
pub fn number_of<T: Drop>(answer: Result<T, Refusal>) -> u16
    ensures { result ≡ number_of answer }
{
    match answer {
        Ok(_) => 0,
        Err(refusal) => refusal.number(),
    }
}
