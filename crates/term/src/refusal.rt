// The numbers of documents 01 and 02 by which a call refuses.
ghost use Rattle.std.specs.Prelude.{◌≡◌};
ghost use Rattle.term.specs.Refusal.{refusal_number};

use std::fmt;

// One case for each number, in their order: document 01, "The nine numbers", and then those of document 02.
#[derive(Clone, Copy, Debug, PartialEq, Eq)]
pub enum Refusal {
    TextTooLong,
    ForeignByte,
    BadName,
    NotATerm,
    FreeName,
    TableTooShort,
    NotATable,
    SliceTooLong,
    NotAState,
    NothingOnTop,
    NoRoom,
    NoSuchNode,
    NotInNumbers,
    FreeNumber,
    Elsewhere,
    RecordsTooLong,
}

impl Refusal {
    pub fn number(self) -> u32
        ensures { result ≡ refusal_number self }
    {
        match self {
            Refusal::TextTooLong => 1,
            Refusal::ForeignByte => 2,
            Refusal::BadName => 3,
            Refusal::NotATerm => 4,
            Refusal::FreeName => 5,
            Refusal::TableTooShort => 6,
            Refusal::NotATable => 7,
            Refusal::SliceTooLong => 8,
            Refusal::NotAState => 9,
            Refusal::NothingOnTop => 10,
            Refusal::NoRoom => 11,
            Refusal::NoSuchNode => 12,
            Refusal::NotInNumbers => 13,
            Refusal::FreeNumber => 14,
            Refusal::Elsewhere => 15,
            Refusal::RecordsTooLong => 16,
        }
    }
}

// As `winder` says it: "A refusal prints `refused` and the number."
impl fmt::Display for Refusal {
    fn fmt<W: fmt::Write>(&self, f: &mut fmt::Formatter<W>) -> fmt::Result {
        write!(f, "refused {}", self.number())
    }
}
