#![tactic(auto)]

// Why a call is refused, and the number that a user sees.
ghost use Rattle.std.specs.Prelude.{◌≡◌, Some};
ghost use Rattle.refusals.specs.Refusals.{at, numbered, numbers_in};
ghost use Rattle.refusals.specs.Text.{refusal_text};

use std::error::Error;
use std::fmt;

// Why a call is refused, with the row and the entry position if the refusal has them. `numbered` in specs/Refusals gives
// the number that a user sees.
#[derive(Clone, Copy, Debug, PartialEq, Eq)]
pub enum Refusal {
    ShortFile,
    OpeningBytes,
    NodeCount,
    Row { row: usize },
    Offset { row: usize },
    FileLength,
    Kind { row: usize, position: usize },
    Times { row: usize, position: usize },
    NoSuchNode,
    ShortBuffer,
    NoMap,
    OutsideList,
    FullList,
    Jitter { row: usize, position: usize },
    JitterLost { row: usize, position: usize },
    Repeat { row: usize, position: usize },
}

// A refusal as a user and C see it: three numbers, so a place that the refusal has not is 0.
#[derive(Clone, Copy, Debug, PartialEq, Eq)]
pub struct Numbers {
    pub number: u8,
    pub row: usize,
    pub entry: usize,
}

impl Numbers {
    // A refusal with these places.
    fn at(number: u8, row: usize, entry: usize) -> Self
        ensures { numbers_in result ≡ at number row entry }
    {
        Numbers { number, row, entry }
    }
}

// The table, one line per refusal.
impl From<Refusal> for Numbers {
    ghost from_gives = { λ r n. numbers_in n ≡ numbered r };

    fn from(r: Refusal) -> Numbers {
        match r {
            Refusal::ShortFile => Numbers::at(1, 0, 0),
            Refusal::OpeningBytes => Numbers::at(2, 0, 0),
            Refusal::NodeCount => Numbers::at(3, 0, 0),
            Refusal::Row { row } => Numbers::at(4, row, 0),
            Refusal::Offset { row } => Numbers::at(5, row, 0),
            Refusal::FileLength => Numbers::at(6, 0, 0),
            Refusal::Kind { row, position } => Numbers::at(7, row, position),
            Refusal::Times { row, position } => Numbers::at(8, row, position),
            Refusal::NoSuchNode => Numbers::at(9, 0, 0),
            Refusal::ShortBuffer => Numbers::at(10, 0, 0),
            Refusal::NoMap => Numbers::at(11, 0, 0),
            Refusal::OutsideList => Numbers::at(12, 0, 0),
            Refusal::FullList => Numbers::at(13, 0, 0),
            Refusal::Jitter { row, position } => Numbers::at(14, row, position),
            Refusal::JitterLost { row, position } => Numbers::at(15, row, position),
            Refusal::Repeat { row, position } => Numbers::at(16, row, position),
        }
    }
}

// As the listing shows a refused file, without the end of the line.
impl fmt::Display for Refusal {
    ghost output = { λ r. Some (refusal_text (numbered r)) };

    fn fmt<W: fmt::Write>(&self, f: &mut fmt::Formatter<W>) -> fmt::Result {
        let Numbers { number, row, entry } = Numbers::from(*self);
        write!(f, "refused {number} row {row} entry {entry}")
    }
}

impl Error for Refusal {}
