// What the editions of a plan file differ in: the bytes that a file opens with, and the length of an entry.
ghost use Rattle.std.specs.Prelude.{◌≡◌, ◌/◌};
ghost use Rattle.plan_file.specs.Encoding.{opening_bytes, entry_length};
ghost use Rattle.plan_file.specs.Editions.{edition_number, EditionOf};
ghost use Rattle.plan_file.specs.Limits.{longest};

use super::{
    Edition, FIRST_ENTRY_BYTES, FIRST_OPENING, MOST_FIRST, MOST_SECOND, SECOND_ENTRY_BYTES,
    SECOND_OPENING,
};
use refusals::Refusal;

// The number by which C names an edition.
impl From<Edition> for usize {
    ghost from_gives = { λ edition n. n ≡ edition_number edition };

    fn from(edition: Edition) -> usize {
        match edition {
            Edition::First => 1,
            Edition::Second => 2,
        }
    }
}

// The edition with a number (2 if there is none).
impl TryFrom<u32> for Edition {
    type Error = Refusal;

    ghost try_from_gives = { EditionOf };

    fn try_from(number: u32) -> Result<Edition, Refusal> {
        match number {
            1 => Ok(Edition::First),
            2 => Ok(Edition::Second),
            _ => Err(Refusal::OpeningBytes),
        }
    }
}

// What an edition has, as a value that is known only when the program runs; `Layout` has the length of an entry for an
// edition as a type. One table of structs with all three would be no plainer: each function gives one of them.
impl Edition {
    // The four bytes that a file opens with.
    pub(crate) fn opening(self) -> [u8; 4]
        ensures { result ≡ opening_bytes self }
    {
        match self {
            Edition::First => FIRST_OPENING,
            Edition::Second => SECOND_OPENING,
        }
    }

    // How many bytes an entry has.
    pub fn entry_bytes(self) -> usize
        ensures { result ≡ entry_length self }
    {
        match self {
            Edition::First => FIRST_ENTRY_BYTES,
            Edition::Second => SECOND_ENTRY_BYTES,
        }
    }

    // How many entries so many bytes hold.
    pub fn entries_in(self, bytes: usize) -> usize
        ensures { result ≡ bytes / entry_length self }
    {
        bytes / self.entry_bytes()
    }

    // The most bytes of a file: a buffer of this length always suffices.
    pub fn most_bytes(self) -> usize
        ensures { result ≡ longest self }
    {
        match self {
            Edition::First => MOST_FIRST,
            Edition::Second => MOST_SECOND,
        }
    }
}
