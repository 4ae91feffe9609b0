// The editions as types: where a file of each has what, and which entries it has a place for. So each loop over entries is
// compiled for an edition by itself.
ghost use Rattle.std.specs.Prelude.{◌≡◌, ℕ, length, ◌+◌, ◌*◌, ◌≤◌};
ghost use Rattle.node_words.specs.Words.{entry_from};
ghost use Rattle.plan_file.specs.declared.Edition.{Edition};
ghost use Rattle.plan_file.specs.declared.Edition.TheVariants as edition_is;
ghost use Rattle.plan_file.specs.Encoding.{entry_length};
ghost use Rattle.plan_file.specs.Decoding.{file_words, entry_in, entries_at};
ghost use Rattle.plan_file.specs.Check.{written_check};
ghost use Rattle.std.proofs.Common.{refl};

use super::{FIRST_ENTRY_BYTES, FIRST_ENTRY_WORDS, SECOND_ENTRY_BYTES};
use byte_words::word_at;
use node_words::ENTRY_WORDS;
use refusals::Refusal;
use std::marker::PhantomData;
use task_model::entries::{EntryCheck, EntryList};
use task_model::{Entry, check_entry, entry_holds};

// What a file of an edition has of an entry.
pub trait Layout {
    ghost edition: { Edition };

    ghost ENTRY_BYTES: { ℕ };

    // How many bytes.
    const ENTRY_BYTES: usize;

    ghost FILE_WORDS: { ℕ };

    // How many of its words in memory.
    const FILE_WORDS: usize;

    // The J of the entry from byte `k` on.
    fn jitter(file: &[u8], k: usize) -> u32
        requires { k + entry_length edition ≤ length file.now }
        ensures { result ≡ (entry_in edition file.now k).jitter };

    ghost entry_bytes: { ENTRY_BYTES ≡ entry_length edition };

    ghost entry_words: { FILE_WORDS ≡ file_words edition };
}

// The first edition, without J.
#[derive(Clone, Copy, Debug, PartialEq, Eq)]
pub struct First;

impl Layout for First {
    ghost edition = { edition_is.First };

    ghost ENTRY_BYTES = { 20 };

    const ENTRY_BYTES: usize = FIRST_ENTRY_BYTES;

    ghost FILE_WORDS = { 5 };

    const FILE_WORDS: usize = FIRST_ENTRY_WORDS;

    ghost entry_bytes = { refl };

    ghost entry_words = { refl };

    fn jitter(_file: &[u8], _k: usize) -> u32 {
        0
    }
}

// The second edition, in which J lies behind the bytes that both have.
#[derive(Clone, Copy, Debug, PartialEq, Eq)]
pub struct Second;

impl Layout for Second {
    ghost edition = { edition_is.Second };

    ghost ENTRY_BYTES = { 24 };

    const ENTRY_BYTES: usize = SECOND_ENTRY_BYTES;

    ghost FILE_WORDS = { 6 };

    const FILE_WORDS: usize = ENTRY_WORDS;

    ghost entry_bytes = { refl };

    ghost entry_words = { refl };

    fn jitter(file: &[u8], k: usize) -> u32 {
        word_at(file, k + FIRST_ENTRY_BYTES)
    }
}

// The check of an entry that is to be written in the first edition: as check_entry does, and that its J is 0 (14). (The second
// edition has a place for every J: `WithinLimits` is the check for it.)
impl EntryCheck for First {
    ghost says = { written_check edition_is.First };

    fn check(row: usize, position: usize, e: Entry) -> Result<(), Refusal> {
        check_entry(row, position, e)?;
        if 0 < e.jitter {
            return Err(Refusal::Jitter { row, position });
        }
        Ok(())
    }

    fn holds(e: Entry) -> bool {
        entry_holds(e) && e.jitter == 0
    }
}

// The number of the entry from byte `k` on, in either edition. (Two bytes, named: a part of the file as an array is no
// plainer.)
fn number_at<E: Layout>(file: &[u8], k: usize) -> u16
    requires { k + entry_length E.edition ≤ length file.now }
    ensures { result ≡ (entry_in E.edition file.now k).number }
{
    u16::from_le_bytes([file[k], file[k + 1]])
}

// The entry from byte `k` on. Kind and calls are single bytes, so that checking an entry takes no word apart.
pub(crate) fn entry_at<E: Layout>(file: &[u8], k: usize) -> Entry
    requires { k + entry_length E.edition ≤ length file.now }
    ensures { result ≡ entry_in E.edition file.now k }
{
    Entry {
        number: number_at::<E>(file, k),
        kind: file[k + 2],
        calls: file[k + 3],
        wcet: word_at(file, k + 4),
        period: word_at(file, k + 8),
        deadline: word_at(file, k + 12),
        blocking: word_at(file, k + 16),
        jitter: E::jitter(file, k),
    }
}

// The `count` entries from byte `start` of a file on. (No plainer as a slice of their bytes alone: the count would be its
// length, divided by a size that a type names.)
#[derive(Drop, Debug, PartialEq, Eq)]
pub struct Body<'a, E: Layout> {
    pub file: &'a [u8],
    pub start: usize,
    pub count: usize,
    pub edition: PhantomData<E>,
    ghost inside: { start + count * entry_length E.edition ≤ length file.now },
}

impl<'a, E: Layout> EntryList for Body<'a, E> {
    ghost entries = { λ b. entries_at E.edition b.file.now b.start b.count };

    fn len(&self) -> usize {
        self.count
    }

    fn entry(&self, position: usize) -> Entry {
        entry_at::<E>(self.file, self.start + position * E::ENTRY_BYTES)
    }

    fn number(&self, position: usize) -> u16 {
        number_at::<E>(self.file, self.start + position * E::ENTRY_BYTES)
    }
}
