// Entries in words, as a list.
ghost use Rattle.std.specs.Prelude.{◌≡◌, length, ◌+◌, ◌*◌, ◌≤◌};
ghost use Rattle.node_words.specs.Words.{entry_size, entry_from, entries_from};

use super::{ENTRY_WORDS, entry_of};
use task_model::Entry;
use task_model::entries::EntryList;

// The `count` entries from entry `first` of the words on. (No plainer as a slice of `EntryWords`: each caller would cut its
// words into such arrays first, and the contracts, which speak of the words that C lends, would have to speak of both.)
#[derive(Clone, Copy, Debug, PartialEq, Eq)]
pub struct EntriesInWords<'a> {
    pub words: &'a [u32],
    pub first: usize,
    pub count: usize,
    ghost inside: { (first + count) * entry_size ≤ length words.now },
}

impl<'a> EntryList for EntriesInWords<'a> {
    ghost entries = { λ l. entries_from l.words.now l.first l.count };

    fn len(&self) -> usize {
        self.count
    }

    fn entry(&self, position: usize) -> Entry {
        entry_of(self.words, (self.first + position) * ENTRY_WORDS)
    }

    // By a remainder, since `as` must lose nothing. By bytes it would be no plainer: two would be taken out and put together.
    fn number(&self, position: usize) -> u16 {
        (self.words[(self.first + position) * ENTRY_WORDS] % 65536) as u16
    }
}
