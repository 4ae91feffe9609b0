// An entry, and the entries of a node, that are within the limits.
ghost use Rattle.std.specs.Prelude.{◌≡◌, ◌≤◌, ◌<◌};
ghost use Rattle.task_model.specs.Limits.{most_entries, AllHold, EntryHolds};
ghost use Rattle.task_model.proofs.OneProof.{EntryHolds-prop, AllHold-prop};
ghost use Rattle.node_words.specs.Words.{entry_of, entries_of};

use super::{NodeWords, entry_at};
use task_model::Entry;

// An entry within the limits.
#[derive(Clone, Copy, Debug, PartialEq, Eq)]
pub struct HeldEntry {
    pub entry: Entry,
    ghost holds: { EntryHolds entry } by { EntryHolds-prop entry },
}

// The first `count` entries in the words of a node. Every one of them is within the limits. (The count stands beside the
// words: a node is lent as an array with room for all its entries, since there is no heap.)
#[derive(Clone, Copy, Debug, PartialEq, Eq)]
pub struct HeldEntries<'a> {
    pub words: &'a NodeWords,
    pub count: usize,
    ghost few: { count ≤ most_entries },
    ghost held: { AllHold (entries_of words.now count) } by { AllHold-prop (entries_of words.now count) },
}

// A function that needs only the entries before some position takes that position beside them: fewer entries of a node would
// be a value of their own, to be made and proved in each call.
impl<'a> HeldEntries<'a> {
    // The entry at a position.
    pub fn entry(&self, position: usize) -> HeldEntry
        requires { position < self.now.count }
        ensures { result.entry ≡ entry_of self.now.words.now position }
    {
        HeldEntry {
            entry: entry_at(self.words, position),
        }
    }
}
