// Changes of a node's list of entries, made in place in its words and without any check. After a change, every word beyond
// the last entry is zero. (The words come with a count: memory is fixed and there is no heap, so no list that grows.)
ghost use Rattle.std.specs.Prelude.{◌≡◌, ◌++◌, ◌+◌, ◌-◌, ◌*◌, ◌≤◌, length, take};
ghost use Rattle.std.specs.Option.{option_to_list};
ghost use Rattle.std.proofs.lemmas.List.Edits.{sets};
ghost use Rattle.task_model.specs.Limits.{most_entries};
ghost use Rattle.node_words.specs.Words.{entry_size, words_of, entries_of};
ghost use Rattle.node_words.specs.Lists.{zeros, zero_padded, splice};

use super::{ENTRY_WORDS, NodeWords, store_entry};
use task_model::Entry;

// Sets every word to zero, from word `at` on.
pub fn clear_from(words: &mut [u32], at: usize)
    requires { at ≤ length words.old }
    ensures { words.new ≡ take at words.old ++ zeros (length words.old - at) }
{
    words[at..].fill(0);
}

// Keeps the first `count` entries, and clears every word beyond them.
pub fn keep_list(words: &mut NodeWords, count: usize)
    requires { count ≤ most_entries }
    ensures { words.new ≡ zero_padded (words_of (entries_of words.old count)) }
{
    clear_from(words, count * ENTRY_WORDS);
}

// Stores the words of an entry, if there is one, from word `k` on.
fn store_new(words: &mut [u32], k: usize, new: Option<Entry>)
    requires { k + length (option_to_list new) * entry_size ≤ length words.old }
    ensures { words.new ≡ sets words.old k (words_of (option_to_list new)) }
{
    if let Some(e) = new {
        store_entry(words, k, e);
    }
}

// Puts an entry, if there is one, in place of the `gone` entries from a position of a list of `count` entries on. Gives how
// many entries there are then.
pub fn splice(
    words: &mut NodeWords,
    count: usize,
    position: usize,
    gone: usize,
    new: Option<Entry>,
) -> usize
    requires within { (position + gone ≤ count) × (count ≤ most_entries) }
    requires room { count - gone + length (option_to_list new) ≤ most_entries }
    ensures left { result ≡ count - gone + length (option_to_list new) }
    ensures list { words.new ≡
        zero_padded (words_of (splice position gone (option_to_list new) (entries_of words.old count))) }
{
    let come = usize::from(new.is_some());
    let at = position * ENTRY_WORDS;
    let behind = (position + gone) * ENTRY_WORDS;
    words.copy_within(behind..count * ENTRY_WORDS, at + come * ENTRY_WORDS);
    store_new(words, at, new);
    let left = count - gone + come;
    clear_from(words, left * ENTRY_WORDS);
    left
}
