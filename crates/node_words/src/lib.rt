#![tactic(auto)]

// The entries of a node as words of 32 bits: how they are read, stored, checked, and changed in place.
pub mod held;
pub mod in_words;
pub mod list;
pub mod numbers;

ghost use Rattle.std.specs.Prelude.{◌≡◌, length, ◌+◌, ◌*◌, ◌<◌, ◌≤◌, [], ◌∷◌};
ghost use Rattle.std.proofs.lemmas.List.Edits.{sets};
ghost use Rattle.refusals.specs.Refusals.{outcome};
ghost use Rattle.task_model.specs.Limits.{most_entries};
ghost use Rattle.task_model.specs.Checks.{node_check};
ghost use Rattle.node_words.specs.Words.{entry_size, node_size, entry_words, entry_from, entry_of, node_of};

use in_words::EntriesInWords;
use numbers::{MARKS, check_numbers};
use refusals::Refusal;
use task_model::entries::{WithinLimits, check_entries};
use task_model::{Entry, MOST_ENTRIES, levels_hold};

// Sizes in words of 32 bits: of an entry, and of a node with room for all its entries (specs/Words.antt).
pub const ENTRY_WORDS: usize = 6;

pub const NODE_WORDS: usize = MOST_ENTRIES * ENTRY_WORDS;

pub type EntryWords = [u32; ENTRY_WORDS];

pub type NodeWords = [u32; NODE_WORDS];

// The entry that six words hold: number, kind and calls in the first, then C, T, D, B and J. (Six numbers: with an array of
// them, which `first_chunk` took from the words below, mapping 64 entries took 19.6 µs in place of 15.5. No `From`, here and
// in `store_entry`: an impl must name a type of its own crate, and the crate of `Entry` knows nothing of words.)
pub fn entry_with(
    head: u32,
    wcet: u32,
    period: u32,
    deadline: u32,
    blocking: u32,
    jitter: u32,
) -> Entry
    ensures { result ≡ entry_from (head ∷ wcet ∷ period ∷ deadline ∷ blocking ∷ jitter ∷ []) 0 }
{
    let [low, high, kind, calls] = head.to_le_bytes();
    Entry {
        number: u16::from_le_bytes([low, high]),
        kind,
        calls,
        wcet,
        period,
        deadline,
        blocking,
        jitter,
    }
}

// The entry in the words of a slice from word `k` on.
pub fn entry_of(words: &[u32], k: usize) -> Entry
    requires { k + entry_size ≤ length words.now }
    ensures { result ≡ entry_from words.now k }
{
    entry_with(
        words[k],
        words[k + 1],
        words[k + 2],
        words[k + 3],
        words[k + 4],
        words[k + 5],
    )
}

// The entry at a position of a node.
pub fn entry_at(words: &NodeWords, position: usize) -> Entry
    requires { position < most_entries }
    ensures { result ≡ entry_of words.now position }
{
    entry_of(words, position * ENTRY_WORDS)
}

// Stores an entry's words in a slice, from word `k` on. (One by one: six words copied from an array were tried, and reading a
// plan of the first edition took 21.3 µs in place of 10.2.)
pub fn store_entry(words: &mut [u32], k: usize, e: Entry)
    requires { k + entry_size ≤ length words.old }
    ensures { words.new ≡ sets words.old k (entry_words e) }
{
    let [low, high] = e.number.to_le_bytes();
    words[k] = u32::from_le_bytes([low, high, e.kind, e.calls]);
    words[k + 1] = e.wcet;
    words[k + 2] = e.period;
    words[k + 3] = e.deadline;
    words[k + 4] = e.blocking;
    words[k + 5] = e.jitter;
}

// Checks a node: its counts of levels and entries (4), then each entry (7, 8, 14), then their numbers (16). (check_words on
// a node's own types. A public entry by docs/DECISIONS.md, 6: callers check memory from elsewhere by it.)
pub fn check_node(row: usize, words: &NodeWords, count: usize, levels: u8) -> Result<(), Refusal>
    ensures { outcome result ≡ node_check row (node_of words.now count levels) }
{
    check_words(row, words, count, levels as u32)
}

// The same for a node whose words are a slice, and whose level count has 32 bits. (Both counts are what a session or a file
// says; this is the check that makes them a node's.)
pub fn check_words(row: usize, words: &[u32], count: usize, levels: u32) -> Result<(), Refusal>
    requires { node_size ≤ length words.now }
    ensures { outcome result ≡ node_check row (node_of words.now count levels) }
{
    if !levels_hold(levels) || MOST_ENTRIES < count {
        return Err(Refusal::Row { row });
    }
    let entries = EntriesInWords {
        words,
        first: 0,
        count,
    };
    // One pass, and no quick one before it: a lent session that is refused would be gone through twice.
    check_entries::<WithinLimits, EntriesInWords>(row, &entries)?;
    check_numbers(row, &entries, &mut [0; MARKS])
}
