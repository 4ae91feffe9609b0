// Reads entries out of a file.
ghost use Rattle.std.specs.Prelude.{◌≡◌, length, ◌*◌, ◌/◌, ◌%◌, ◌≤◌};
ghost use Rattle.plan_file.specs.Encoding.{entry_length};
ghost use Rattle.plan_file.specs.Decoding.{entries_at};
ghost use Rattle.node_words.specs.Words.{entry_size, words_of};
ghost use Rattle.byte_words.specs.Buffers.{over};

use super::layout::{First, entry_at};
use super::{Edition, FIRST_ENTRY_BYTES};
use byte_words::copy_words;
use node_words::{ENTRY_WORDS, store_entry};

// Fills `words` with those of entries of the first edition, from the start of the bytes, of which there may be more. (By
// index: tried with `chunks_exact_mut` of the words, the proof did not close. What a loop over it wrote is not known.)
fn copy_first(bytes: &[u8], words: &mut [u32])
    requires { length words.old / entry_size * entry_length Edition.First ≤ length bytes.now }
    ensures { words.new ≡
        over words.old 0 (words_of (entries_at Edition.First bytes.now 0 (length words.old / entry_size))) }
{
    for i in 0..words.len() / ENTRY_WORDS {
        let e = entry_at::<First>(bytes, i * FIRST_ENTRY_BYTES);
        store_entry(words, i * ENTRY_WORDS, e);
    }
}

// Fills `words`, which are those of whole entries, with the words of entries from the start of the bytes. A file of the
// second edition has just these words. (No plainer without the match: only one chooses by a value whether a loop goes over
// entries or over words. Nor with arrays of six words: a plan in memory is words, and the contracts speak of those.)
pub(crate) fn copy_entries(edition: Edition, bytes: &[u8], words: &mut [u32])
    requires { (length words.old % entry_size ≡ 0) × (length words.old / entry_size * entry_length edition ≤ length bytes.now) }
    ensures { words.new ≡ words_of (entries_at edition bytes.now 0 (length words.old / entry_size)) }
{
    match edition {
        Edition::First => copy_first(bytes, words),
        Edition::Second => copy_words(bytes, words),
    }
}
