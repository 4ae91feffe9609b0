// Stores the parts of a plan file into a buffer.
ghost use Rattle.std.specs.Prelude.{◌≡◌, map, length, ◌+◌, ◌*◌, ◌/◌, ◌%◌, ◌≤◌};
ghost use Rattle.plan_file.specs.Plan.{most_nodes, row_of};
ghost use Rattle.node_words.specs.Words.{entry_size, entries_of};
ghost use Rattle.plan_file.specs.Encoding.{header_length, row_length, entry_length, bodies_start, header_bytes, row_bytes, contents_bytes, bodies_bytes};
ghost use Rattle.byte_words.specs.Buffers.{over};

use super::{Edition, FIRST_ENTRY_BYTES, FIRST_ENTRY_WORDS, Row, bodies_start, row_start};
use byte_words::{put_word, put_words};
use node_words::ENTRY_WORDS;

// Stores a row, given as its word, with its offset.
fn put_row(file: &mut [u8], k: usize, word: u32, offset: u32)
    requires { k + row_length ≤ length file.old }
    ensures { file.new ≡ over file.old k (row_bytes offset (row_of word)) }
{
    put_word(file, k, word);
    put_word(file, k + 4, offset);
}

// Stores the opening bytes of an edition, the node count and three zero bytes. (`nodes` is what is stored, not a length of
// the buffer.)
pub fn put_header(edition: Edition, file: &mut [u8], nodes: usize)
    requires { header_length ≤ length file.old }
    ensures { file.new ≡ over file.old 0 (header_bytes edition nodes) }
{
    file[..4].copy_from_slice(&edition.opening());
    file[4] = (nodes % 256) as u8;
    file[5..8].fill(0);
}

// Stores the contents, each row with its offset.
pub fn put_contents(edition: Edition, file: &mut [u8], rows: &[u32])
    requires { (length rows.now ≤ most_nodes) × (bodies_start (length rows.now) ≤ length file.old) }
    ensures { file.new ≡
        over file.old header_length
        (contents_bytes (entry_length edition) (bodies_start (length rows.now)) (map row_of rows.now)) }
{
    let size = edition.entry_bytes();
    let mut offset = bodies_start(rows.len());
    for (row, &word) in rows.iter().enumerate() {
        put_row(file, row_start(row), word, offset as u32);
        offset += Row::from(word).count as usize * size;
    }
}

// Stores entries in the first edition, from the start of the bytes: the words of each but J. (All five are read before they are
// stored, so that the compiler can store several at once: with `&entry[..FIRST_ENTRY_WORDS]` writing the longest plan took 1.1 to
// 1.2 times as long. The bytes by index: tried with `chunks_exact_mut`, the proof did not close. What a loop over it wrote is not
// known.)
fn put_first(bytes: &mut [u8], words: &[u32])
    requires { length words.now / entry_size * entry_length Edition.First ≤ length bytes.old }
    ensures { bytes.new ≡
        over bytes.old 0 (bodies_bytes Edition.First (entries_of words.now (length words.now / entry_size))) }
{
    let (entries, _) = words.as_chunks::<ENTRY_WORDS>();
    for (i, entry) in entries.iter().enumerate() {
        let [head, wcet, period, deadline, blocking, _] = *entry;
        put_words(
            &mut bytes[i * FIRST_ENTRY_BYTES..],
            &[head, wcet, period, deadline, blocking],
        );
    }
}

// Stores the entries of the words, which are those of whole entries, from the start of the bytes. The second edition has all
// words of an entry. (The match as in copy_entries of read.rt.)
pub(crate) fn put_entries(edition: Edition, bytes: &mut [u8], words: &[u32])
    requires { (length words.now % entry_size ≡ 0) × (length words.now / entry_size * entry_length edition ≤ length bytes.old) }
    ensures { bytes.new ≡
        over bytes.old 0 (bodies_bytes edition (entries_of words.now (length words.now / entry_size))) }
{
    match edition {
        Edition::First => put_first(bytes, words),
        Edition::Second => put_words(bytes, words),
    }
}
