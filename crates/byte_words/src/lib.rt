#![tactic(auto)]

// Words of 32 bits in bytes, low byte first.
ghost use Rattle.std.specs.Prelude.{◌≡◌, length, ◌+◌, ◌*◌, ◌≤◌};
ghost use Rattle.byte_words.specs.Bytes.{low, word_at, words_from, bytes_of};
ghost use Rattle.byte_words.specs.Buffers.{over};

// The word in the four bytes from byte `k` on, low byte first.
pub fn word_at(file: &[u8], k: usize) -> u32
    requires { k + 4 ≤ length file.now }
    ensures { result ≡ word_at file.now k }
{
    u32::from_le_bytes(*file[k..k + 4].as_array().unwrap())
}

// Fills `words` with those of the bytes, from their start. (By index: tried with `zip` over `as_chunks` of the bytes, the
// proof did not close. What a loop over both wrote is not known.)
pub fn copy_words(bytes: &[u8], words: &mut [u32])
    requires { length words.old * 4 ≤ length bytes.now }
    ensures { words.new ≡ words_from bytes.now 0 (length words.old) }
{
    for (i, word) in words.iter_mut().enumerate() {
        *word = word_at(bytes, i * 4);
    }
}

// Stores a word as four bytes from byte `k` on, low byte first.
pub fn put_word(file: &mut [u8], k: usize, word: u32)
    requires { k + 4 ≤ length file.old }
    ensures { file.new ≡ over file.old k (low 4 word) }
{
    file[k..k + 4].copy_from_slice(&word.to_le_bytes());
}

// Stores words, one after the other, from the start of the bytes. (By index: tried with `chunks_exact_mut` of the bytes, the
// proof did not close. What a loop over it wrote is not known.)
pub fn put_words(bytes: &mut [u8], words: &[u32])
    requires { length words.now * 4 ≤ length bytes.old }
    ensures { bytes.new ≡ over bytes.old 0 (bytes_of words.now) }
{
    for (i, &word) in words.iter().enumerate() {
        put_word(bytes, i * 4, word);
    }
}
