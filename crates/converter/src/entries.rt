// Stores the entries of a file of one edition as those of another.
ghost use Rattle.std.specs.Prelude.{◌≡◌, length, ◌+◌, ◌*◌, ◌≤◌};
ghost use Rattle.plan_file.specs.Encoding.{entry_length, bodies_bytes};
ghost use Rattle.plan_file.specs.Decoding.{entries_at};
ghost use Rattle.byte_words.specs.Buffers.{over};

use byte_words::{put_words, word_at};
use plan_file::layout::Layout;

// From the edition F to the edition T. (All six words of an entry are read before they are stored, so that the compiler can
// store several at once: with `copy_words` into an array of zeros, converting the longest plan took 11.1 µs forward and 11.9
// back instead of 10.1 and 10.9, and forward 1.03 of the plain program's time instead of 0.98.) Both buffers have the
// entries from byte `start` on; two slices would be no plainer, as their length gives the count only divided by a size that
// a type names. (By index: tried with `chunks_exact_mut` of `out`, the proof did not close. What a loop over it wrote is not
// known.)
pub(crate) fn put_entries<F: Layout, T: Layout>(
    file: &[u8],
    out: &mut [u8],
    start: usize,
    count: usize,
)
    requires { (start + count * entry_length F.edition ≤ length file.now) × (start + count * entry_length T.edition ≤ length out.old) }
    ensures { out.new ≡
        over out.old start (bodies_bytes T.edition (entries_at F.edition file.now start count)) }
{
    for i in 0..count {
        let k = start + i * F::ENTRY_BYTES;
        let words = [
            word_at(file, k),
            word_at(file, k + 4),
            word_at(file, k + 8),
            word_at(file, k + 12),
            word_at(file, k + 16),
            F::jitter(file, k),
        ];
        put_words(
            &mut out[start + i * T::ENTRY_BYTES..],
            &words[..T::FILE_WORDS],
        );
    }
}
