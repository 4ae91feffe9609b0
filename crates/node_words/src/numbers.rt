// The numbers of entries in words, and how many marks there are for the check that a node holds each once.
ghost use Rattle.std.specs.Prelude.{◌≡◌, length, ◌+◌, ◌*◌, ◌≤◌};
ghost use Rattle.refusals.specs.Refusals.{outcome};
ghost use Rattle.task_model.specs.Checks.{has_number, numbers_check};
ghost use Rattle.node_words.specs.Words.{entry_size, entries_from};
ghost use Rattle.node_words.specs.Marks.{mark_count};

use super::in_words::EntriesInWords;
use refusals::Refusal;
use task_model::entries;

// How many marks there are.
pub const MARKS: usize = 1024;

// Checks the numbers of a node in memory (16). The marks may hold anything. (Here for what it asks: `entries::check_numbers`
// leaves open how many marks there are.)
pub(crate) fn check_numbers(
    row: usize,
    entries: &EntriesInWords,
    marks: &mut [u8; MARKS],
) -> Result<(), Refusal>
    requires { length marks.old ≡ mark_count }
    ensures { outcome result ≡
        numbers_check row (entries_from entries.now.words.now entries.now.first entries.now.count) }
{
    entries::check_numbers(row, entries, marks, 1)
}

// Whether one of `count` entries, from entry `first` of the words on, has this number. (No plainer without
// this: each caller would make the list for itself, and give its count twice.)
pub fn has_number(words: &[u32], first: usize, count: usize, number: u16) -> bool
    requires { (first + count) * entry_size ≤ length words.now }
    ensures { result ≡ has_number number (entries_from words.now first count) }
{
    entries::has_number(
        &EntriesInWords {
            words,
            first,
            count,
        },
        count,
        number,
    )
}
