// The check of a row, and those of a plan in memory, part by part.
ghost use Rattle.std.specs.Prelude.{◌≡◌, map, length, eqb, ◌*◌, ◌≤◌};
ghost use Rattle.refusals.specs.Refusals.{outcome, at, ◌and_then◌, must_hold};
ghost use Rattle.node_words.specs.Words.{entry_size, entries_from};
ghost use Rattle.plan_file.specs.Plan.{most_nodes, entry_count, row_of};
ghost use Rattle.plan_file.specs.Check.{row_test, rows_check, bodies_by};

use super::Row;
use node_words::ENTRY_WORDS;
use node_words::in_words::EntriesInWords;
use refusals::Refusal;
use task_model::entries::ListCheck;
use task_model::{MOST_ENTRIES, levels_hold};

// Whether a row's number is at least `least`, and its levels and entry count are within the limits.
pub(crate) fn row_holds(least: u32, r: Row) -> bool
    ensures { result ≡ row_test least r }
{
    least <= r.number as u32 && levels_hold(r.levels as u32) && r.count as usize <= MOST_ENTRIES
}

// Checks each row (4), then that `words` is the number of words of all entries that the rows count (6).
pub(crate) fn check_rows(rows: &[u32], words: usize) -> Result<(), Refusal>
    requires { length rows.now ≤ most_nodes }
    ensures { outcome result ≡
        (rows_check 0 0 (map row_of rows.now)
        and_then must_hold (eqb words (entry_count (map row_of rows.now) * entry_size)) (at 6 0 0)) }
{
    let mut least: u32 = 0;
    let mut total: usize = 0;
    for (i, &word) in rows.iter().enumerate() {
        let r = Row::from(word);
        if !row_holds(least, r) {
            return Err(Refusal::Row { row: i });
        }
        least = r.number as u32 + 1;
        total += r.count as usize;
    }
    if words != total * ENTRY_WORDS {
        return Err(Refusal::FileLength);
    }
    Ok(())
}

// Checks all nodes that are to be written, row by row. The entries of a row are checked once those before it have passed.
pub(crate) fn check_nodes<C: ListCheck>(
    rows: &[u32],
    words: &[u32],
    check: &mut C,
) -> Result<(), Refusal>
    requires { entry_count (map row_of rows.now) * entry_size ≤ length words.now }
    ensures { outcome result ≡
        bodies_by C.says_all 0 (map row_of rows.now)
        (entries_from words.now 0 (entry_count (map row_of rows.now))) }
{
    let mut first: usize = 0;
    for (row, &word) in rows.iter().enumerate() {
        let count = Row::from(word).count as usize;
        let entries = EntriesInWords {
            words,
            first,
            count,
        };
        check.check_all(row, &entries)?;
        first += count;
    }
    Ok(())
}
