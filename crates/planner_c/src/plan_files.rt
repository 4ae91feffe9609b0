// Plan files for C: checking, reading and writing.
ghost use Rattle.std.specs.Prelude.{◌≡◌, ◌↔◌, map, length};
ghost use Rattle.plan_file.specs.Answers.{read_answer};
ghost use Rattle.plan_file.specs.Editions.{edition_for};
ghost use Rattle.refusals.specs.Answers.{answered, left};
ghost use Rattle.plan_file.specs.Check.{file_check};
ghost use Rattle.plan_file.specs.Decoding.{plan_in};
ghost use Rattle.plan_file.specs.Encoding.{encoding};
ghost use Rattle.plan_file.specs.Limits.{IsPlanFile};
ghost use Rattle.plan_file.specs.RoundTrips.{WrittenAgain, ReadAgain};
ghost use Rattle.plan_file.specs.Plan.{row_word, plan_of};
ghost use Rattle.node_words.specs.Words.{words_of};
ghost use Rattle.planner_c.specs.Returned.{returned, given, checked, sized_plan, sized};
ghost use Rattle.planner_c.specs.Writing.{write_for};

use super::returned::give;
use plan_file::Edition;
use refusals::Refusal;

// Checks a plan file. Returns 0 exactly for the files of plans within the limits.
#[unsafe(no_mangle)]
pub extern "C" fn maiplur_check(file: &[u8], values: &mut [usize; 3]) -> u32
    ensures answered { returned result values.new ≡ checked (file_check file.now) }
    ensures exactly { (returned result values.new ≡ given 0 0 0) ↔ IsPlanFile file.now }
{
    give(plan_file::check_file(file), values)
}

// Reads a file's plan into buffers: one word per row, and six per entry. Gives how many rows and entries it filled, and the
// file's edition. From the filled words, maiplur_write writes the same bytes in that edition.
#[unsafe(no_mangle)]
pub extern "C" fn maiplur_read(
    file: &[u8],
    rows: &mut [u32],
    entries: &mut [u32],
    values: &mut [usize; 3],
) -> u32
    ensures answered { returned result values.new ≡
        sized_plan (read_answer file.now (length rows.old) (length entries.old)) }
    ensures rows { rows.new ≡
        left (read_answer file.now (length rows.old) (length entries.old))
        (map row_word (plan_in file.now).rows) rows.old }
    ensures entries { entries.new ≡
        left (read_answer file.now (length rows.old) (length entries.old))
        (words_of (plan_in file.now).entries) entries.old }
    ensures written_again { WrittenAgain file.now
        (read_answer file.now (length rows.old) (length entries.old))
        rows.new entries.new }
{
    give(plan_file::read_plan(file, rows, entries), values)
}

// Writes a plan as a file of the edition with this number (2 if there is none).
fn write_in(edition: u32, rows: &[u32], entries: &[u32], file: &mut [u8]) -> Result<usize, Refusal>
    ensures answered { answered result ≡ write_for edition rows.now entries.now (length file.old) }
    ensures written { file.new ≡
        left (answered result) (encoding (edition_for edition) (plan_of rows.now entries.now)) file.old }
    ensures read_again { ReadAgain (edition_for edition) rows.now entries.now (answered result) file.new }
{
    let edition = Edition::try_from(edition)?;
    plan_file::write_plan(edition, rows, entries, file)
}

// Writes a plan as a file of edition 1 or 2 from the buffer's start. Gives the file's length. From the written file,
// maiplur_read reads the same words and the same edition.
#[unsafe(no_mangle)]
pub extern "C" fn maiplur_write(
    edition: u32,
    rows: &[u32],
    entries: &[u32],
    file: &mut [u8],
    values: &mut [usize; 3],
) -> u32
    ensures answered { returned result values.new ≡
        sized (write_for edition rows.now entries.now (length file.old)) }
    ensures written { file.new ≡
        left (write_for edition rows.now entries.now (length file.old))
        (encoding (edition_for edition) (plan_of rows.now entries.now)) file.old }
    ensures read_again { ReadAgain (edition_for edition) rows.now entries.now
        (write_for edition rows.now entries.now (length file.old)) file.new }
{
    give(write_in(edition, rows, entries, file), values)
}
