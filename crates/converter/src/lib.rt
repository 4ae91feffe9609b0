#![tactic(auto)]

// Converts plan files from one edition to the other.
mod entries;
mod losses;

ghost use Rattle.std.specs.Prelude.{◌≡◌, true, length, leb, ◌+◌, ◌*◌, ◌≤◌};
ghost use Rattle.refusals.specs.Refusals.{at, must_hold};
ghost use Rattle.refusals.specs.Answers.{answer_by, answered, giving, left};
ghost use Rattle.plan_file.specs.Plan.{most_nodes};
ghost use Rattle.plan_file.specs.Encoding.{header_length, entry_length, bodies_start, contents_bytes, bodies_bytes, encoding};
ghost use Rattle.plan_file.specs.Decoding.{opening_test, entries_at, plan_in};
ghost use Rattle.plan_file.specs.Accepted.{bytes_of};
ghost use Rattle.plan_file.specs.Contents.{rows_of};
ghost use Rattle.byte_words.specs.Buffers.{over};
ghost use Rattle.converter.specs.Conversion.{other, convert_check, ConvertCall};
ghost use Rattle.converter.specs.RoundTrip.{ConvertedAgain};

use entries::put_entries;
use losses::NothingLost;
use plan_file::layout::{First, Second};
use plan_file::stages::Contents;
use plan_file::store::{put_contents, put_header};
use plan_file::{Edition, MOST_NODES, PlanFile};
use refusals::Refusal;
use task_model::entries::Each;

// Checks a file that is to be converted, but for the buffer: as check_file does, then that it is of the other edition (2), and
// that nothing of its entries is lost (15).
fn check_conversion(to: Edition, file: &[u8]) -> Result<PlanFile, Refusal>
    ensures { answer_by bytes_of result ≡ giving (convert_check to file.now) file.now }
{
    let plan = PlanFile::check(file)?;
    if plan.edition() == to {
        return Err(Refusal::OpeningBytes);
    }
    if to == Edition::Second {
        return Ok(plan);
    }
    plan.contents()
        .check_bodies::<Second, _>(&mut Each::<NothingLost>::new())?;
    Ok(plan)
}

// Stores contents for an edition: the rows, each with its new offset.
fn put_rows(to: Edition, contents: &Contents, out: &mut [u8])
    requires { (contents.now.nodes ≤ most_nodes) × (bodies_start contents.now.nodes ≤ length out.old) }
    ensures { out.new ≡
        over out.old header_length
        (contents_bytes (entry_length to) (bodies_start contents.now.nodes) (rows_of contents.now)) }
{
    let mut rows = [0u32; MOST_NODES as usize];
    contents.copy_rows(&mut rows);
    put_contents(to, out, &rows[..contents.nodes]);
}

// Stores the entries of a file of the other edition. (`start` and `count` for both buffers, as in put_entries.)
fn put_bodies(to: Edition, file: &[u8], out: &mut [u8], start: usize, count: usize)
    requires { (start + count * entry_length (other to) ≤ length file.now) × (start + count * entry_length to ≤ length out.old) }
    ensures { out.new ≡
        over out.old start (bodies_bytes to (entries_at (other to) file.now start count)) }
{
    // From a value to two types: no plainer, since only a match can choose a type by a value.
    match to {
        Edition::First => put_entries::<Second, First>(file, out, start, count),
        Edition::Second => put_entries::<First, Second>(file, out, start, count),
    }
}

// Writes the plan of a file of the other edition, and gives the new file's length. Refuses only a buffer that is too short
// (10).
fn write_converted(to: Edition, plan: &PlanFile, out: &mut [u8]) -> Result<usize, Refusal>
    requires { opening_test (other to) plan.now.bytes.now ≡ true }
    ensures answer { answered result ≡
        giving (must_hold (leb (length (encoding to (plan_in plan.now.bytes.now))) (length out.old)) (at 10 0 0))
        (length (encoding to (plan_in plan.now.bytes.now))) }
    ensures out_after { out.new ≡ left (answered result) (encoding to (plan_in plan.now.bytes.now)) out.old }
{
    let contents = plan.contents();
    let start = contents.bodies_start();
    let count = plan.entries();
    let length = start + count * to.entry_bytes();
    if out.len() < length {
        return Err(Refusal::ShortBuffer);
    }
    put_header(to, out, contents.nodes);
    put_rows(to, &contents, out);
    put_bodies(to, plan.bytes, out, start, count);
    Ok(length)
}

// Writes a file's plan in an edition, from the buffer's start, and gives the new file's length: forward or back. (C names the
// two ways, so each has a function of its own below.)
pub fn convert(to: Edition, file: &[u8], out: &mut [u8]) -> Result<usize, Refusal>
    ensures convert_call { ConvertCall to file.now out.old (answered result) out.new }
    ensures converted_again { ConvertedAgain to file.now (answered result) out.new }
{
    let plan = check_conversion(to, file)?;
    write_converted(to, &plan, out)
}

// Writes the plan of a file of the first edition in the second, with every J 0, from the buffer's start, and gives its
// length. Refuses as check_file does, then a file of the second edition (2), and a buffer that is too short (10). From what
// it wrote, back gives the lent file again, byte for byte.
pub fn forward(file: &[u8], out: &mut [u8]) -> Result<usize, Refusal>
    ensures convert_call { ConvertCall Edition.Second file.now out.old (answered result) out.new }
    ensures converted_again { ConvertedAgain Edition.Second file.now (answered result) out.new }
{
    convert(Edition::Second, file, out)
}

// Writes the plan of a file of the second edition in the first, from the buffer's start. Refuses as check_file does, then a
// file of the first edition (2), the first entry with a J above zero (15), and a buffer that is too short (10). From what it
// wrote, forward gives the lent file again, byte for byte.
pub fn back(file: &[u8], out: &mut [u8]) -> Result<usize, Refusal>
    ensures convert_call { ConvertCall Edition.First file.now out.old (answered result) out.new }
    ensures converted_again { ConvertedAgain Edition.First file.now (answered result) out.new }
{
    convert(Edition::First, file, out)
}
