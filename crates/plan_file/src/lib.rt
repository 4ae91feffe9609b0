#![tactic(auto)]

// Plan files: checking, reading, writing, and finding a node.
//
// In memory a plan is words of 32 bits (specs/Plan.antt). A row is one word: the first four bytes of the row in the file.
// An entry is six words: its 24 bytes in a file of the second edition; or its 20 bytes in a file of the first, and J 0. Both
// are low byte first, so fields have the same widths as in the file.
pub mod checked;
pub mod checks;
pub mod editions;
pub mod input;
pub mod layout;
mod read;
pub mod stages;
pub mod store;

ghost use Rattle.std.specs.Prelude.{◌≡◌, ◌↔◌, map, length, ◌+◌, ◌*◌, ◌≤◌, ◌<◌};
ghost use Rattle.refusals.specs.Refusals.{outcome, accepted};
ghost use Rattle.task_model.specs.Checks.{body_by, body_check};
ghost use Rattle.node_words.specs.Marks.{mark_count};
ghost use Rattle.node_words.specs.Words.{entry_size, entries_from, words_of};
ghost use Rattle.plan_file.specs.Plan.{entry_count, row_of};
ghost use Rattle.plan_file.specs.Encoding.{header_length, row_length, entry_length, bodies_start};
ghost use Rattle.plan_file.specs.Decoding.{entries_at};
ghost use Rattle.plan_file.specs.Contents.{rows_of};
ghost use Rattle.plan_file.specs.Check.{bodies_by, file_check, words_check};
ghost use Rattle.plan_file.specs.Limits.{IsPlanFile, IsPlanInMemory};
ghost use Rattle.plan_file.specs.Marks.{file_marks};
ghost use Rattle.plan_file.specs.Find.{node_found};
ghost use Rattle.plan_file.specs.Answers.{Holding, ReadCall, WriteCall, find_answer, itself};
ghost use Rattle.plan_file.specs.RoundTrips.{WrittenAgain, ReadAgain};
ghost use Rattle.refusals.specs.Answers.{answer_by, answered, left};

pub use checked::PlanFile;
use checks::{check_nodes, check_rows};
use layout::{First, Layout, Second};
use node_words::numbers::MARKS;
use node_words::{ENTRY_WORDS, NodeWords};
use read::copy_entries;
use refusals::Refusal;
use stages::Contents;
use store::{put_contents, put_entries, put_header};
use task_model::MOST_ENTRIES;
use task_model::entries::{EntryCheck, Whole, WithinLimits};

// The editions of a plan file. In the second, an entry has its J.
#[derive(Clone, Copy, Debug, PartialEq, Eq)]
pub enum Edition {
    First,
    Second,
}

// The four bytes that a plan file opens with, in each edition: one byte string, as the rules of the project
// ask (docs/DECISIONS.md, 13).
const FIRST_OPENING: [u8; 4] = *b"LMP1";

const SECOND_OPENING: [u8; 4] = *b"LMP2";

// Sizes in bytes: of the header before the contents, of a row of the contents, and of an entry in each edition.
pub const HEADER_BYTES: usize = 8;

pub const ROW_BYTES: usize = 8;

pub const FIRST_ENTRY_BYTES: usize = 20;

pub const SECOND_ENTRY_BYTES: usize = 24;

// How many of an entry's words a file of the first edition has: all but J.
pub const FIRST_ENTRY_WORDS: usize = 5;

// The most nodes of a plan.
pub const MOST_NODES: u8 = 32;

// The most bytes of a file in each edition, with 32 nodes of 64 entries: 41,224 and 49,416. (The sum stands twice: the value
// of a constant may call no function, not even a `const fn`.)
pub const MOST_FIRST: usize = HEADER_BYTES
    + MOST_NODES as usize * (ROW_BYTES + MOST_ENTRIES * FIRST_ENTRY_BYTES);

pub const MOST_SECOND: usize = HEADER_BYTES
    + MOST_NODES as usize * (ROW_BYTES + MOST_ENTRIES * SECOND_ENTRY_BYTES);

// How many marks there are for the numbers of a file's nodes. There are more than for one node, since they are cleared once for
// all nodes.
const FILE_MARKS: usize = 2048;

// Checks all bodies of a file, with FILE_MARKS marks for the numbers of each.
fn check_file_bodies<E: Layout>(
    contents: &Contents,
    check: &mut Whole<WithinLimits, FILE_MARKS>,
) -> Result<(), Refusal>
    requires marks { length check.old.marks ≡ file_marks }
    requires there { bodies_start contents.now.nodes + entry_count (rows_of contents.now) * entry_length E.edition ≤
        length contents.now.file.now }
    ensures { outcome result ≡
        bodies_by body_check 0 (rows_of contents.now)
        (entries_at E.edition contents.now.file.now (bodies_start contents.now.nodes) (entry_count (rows_of contents.now))) }
{
    contents.check_bodies::<E, _>(check)
}

// Checks all nodes of a plan in memory, by a check of each entry, with MARKS marks for the numbers of each.
fn check_marked_nodes<C: EntryCheck>(
    rows: &[u32],
    entries: &[u32],
    check: &mut Whole<C, MARKS>,
) -> Result<(), Refusal>
    requires marks { length check.old.marks ≡ mark_count }
    requires there { entry_count (map row_of rows.now) * entry_size ≤ length entries.now }
    ensures { outcome result ≡
        bodies_by (body_by C.says) 0 (map row_of rows.now)
        (entries_from entries.now 0 (entry_count (map row_of rows.now))) }
{
    check_nodes(rows, entries, check)
}

// The same with new marks. (Not inlined: so the writer has one table of marks on its stack, and the loop that compares numbers lies
// by itself. Inlined, writing plans of the second edition with numbers congruent modulo 1,024 took 1.26 times as long.)
#[inline(never)]
fn check_plan_nodes<C: EntryCheck>(rows: &[u32], entries: &[u32]) -> Result<(), Refusal>
    requires { entry_count (map row_of rows.now) * entry_size ≤ length entries.now }
    ensures { outcome result ≡
        bodies_by (body_by C.says) 0 (map row_of rows.now)
        (entries_from entries.now 0 (entry_count (map row_of rows.now))) }
{
    let mut check: Whole<C, MARKS> = Whole::new();
    check_marked_nodes(rows, entries, &mut check)
}

// Where the first body begins: right after the header and a row for each node.
pub(crate) fn bodies_start(nodes: usize) -> usize
    requires { bodies_start nodes ≤ usize.MAX }
    ensures { result ≡ bodies_start nodes }
{
    row_start(nodes)
}

// Where a row begins: right after the header and the rows before it.
pub(crate) fn row_start(row: usize) -> usize
    requires { header_length + row * row_length ≤ usize.MAX }
    ensures { result ≡ header_length + row * row_length }
{
    HEADER_BYTES + row * ROW_BYTES
}

// A row of the contents without its offset.
#[derive(Clone, Copy, Debug, PartialEq, Eq)]
pub struct Row {
    pub number: u16,
    pub levels: u8,
    pub count: u8,
}

// The row that a word holds.
impl From<u32> for Row {
    ghost from_gives = { λ word r. r ≡ row_of word };

    fn from(word: u32) -> Row {
        let [low, high, levels, count] = word.to_le_bytes();
        Row {
            number: u16::from_le_bytes([low, high]),
            levels,
            count,
        }
    }
}

// What was read: the file's edition, and how many rows and entries were filled.
#[derive(Clone, Copy, Debug, PartialEq, Eq)]
pub struct ReadPlan {
    pub edition: Edition,
    pub rows: usize,
    pub entries: usize,
}

// A node that was found: its levels, and how many entries it has.
#[derive(Clone, Copy, Debug, PartialEq, Eq)]
pub struct FoundNode {
    pub levels: u8,
    pub count: usize,
}

// Checks a plan file. The first check that is met gives the refusal. Accepts exactly the files of plans within the limits.
pub fn check_file(file: &[u8]) -> Result<(), Refusal>
    ensures answer { outcome result ≡ file_check file.now }
    ensures exactly { (outcome result ≡ accepted) ↔ IsPlanFile file.now }
{
    let contents = Contents::check(file)?;
    let edition = contents.edition();
    contents.check_layout(edition)?;
    // From a value to a type: no plainer, since only a match can choose a type by a value.
    match edition {
        Edition::First => check_file_bodies::<First>(&contents, &mut Whole::new()),
        Edition::Second => check_file_bodies::<Second>(&contents, &mut Whole::new()),
    }
}

// Checks rows and entries that are to be written in an edition. The first check that is met gives the refusal. Accepts
// exactly the words of plans within the limits, and in the first edition only those with every J zero. (Here and below, the
// edition, the rows and the entries are what C lends: a struct of them would be made anew in each call.)
pub fn check_plan(edition: Edition, rows: &[u32], entries: &[u32]) -> Result<(), Refusal>
    ensures answer { outcome result ≡ words_check edition rows.now entries.now }
    ensures exactly { (outcome result ≡ accepted) ↔ IsPlanInMemory edition rows.now entries.now }
{
    if rows.len() < 1 || (MOST_NODES as usize) < rows.len() {
        return Err(Refusal::NodeCount);
    }
    check_rows(rows, entries.len())?;
    // From a value to a type, as in check_file.
    match edition {
        Edition::First => check_plan_nodes::<First>(rows, entries),
        Edition::Second => check_plan_nodes::<WithinLimits>(rows, entries),
    }
}

// Writes a plan as a file of an edition, from the buffer's start, and gives the file's length. Refuses as check_plan does,
// then a buffer that is too short (10). From the written file, read_plan reads the same edition and the same words.
pub fn write_plan(
    edition: Edition,
    rows: &[u32],
    entries: &[u32],
    file: &mut [u8],
) -> Result<usize, Refusal>
    ensures write_call { WriteCall edition rows.now entries.now file.old (answered result) file.new }
    ensures read_again { ReadAgain edition rows.now entries.now (answered result) file.new }
{
    check_plan(edition, rows, entries)?;
    let start = bodies_start(rows.len());
    let count = entries.len() / ENTRY_WORDS;
    let length = start + count * edition.entry_bytes();
    if file.len() < length {
        return Err(Refusal::ShortBuffer);
    }
    put_header(edition, file, rows.len());
    put_contents(edition, file, rows);
    put_entries(edition, &mut file[start..], entries);
    Ok(length)
}

// Reads a file's plan into buffers: one word per row, and six per entry. Refuses as check_file does, then a buffer that is
// too short (10). From the filled words, write_plan writes the same bytes in the edition that this gives.
pub fn read_plan(file: &[u8], rows: &mut [u32], entries: &mut [u32]) -> Result<ReadPlan, Refusal>
    ensures read_call { ReadCall file.now rows.old entries.old (answer_by itself result)
        rows.new entries.new }
    ensures written_again { WrittenAgain file.now (answer_by itself result) rows.new entries.new }
{
    let accepted = PlanFile::check(file)?;
    let edition = accepted.edition();
    let nodes = accepted.nodes();
    let count = accepted.entries();
    if rows.len() < nodes {
        return Err(Refusal::ShortBuffer);
    }
    if entries.len() < count * ENTRY_WORDS {
        return Err(Refusal::ShortBuffer);
    }
    let contents = accepted.contents();
    contents.copy_rows(rows);
    let start = contents.bodies_start();
    copy_entries(edition, &file[start..], &mut entries[..count * ENTRY_WORDS]);
    Ok(ReadPlan {
        edition,
        rows: nodes,
        entries: count,
    })
}

// Finds the node with this number, and copies the words of its entries to the start of the array. Refuses as check_file
// does, then a number that no node has (9).
pub fn find_node(file: &[u8], number: u16, words: &mut NodeWords) -> Result<FoundNode, Refusal>
    ensures answer { answer_by itself result ≡ find_answer file.now number }
    ensures words_after { words.new ≡
        left (answer_by itself result) (words_of (node_found file.now number).entries) words.old }
    ensures holding { Holding (answer_by itself result) words.new (node_found file.now number) }
{
    let plan = PlanFile::check(file)?;
    let row = plan.contents().find(number).ok_or(Refusal::NoSuchNode)?;
    let r = plan.load_node(row, words);
    Ok(FoundNode {
        levels: r.levels,
        count: r.count as usize,
    })
}
