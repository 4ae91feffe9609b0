// A plan file that has passed every check.
ghost use Rattle.std.specs.Prelude.{◌≡◌, ◌≤◌, ◌<◌};
ghost use Rattle.refusals.specs.Refusals.{accepted};
ghost use Rattle.plan_file.specs.Plan.{most_nodes, entry_count};
ghost use Rattle.plan_file.specs.Decoding.{edition_of, node_count, rows_in};
ghost use Rattle.plan_file.specs.Check.{file_check};
ghost use Rattle.plan_file.specs.Contents.{parts};
ghost use Rattle.plan_file.specs.Answers.{Loaded};

use super::read::copy_entries;
use super::stages::{Contents, Header};
use super::{Edition, Row, check_file};
use node_words::{ENTRY_WORDS, NodeWords};
use refusals::Refusal;

// The bytes of a plan file that check_file accepts.
#[derive(Clone, Copy, Debug, PartialEq, Eq)]
pub struct PlanFile<'a> {
    pub bytes: &'a [u8],
    ghost accepted: { file_check bytes.now ≡ accepted },
}

// Copies the words of a row's entries from an accepted file. (Tried in load_node itself, the proof did not close: that its
// items are below 256, the check knows of a lent slice, and not of a slice in a struct.)
fn load(file: &[u8], row: usize, words: &mut NodeWords) -> Row
    requires { (file_check file.now ≡ accepted) × (row < node_count file.now) }
    ensures { Loaded file.now row result words.old words.new }
{
    let contents = PlanFile { bytes: file }.contents();
    let r = contents.row(row);
    copy_entries(
        contents.edition(),
        &file[contents.offset(row)..],
        &mut words[..r.count as usize * ENTRY_WORDS],
    );
    r
}

impl<'a> PlanFile<'a> {
    ghost use Rattle.refusals.specs.Answers.{answer_by, giving};
    ghost use Rattle.plan_file.specs.Accepted.{bytes_of};

    // Checks a plan file, as check_file does.
    pub fn check(bytes: &'a [u8]) -> Result<PlanFile<'a>, Refusal>
        ensures { answer_by bytes_of result ≡ giving (file_check bytes.now) bytes.now }
    {
        check_file(bytes)?;
        Ok(PlanFile { bytes })
    }

    // The file's edition.
    pub fn edition(&self) -> Edition
        ensures { result ≡ edition_of self.now.bytes.now }
    {
        Header { file: self.bytes }.edition()
    }

    // How many nodes it has: 1 to 32.
    pub fn nodes(&self) -> usize
        ensures value { result ≡ node_count self.now.bytes.now }
        ensures some { 1 ≤ result }
        ensures few { result ≤ most_nodes }
    {
        Header { file: self.bytes }.nodes()
    }

    // Its rows.
    pub fn contents(&self) -> Contents<'a>
        ensures { parts result ≡ (self.now.bytes.now, node_count self.now.bytes.now) }
    {
        Contents {
            file: self.bytes,
            nodes: self.nodes(),
        }
    }

    // How many entries its nodes have in all.
    pub fn entries(&self) -> usize
        ensures { result ≡ entry_count (rows_in self.now.bytes.now) }
    {
        let start = self.contents().bodies_start();
        self.edition().entries_in(self.bytes.len() - start)
    }

    // Copies the words of a row's entries to the start of the array, and returns the row.
    pub fn load_node(&self, row: usize, words: &mut NodeWords) -> Row
        requires { row < node_count self.now.bytes.now }
        ensures { Loaded self.now.bytes.now row result words.old words.new }
    {
        load(self.bytes, row, words)
    }
}
