// A plan file as its check goes on: first there is a header, then a row for each node. Each step has the functions that the
// bytes at hand suffice for.
ghost use Rattle.std.specs.Prelude.{◌≡◌, map, length, ◌&&◌, ◌+◌, ◌*◌, ◌≤◌, ◌<◌};
ghost use Rattle.refusals.specs.Refusals.{outcome};
ghost use Rattle.refusals.specs.Answers.{answer_by, giving};
ghost use Rattle.byte_words.specs.Buffers.{over};
ghost use Rattle.plan_file.specs.Plan.{most_nodes, entry_count, row_word};
ghost use Rattle.plan_file.specs.Encoding.{header_length, entry_length, bodies_start};
ghost use Rattle.plan_file.specs.Decoding.{opening_test, edition_of, node_count, row_at, offset_at, entries_at};
ghost use Rattle.plan_file.specs.Check.{zeros_test, count_test, opens_test, layout_check, bodies_by, header_check};
ghost use Rattle.plan_file.specs.Find.{first_row};

use super::checks::row_holds;
use super::layout::{Body, Layout};
use super::{Edition, HEADER_BYTES, MOST_NODES, Row, bodies_start, row_start};
use byte_words::word_at;
use refusals::Refusal;
use std::marker::PhantomData;
use task_model::entries::ListCheck;

// The bytes of a file that has room for a header.
#[derive(Clone, Copy, Debug, PartialEq, Eq)]
pub struct Header<'a> {
    pub file: &'a [u8],
    ghost long: { header_length ≤ length file.now },
}

impl<'a> Header<'a> {
    // Whether the file begins with the four opening bytes of an edition.
    pub fn opens(&self, edition: Edition) -> bool
        ensures { result ≡ opening_test edition self.now.file.now }
    {
        self.file.starts_with(&edition.opening())
    }

    // Whether it begins with those of one of the editions.
    pub(crate) fn opens_known(&self) -> bool
        ensures { result ≡ opens_test self.now.file.now }
    {
        self.opens(Edition::First) || self.opens(Edition::Second)
    }

    // The edition, by the opening bytes.
    pub fn edition(&self) -> Edition
        ensures { result ≡ edition_of self.now.file.now }
    {
        if self.opens(Edition::Second) {
            return Edition::Second;
        }
        Edition::First
    }

    // The node count, in the byte after the opening ones.
    pub fn nodes(&self) -> usize
        ensures { (result ≡ node_count self.now.file.now) × (result < 256) }
    {
        usize::from(self.file[4])
    }

    // Whether there are 1 to 32 nodes, and the three bytes after their count are zero.
    pub(crate) fn counted(&self) -> bool
        ensures { result ≡ (count_test (node_count self.now.file.now) && zeros_test self.now.file.now) }
    {
        1 <= self.file[4] && self.file[4] <= MOST_NODES && self.file[5..8] == [0, 0, 0]
    }
}

// The bytes of a file that has room for a header and as many rows.
#[derive(Clone, Copy, Debug, PartialEq, Eq)]
pub struct Contents<'a> {
    pub file: &'a [u8],
    pub nodes: usize,
    ghost inside: { bodies_start nodes ≤ length file.now },
}

impl<'a> Contents<'a> {
    ghost use Rattle.plan_file.specs.Contents.{parts, rows_of};

    // Checks that there are 8 bytes (1), the opening bytes (2), the node count and the zero bytes (3), and that the contents
    // are complete (1). Gives as many rows as the file has nodes.
    pub(crate) fn check(file: &'a [u8]) -> Result<Contents<'a>, Refusal>
        ensures { answer_by parts result ≡ giving (header_check file.now) (file.now, node_count file.now) }
    {
        if file.len() < HEADER_BYTES {
            return Err(Refusal::ShortFile);
        }
        let header = Header { file };
        if !header.opens_known() {
            return Err(Refusal::OpeningBytes);
        }
        if !header.counted() {
            return Err(Refusal::NodeCount);
        }
        let nodes = header.nodes();
        if file.len() < bodies_start(nodes) {
            return Err(Refusal::ShortFile);
        }
        Ok(Contents { file, nodes })
    }

    // The file's edition.
    pub(crate) fn edition(&self) -> Edition
        ensures { result ≡ edition_of self.now.file.now }
    {
        Header { file: self.file }.edition()
    }

    // Where the first body begins.
    pub fn bodies_start(&self) -> usize
        ensures { result ≡ bodies_start self.now.nodes }
    {
        bodies_start(self.nodes)
    }

    // The row at an index.
    pub fn row(&self, row: usize) -> Row
        requires { row < self.now.nodes }
        ensures { result ≡ row_at self.now.file.now row }
    {
        Row::from(word_at(self.file, row_start(row)))
    }

    // Where the row says that its body begins.
    pub(crate) fn offset(&self, row: usize) -> usize
        requires { row < self.now.nodes }
        ensures { result ≡ offset_at self.now.file.now row }
    {
        word_at(self.file, row_start(row) + 4) as usize
    }

    // The index of the first row that has this number.
    pub(crate) fn find(&self, number: u16) -> Option<usize>
        ensures { result ≡ first_row number (rows_of self.now) }
    {
        (0..self.nodes).find(|&row| self.row(row).number == number)
    }

    // Copies the rows, without their offsets, to a buffer's start.
    pub fn copy_rows(&self, rows: &mut [u32])
        requires { self.now.nodes ≤ length rows.old }
        ensures { rows.new ≡ over rows.old 0 (map row_word (rows_of self.now)) }
    {
        for (row, word) in rows[..self.nodes].iter_mut().enumerate() {
            *word = word_at(self.file, row_start(row));
        }
    }

    // Checks each row (4) and its offset (5), then that the file ends with the last body (6). (No plainer as one function with
    // check_rows: a plan in memory has no offsets, and its last check is of words.)
    pub(crate) fn check_layout(&self, edition: Edition) -> Result<(), Refusal>
        requires { self.now.nodes ≤ most_nodes }
        ensures { outcome result ≡
            layout_check (entry_length edition) self.now.file.now 0 0 (bodies_start self.now.nodes) (rows_of self.now) }
    {
        let size = edition.entry_bytes();
        let mut least: u32 = 0;
        let mut required = self.bodies_start();
        for row in 0..self.nodes {
            let r = self.row(row);
            let held = row_holds(least, r);
            let placed = self.offset(row) == required;
            if !held {
                return Err(Refusal::Row { row });
            }
            if !placed {
                return Err(Refusal::Offset { row });
            }
            least = r.number as u32 + 1;
            required += r.count as usize * size;
        }
        if self.file.len() != required {
            return Err(Refusal::FileLength);
        }
        Ok(())
    }

    // Checks all bodies, row by row. The entries of a row are checked once those before it have passed. (check_nodes has the same
    // loop, over rows and entries in memory. One function for both would need a trait that gives the row and the entries at an
    // index, with an impl for each, in the place of two loops of five lines: no plainer.)
    pub fn check_bodies<E: Layout, C: ListCheck>(&self, check: &mut C) -> Result<(), Refusal>
        requires { bodies_start self.now.nodes + entry_count (rows_of self.now) * entry_length E.edition ≤
            length self.now.file.now }
        ensures { outcome result ≡
            bodies_by C.says_all 0 (rows_of self.now)
            (entries_at E.edition self.now.file.now (bodies_start self.now.nodes) (entry_count (rows_of self.now))) }
    {
        let mut start = self.bodies_start();
        for row in 0..self.nodes {
            let count = self.row(row).count as usize;
            let body: Body<E> = Body {
                file: self.file,
                start,
                count,
                edition: PhantomData,
            };
            check.check_all(row, &body)?;
            start += count * E::ENTRY_BYTES;
        }
        Ok(())
    }
}
