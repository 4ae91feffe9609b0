// Lists of entries, wherever they lie, and the checks of all entries of a list.
ghost use Rattle.std.specs.Prelude.{◌≡◌, ◌↔◌, ℕ, true, List, length, take, replicate, ◌≤◌, ◌<◌};
ghost use Rattle.refusals.specs.Refusals.{outcome, Outcome};
ghost use Rattle.task_model.specs.declared.Entry.{Entry};
ghost use Rattle.task_model.specs.Limits.{entry_at};
ghost use Rattle.task_model.specs.Checks.{has_number, entry_check, entries_by, each_by, numbers_check, body_by, Passes, AllPass};

use super::{Entry, check_entry, entry_holds};
use refusals::Refusal;
use std::marker::PhantomData;

// A list of entries. It knows where they lie, and reads one at a time. It is no iterator: a refusal needs the position, and
// the entries before one are gone through again for its number, so an iterator would be counted, and made anew each time.
pub trait EntryList {
    // The entries.
    ghost entries: { Self → List Entry };

    // How many there are.
    fn len(&self) -> usize
        ensures { result ≡ length (entries self.now) };

    // The entry at a position.
    fn entry(&self, position: usize) -> Entry
        requires { position < length (entries self.now) }
        ensures { result ≡ entry_at (entries self.now) position };

    // Its number alone.
    fn number(&self, position: usize) -> u16
        requires { position < length (entries self.now) }
        ensures { result ≡ (entry_at (entries self.now) position).number };
}

// A check of an entry.
pub trait EntryCheck {
    // What it says of an entry, by the row, the position and the entry itself.
    ghost says: { ℕ → ℕ → Entry → Outcome };

    fn check(row: usize, position: usize, e: Entry) -> Result<(), Refusal>
        ensures { outcome result ≡ says row position e };

    // Whether the check accepts the entry, wherever it stands. It is quicker where most entries are accepted.
    fn holds(e: Entry) -> bool
        ensures { (result ≡ true) ↔ Passes says e };
}

// The check that an entry is within the limits.
#[derive(Clone, Copy, Debug, PartialEq, Eq)]
pub struct WithinLimits;

impl EntryCheck for WithinLimits {
    ghost says = { entry_check };

    fn check(row: usize, position: usize, e: Entry) -> Result<(), Refusal> {
        check_entry(row, position, e)
    }

    fn holds(e: Entry) -> bool {
        entry_holds(e)
    }
}

// Checks every entry of a list. Refuses the first that does not pass.
pub fn check_entries<C: EntryCheck, L: EntryList>(row: usize, list: &L) -> Result<(), Refusal>
    ensures { outcome result ≡ entries_by (C.says row) 0 (L.entries list.now) }
{
    for position in 0..list.len() {
        C::check(row, position, list.entry(position))?;
    }
    Ok(())
}

// Whether every entry of a list passes. The loop keeps no place of a refusal, because every accepted list goes through it.
// No `all` here and no `any` below: tried, and checking the longest plan took 36 % longer in the first edition and 23 % in the
// second, and with `any` alone 9 % and 24 %.
pub fn entries_hold<C: EntryCheck, L: EntryList>(list: &L) -> bool
    ensures { (result ≡ true) ↔ AllPass C.says (L.entries list.now) }
{
    for position in 0..list.len() {
        if !C::holds(list.entry(position)) {
            return false;
        }
    }
    true
}

// Whether one of the first `count` entries of a list has this number.
pub fn has_number<L: EntryList>(list: &L, count: usize, number: u16) -> bool
    requires { count ≤ length (L.entries list.now) }
    ensures { result ≡ has_number number (take count (L.entries list.now)) }
{
    for position in 0..count {
        if list.number(position) == number {
            return true;
        }
    }
    false
}

// Checks the numbers of a list. Refuses the first that an entry before it has (16). A number's mark is at its remainder by
// how many marks there are. So equal numbers share a mark, and few others do; the entries before are gone through only where
// the mark was met. `marks` may hold anything: a mark that was there before only costs time.
pub fn check_numbers<L: EntryList, const N: usize>(
    row: usize,
    list: &L,
    marks: &mut [u8; N],
    mark: u8,
) -> Result<(), Refusal>
    requires { 0 < N }
    ensures { outcome result ≡ numbers_check row (L.entries list.now) }
{
    for position in 0..list.len() {
        let number = list.number(position);
        let place = number as usize % N;
        if marks[place] == mark && has_number(list, position, number) {
            return Err(Refusal::Repeat { row, position });
        }
        marks[place] = mark;
    }
    Ok(())
}

// A check of all entries at a row.
pub trait ListCheck {
    // What it says of them, by the row and the list.
    ghost says_all: { ℕ → List Entry → Outcome };

    fn check_all<L: EntryList>(&mut self, row: usize, list: &L) -> Result<(), Refusal>
        ensures { outcome result ≡ says_all row (L.entries list.now) };
}

// Each entry by itself.
#[derive(Clone, Copy, Debug, PartialEq, Eq)]
pub struct Each<C: EntryCheck> {
    check: PhantomData<C>,
}

impl<C: EntryCheck> Each<C> {
    // There is only one: it keeps nothing.
    pub fn new() -> Self
        ensures only { (other : Each C) → other ≡ result }
    {
        Each { check: PhantomData }
    }
}

impl<C: EntryCheck> ListCheck for Each<C> {
    ghost says_all = { each_by C.says };

    fn check_all<L: EntryList>(&mut self, row: usize, list: &L) -> Result<(), Refusal> {
        check_entries::<C, L>(row, list)
    }
}

// Each entry by itself, then their numbers (16), with `N` marks. Only entries that fail are gone through for the place. Each
// row has a mark of its own, so the rows before cost none.
#[derive(Drop, Debug, PartialEq, Eq)]
pub struct Whole<C: EntryCheck, const N: usize> {
    check: PhantomData<C>,
    marks: [u8; N],
    ghost some: { 0 < N },
}

impl<C: EntryCheck, const N: usize> Whole<C, N> {
    // The marks are those of no number.
    pub fn new() -> Self
        requires { 0 < N }
        ensures { result.marks ≡ replicate N 0 }
    {
        Whole {
            check: PhantomData,
            marks: [0; N],
        }
    }
}

impl<C: EntryCheck, const N: usize> ListCheck for Whole<C, N> {
    ghost says_all = { body_by C.says };

    // Inlined: a call for each node made writing 32 nodes without entries take 1.7 times as long.
    #[inline(always)]
    fn check_all<L: EntryList>(&mut self, row: usize, list: &L) -> Result<(), Refusal> {
        if !entries_hold::<C, L>(list) {
            check_entries::<C, L>(row, list)?;
        }
        check_numbers(row, list, &mut self.marks, (row % 255 + 1) as u8)
    }
}
