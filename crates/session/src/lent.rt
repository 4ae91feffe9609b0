// A session that is lent to be read: the checks of each operation, in their order, and the answers of the queries. Numbers in
// parentheses are the refusals. The session is checked first, like a node of a file: 4, then 7, 8 and 14 with the entry's
// position, then 16.
ghost use Rattle.std.specs.Prelude.{◌≡◌, not, ◌≤◌, ◌<◌};
ghost use Rattle.refusals.specs.Refusals.{at, outcome, ◌and_then◌, must_hold};
ghost use Rattle.refusals.specs.Answers.{answered, answer_by};
ghost use Rattle.task_model.specs.Limits.{most_entries};
ghost use Rattle.task_model.specs.Checks.{entry_check, has_number, node_check};
ghost use Rattle.node_words.specs.Lists.{remove_at};
ghost use Rattle.completion.specs.Test.{completion};
ghost use Rattle.session.specs.declared.Session.{Session};
ghost use Rattle.session.specs.State.{node_in};
ghost use Rattle.session.specs.Operations.{changing, asking, inserting, removing, replacing, setting_levels, timing, levels_check, step_check};
ghost use Rattle.session.specs.Lent.{session_lent};
ghost use Rattle.session.specs.Asking.{map_time_given};
ghost use Rattle.session.specs.Mapping.{Maps};
ghost use Rattle.session.specs.Timing.{time_answer};

use completion::Timing;
use completion::timed::TimedEntry;
use map_store::{StoreWords, stored_map, stored_time};
use node_words::held::HeldEntries;
use node_words::numbers::has_number;
use node_words::{NodeWords, check_words};
use refusals::Refusal;
use task_model::{Entry, MOST_ENTRIES, check_entry, levels_hold};

// What a session is read from: a `Session`, or the words that C lends.
pub trait HoldsSession {
    // The session.
    ghost session: { Self → Session };

    // The session, to be read.
    fn lent(&self) -> LentSession<'_>
        ensures { session_lent result ≡ session self.now };
}

// Checks that there are 1 to 64 levels (4).
pub fn check_levels(levels: u8) -> Result<(), Refusal>
    ensures { outcome result ≡ levels_check levels }
{
    if !levels_hold(levels as u32) {
        return Err(Refusal::Row { row: 0 });
    }
    Ok(())
}

// Checks an entry that is to stand at a position: its fields (7, 8, 14), then that its number is not taken (16).
fn check_new(position: usize, e: Entry, taken: bool) -> Result<(), Refusal>
    ensures { outcome result ≡ (entry_check 0 position e and_then must_hold (not taken) (at 16 0 position)) }
{
    check_entry(0, position, e)?;
    if taken {
        return Err(Refusal::Repeat { row: 0, position });
    }
    Ok(())
}

// The level count of a session, its entry count, the words of its node, and the store of its map.
#[derive(Clone, Copy, Debug, PartialEq, Eq)]
pub struct LentSession<'a> {
    pub levels: u32,
    pub count: usize,
    pub words: &'a NodeWords,
    pub store: &'a StoreWords,
}

impl<'a> LentSession<'a> {
    // Checks what the session holds.
    fn check(&self) -> Result<(), Refusal>
        ensures { outcome result ≡ node_check 0 (node_in (session_lent self.now)) }
    {
        // In a variable, here and below: tried with `self.words` in the call, the check does not follow the loan of a field that
        // becomes a slice there.
        let words = self.words;
        check_words(0, words, self.count, self.levels)
    }

    // Checks that the position is at most the entry count (12), that the list is not full (13), that the entry is within the
    // limits (7, 8, 14), and that no other has its number (16).
    pub fn check_insert(&self, position: usize, e: Entry) -> Result<(), Refusal>
        ensures { outcome result ≡ step_check (changing (inserting position e)) (node_in (session_lent self.now)) }
    {
        self.check()?;
        if self.count < position {
            return Err(Refusal::OutsideList);
        }
        if MOST_ENTRIES <= self.count {
            return Err(Refusal::FullList);
        }
        let words = self.words;
        let taken = has_number(words, 0, self.count, e.number);
        check_new(position, e, taken)
    }

    // Checks that there is an entry at the position (12).
    pub fn check_remove(&self, position: usize) -> Result<(), Refusal>
        ensures { outcome result ≡ step_check (changing (removing position)) (node_in (session_lent self.now)) }
    {
        self.check()?;
        if self.count <= position {
            return Err(Refusal::OutsideList);
        }
        Ok(())
    }

    // Whether an entry at another position than this one has this number.
    fn other_has_number(&self, position: usize, number: u16) -> bool
        requires { (position < self.now.count) × (self.now.count ≤ most_entries) }
        ensures { result ≡ has_number number (remove_at position (node_in (session_lent self.now)).entries) }
    {
        let words = self.words;
        has_number(words, 0, position, number)
            || has_number(words, position + 1, self.count - 1 - position, number)
    }

    // Checks that there is an entry at the position (12), that the new entry is within the limits (7, 8, 14), and that no other
    // has its number (16). The entry that goes does not count.
    pub fn check_replace(&self, position: usize, e: Entry) -> Result<(), Refusal>
        ensures { outcome result ≡ step_check (changing (replacing position e)) (node_in (session_lent self.now)) }
    {
        self.check_remove(position)?;
        let taken = self.other_has_number(position, e.number);
        check_new(position, e, taken)
    }

    // Checks that the new count of levels is 1 to 64 (4).
    pub fn check_set_levels(&self, levels: u8) -> Result<(), Refusal>
        ensures { outcome result ≡ step_check (changing (setting_levels levels)) (node_in (session_lent self.now)) }
    {
        self.check()?;
        check_levels(levels)
    }

    // Checks that the group is in the list, and that the entry is in the group (12).
    fn check_time(&self, first: usize, last: usize, i: usize) -> Result<(), Refusal>
        ensures { outcome result ≡ step_check (asking (timing first last i)) (node_in (session_lent self.now)) }
    {
        self.check()?;
        if i < first || last < i || self.count <= last {
            return Err(Refusal::OutsideList);
        }
        Ok(())
    }

    // Times the entry at `i` in the group from `first` to `last` (12). The entries before the group are on higher levels.
    pub fn time(&self, first: usize, last: usize, i: usize) -> Result<Timing, Refusal>
        ensures { answer_by completion result ≡ time_answer (node_in (session_lent self.now)) first last i }
    {
        self.check_time(first, last, i)?;
        let node = HeldEntries {
            words: self.words,
            count: self.count,
        };
        let timed = TimedEntry {
            node,
            first,
            last,
            position: i,
        };
        Ok(timed.completion_test())
    }

    // Maps the node: gives the stored map, one byte per entry from the start of `out` (10, 11). A refusal leaves `out`
    // untouched. (`map_time` asks the store for something else after the same check: one function of both would be no plainer.)
    pub fn map(&self, out: &mut [u8]) -> Result<u8, Refusal>
        ensures { Maps (session_lent self.now) out.old result out.new }
    {
        self.check()?;
        stored_map(self.store, self.levels as u8, self.count, out)
    }

    // The completion time of the entry at `i` under the stored map (12, 11).
    pub fn map_time(&self, i: usize) -> Result<u32, Refusal>
        ensures { answered result ≡ map_time_given (session_lent self.now) i }
    {
        self.check()?;
        stored_time(self.store, self.levels as u8, self.count, i)
    }
}
