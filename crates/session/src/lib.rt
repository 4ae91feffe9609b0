#![tactic(auto)]

// The session: one node that is changed entry by entry. Numbers in parentheses are the refusals of an operation, in the
// order of its checks.
pub mod in_words;
mod lent;

ghost use Rattle.std.specs.Prelude.{◌≡◌};
ghost use Rattle.std.specs.Fn.{FnOnceReturnsAtMut};
ghost use Rattle.refusals.specs.Answers.{answered, answer_by};
ghost use Rattle.completion.specs.Test.{completion};
ghost use Rattle.session.specs.State.{node_in, blank_session};
ghost use Rattle.session.specs.Operations.{changing, opening, inserting, removing, replacing, setting_levels};
ghost use Rattle.session.specs.Lent.{LeftBy};
ghost use Rattle.session.specs.Steps.{Follows};
ghost use Rattle.session.specs.Asking.{map_time_given};
ghost use Rattle.session.specs.Mapping.{Maps};
ghost use Rattle.session.specs.Timing.{time_answer};
ghost use Rattle.session.specs.InWords.{session_in, words_in};

use completion::Timing;
use in_words::{NODE_AT, STORE_AT};
use lent::{HoldsSession, LentSession};
use map_store::{STORE_WORDS, StoreWords};
use node_words::{NODE_WORDS, NodeWords};
use refusals::Refusal;
use task_model::Entry;

// How many words of 32 bits a session has: its level count, its entry count, the words of a node, and the store of its map.
pub const SESSION_WORDS: usize = STORE_AT + STORE_WORDS;

pub type SessionWords = [u32; SESSION_WORDS];

// One node, with room for the most entries that it may have, and the store of its map and its times, in words of 32 bits
// without padding.
// The count stands beside the words, for the memory of a session is fixed, and C lends it.
#[repr(C)]
#[derive(Clone, Copy, Debug, PartialEq, Eq)]
pub struct Session {
    levels: u32,
    count: u32,
    words: NodeWords,
    store: StoreWords,
}

// What an operation answers, and the session that it leaves.
#[derive(Clone, Copy, Debug, PartialEq, Eq)]
pub struct Changed {
    pub answer: Result<(), Refusal>,
    pub session: Session,
}

// A `Session` is read as it is.
impl HoldsSession for Session {
    ghost session = { λ s. s };

    fn lent(&self) -> LentSession<'_> {
        LentSession {
            levels: self.levels,
            count: self.count as usize,
            words: &self.words,
            store: &self.store,
        }
    }
}

// The session that words hold.
impl From<SessionWords> for Session {
    ghost from_gives = { λ w s. s ≡ session_in w };

    fn from(w: SessionWords) -> Session {
        let lent = w.lent();
        Session {
            levels: w[0],
            count: w[1],
            words: *lent.words,
            store: *lent.store,
        }
    }
}

// The words of a session.
impl From<Session> for SessionWords {
    ghost from_gives = { λ s w. w ≡ words_in s };

    fn from(s: Session) -> SessionWords {
        let mut w = [0u32; SESSION_WORDS];
        w[0] = s.levels;
        w[1] = s.count;
        w[NODE_AT..STORE_AT].copy_from_slice(&s.words);
        w[STORE_AT..].copy_from_slice(&s.store);
        w
    }
}

impl Changed {
    // An operation on a session, made in its words.
    fn by<F: FnOnce(&mut SessionWords) -> Result<(), Refusal>>(s: Session, operation: F) -> Changed
        requires { F.IsAlwaysCallable operation }
        ensures same { session_in (words_in s) ≡ s }
        ensures left { LeftBy (FnOnceReturnsAtMut F.FnOnce operation) s result }
    {
        let mut words = SessionWords::from(s);
        let answer = operation(&mut words);
        Changed {
            answer,
            session: Session::from(words),
        }
    }

    // Leaves the session in the one that is lent.
    fn leave_in(self, s: &mut Session) -> Result<(), Refusal>
        ensures answer { result ≡ self.answer }
        ensures session { s.new ≡ self.session }
    {
        *s = self.session;
        self.answer
    }
}

// A session that is not open: every operation but opening refuses it.
pub fn blank() -> Session
    ensures { result ≡ blank_session }
{
    Session {
        levels: 0,
        count: 0,
        words: [0u32; NODE_WORDS],
        store: [0u32; STORE_WORDS],
    }
}

// The changes by value, each made in the words of the session. They are alike but for the change that the closure calls: a
// public function for each, with arguments of its own. A position and an entry come from the caller, once for a change.

// Opens a session: an empty node with the given level count.
pub fn opened(s: Session, levels: u8) -> Changed
    ensures { Follows (opening levels) s result.answer result.session }
{
    Changed::by(s, |words| in_words::open(words, levels))
}

// Inserts an entry before a position, or just after the last entry.
pub fn inserted(s: Session, position: usize, e: Entry) -> Changed
    ensures { Follows (changing (inserting position e)) s result.answer result.session }
{
    Changed::by(s, |words| in_words::insert(words, position, e))
}

// Removes the entry at a position.
pub fn removed(s: Session, position: usize) -> Changed
    ensures { Follows (changing (removing position)) s result.answer result.session }
{
    Changed::by(s, |words| in_words::remove(words, position))
}

// Replaces the entry at a position.
pub fn replaced(s: Session, position: usize, e: Entry) -> Changed
    ensures { Follows (changing (replacing position e)) s result.answer result.session }
{
    Changed::by(s, |words| in_words::replace(words, position, e))
}

// Sets the level count.
pub fn with_levels(s: Session, levels: u8) -> Changed
    ensures { Follows (changing (setting_levels levels)) s result.answer result.session }
{
    Changed::by(s, |words| in_words::set_levels(words, levels))
}

// The changes of a lent session. They are thin over the ones by value above, which is a rule of the project
// (docs/DECISIONS.md, 13).

// Opens the lent session, whatever it held: an empty node with the given level count (4).
pub fn open(s: &mut Session, levels: u8) -> Result<(), Refusal>
    ensures { Follows (opening levels) s.old result s.new }
{
    opened(*s, levels).leave_in(s)
}

// Sets the level count (4).
pub fn set_levels(s: &mut Session, levels: u8) -> Result<(), Refusal>
    ensures { Follows (changing (setting_levels levels)) s.old result s.new }
{
    with_levels(*s, levels).leave_in(s)
}

// Inserts an entry before a position, or just after the last entry (12, 13, 7, 8, 14, 16).
pub fn insert(s: &mut Session, position: usize, e: Entry) -> Result<(), Refusal>
    ensures { Follows (changing (inserting position e)) s.old result s.new }
{
    inserted(*s, position, e).leave_in(s)
}

// Removes the entry at a position (12).
pub fn remove(s: &mut Session, position: usize) -> Result<(), Refusal>
    ensures { Follows (changing (removing position)) s.old result s.new }
{
    removed(*s, position).leave_in(s)
}

// Replaces the entry at a position (12, 7, 8, 14, 16).
pub fn replace(s: &mut Session, position: usize, e: Entry) -> Result<(), Refusal>
    ensures { Follows (changing (replacing position e)) s.old result s.new }
{
    replaced(*s, position, e).leave_in(s)
}

// The queries, of a session that is lent as a `Session` or as words.

// Times the entry at `i` in the group from `first` to `last` (12). The entries before the group are on higher levels.
pub fn time<S: HoldsSession>(s: &S, first: usize, last: usize, i: usize) -> Result<Timing, Refusal>
    ensures { answer_by completion result ≡ time_answer (node_in (S.session s.now)) first last i }
{
    s.lent().time(first, last, i)
}

// Maps the node: gives the stored map, one byte per entry from the start of `out` (10, 11). A refusal leaves `out` untouched.
pub fn map<S: HoldsSession>(s: &S, out: &mut [u8]) -> Result<u8, Refusal>
    ensures { Maps (S.session s.now) out.old result out.new }
{
    s.lent().map(out)
}

// The completion time of the entry at `i` under the stored map (12, 11).
pub fn map_time<S: HoldsSession>(s: &S, i: usize) -> Result<u32, Refusal>
    ensures { answered result ≡ map_time_given (S.session s.now) i }
{
    s.lent().map_time(i)
}
