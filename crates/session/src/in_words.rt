// The changes of a session that is lent as words: its level count, its entry count, the words of a node, and the store. They
// are made in place; a refused change writes nothing. Numbers in parentheses are the refusals, in the order of the checks.
// These are words, and not a struct, for C lends them. A position and an entry are two arguments here and in the checks: a
// caller gives them once for a change, so a struct of both would be made anew in each call.
ghost use Rattle.std.specs.Prelude.{◌≡◌, length, get_or, drop};
ghost use Rattle.std.specs.Option.{option_to_list};
ghost use Rattle.task_model.specs.Limits.{NodeHolds};
ghost use Rattle.node_words.specs.Words.{node_of};
ghost use Rattle.session.specs.State.{node_in};
ghost use Rattle.session.specs.Operations.{changing, opening, inserting, removing, replacing, setting_levels};
ghost use Rattle.session.specs.Lent.{remembered, remembered_at_levels, spliced, Spliceable};
ghost use Rattle.session.specs.InWords.{node_at, store_at, session_in, words_in, FollowsIn};

use super::SessionWords;
use super::lent::{HoldsSession, LentSession, check_levels};
use map_store::{StoreWords, store_at_levels, store_map};
use node_words::held::HeldEntries;
use node_words::list::{clear_from, keep_list, splice as splice_list};
use node_words::{NODE_WORDS, NodeWords};
use refusals::Refusal;
use task_model::Entry;

// Where the words of the node begin, and where the store does.
pub const NODE_AT: usize = 2;

pub const STORE_AT: usize = NODE_AT + NODE_WORDS;

// The session in the words.
impl HoldsSession for SessionWords {
    ghost session = { session_in };

    fn lent(&self) -> LentSession<'_> {
        LentSession {
            levels: self[0],
            count: self[1] as usize,
            words: self[NODE_AT..STORE_AT].as_array().unwrap(),
            store: self[STORE_AT..].as_array().unwrap(),
        }
    }
}

// The words of the node.
pub fn node_part(words: &SessionWords) -> NodeWords
    ensures { result ≡ (session_in words.now).words }
{
    *words.lent().words
}

// The words of the store.
pub fn store_part(words: &SessionWords) -> StoreWords
    ensures { result ≡ (session_in words.now).store }
{
    *words.lent().store
}

// The entries in the words before the store.
fn entries_before(front: &[u32]) -> HeldEntries<'_>
    requires size { length front.now ≡ store_at }
    requires held { NodeHolds (node_of (drop node_at front.now) (get_or front.now 1 0) (get_or front.now 0 0)) }
    ensures words { result.words.now ≡ drop node_at front.now }
    ensures count { result.count ≡ get_or front.now 1 0 }
{
    HeldEntries {
        words: front[NODE_AT..].as_array().unwrap(),
        count: front[1] as usize,
    }
}

// Works out the store afresh, after a change of the entries.
fn remember(words: &mut SessionWords)
    requires { NodeHolds (node_in (session_in words.old)) }
    ensures { words.new ≡ words_in (remembered (session_in words.old)) }
{
    let levels = words[0] as u8;
    let (front, store) = words.split_last_chunk_mut().unwrap();
    store_map(&entries_before(front), levels, store);
}

// Makes of the store what it becomes once the level count is set; it was `before`.
fn remember_at_levels(words: &mut SessionWords, before: u32)
    requires { NodeHolds (node_in (session_in words.old)) }
    ensures { words.new ≡ words_in (remembered_at_levels before (session_in words.old)) }
{
    let levels = words[0] as u8;
    let (front, store) = words.split_last_chunk_mut().unwrap();
    store_at_levels(&entries_before(front), before, levels, store);
}

// Puts an entry, if there is one, in place of the `gone` entries from a position on, and works out the store afresh.
fn splice(words: &mut SessionWords, position: usize, gone: usize, new: Option<Entry>)
    requires { Spliceable position gone (option_to_list new) (session_in words.old) }
    ensures { words.new ≡ words_in (remembered (spliced position gone (option_to_list new) (session_in words.old))) }
{
    let count = words[1] as usize;
    // No `words[NODE_AT..].first_chunk_mut()`, here and below: tried, the proof did not close. What is written through the
    // array is then not known of the part it was taken from.
    let (_, rest) = words.split_at_mut(NODE_AT);
    let left = splice_list(rest.first_chunk_mut().unwrap(), count, position, gone, new);
    words[1] = left as u32;
    remember(words);
}

// Opens a session, whatever the words held: an empty node with the given level count (4).
pub fn open(words: &mut SessionWords, levels: u8) -> Result<(), Refusal>
    ensures { FollowsIn (opening levels) words.old result words.new }
{
    check_levels(levels)?;
    clear_from(words, 1);
    words[0] = levels as u32;
    // An empty node has a map, of 0 levels.
    words[STORE_AT] = 1;
    Ok(())
}

// Sets the level count (4). Only a session without a map that gets more levels is searched for one.
pub fn set_levels(words: &mut SessionWords, levels: u8) -> Result<(), Refusal>
    ensures { FollowsIn (changing (setting_levels levels)) words.old result words.new }
{
    let lent = words.lent();
    let (before, count) = (lent.levels, lent.count);
    lent.check_set_levels(levels)?;
    let (_, rest) = words.split_at_mut(NODE_AT);
    keep_list(rest.first_chunk_mut().unwrap(), count);
    words[0] = levels as u32;
    remember_at_levels(words, before);
    Ok(())
}

// Inserts an entry before a position, or just after the last entry (12, 13, 7, 8, 14, 16). (Insert, remove and replace differ
// in their check and in what they splice. One function for the three would take the check as a closure, and its contract would
// have to say what each check asks: no plainer than the two calls.)
pub fn insert(words: &mut SessionWords, position: usize, e: Entry) -> Result<(), Refusal>
    ensures { FollowsIn (changing (inserting position e)) words.old result words.new }
{
    words.lent().check_insert(position, e)?;
    splice(words, position, 0, Some(e));
    Ok(())
}

// Removes the entry at a position (12).
pub fn remove(words: &mut SessionWords, position: usize) -> Result<(), Refusal>
    ensures { FollowsIn (changing (removing position)) words.old result words.new }
{
    words.lent().check_remove(position)?;
    splice(words, position, 1, None);
    Ok(())
}

// Replaces the entry at a position (12, 7, 8, 14, 16).
pub fn replace(words: &mut SessionWords, position: usize, e: Entry) -> Result<(), Refusal>
    ensures { FollowsIn (changing (replacing position e)) words.old result words.new }
{
    words.lent().check_replace(position, e)?;
    splice(words, position, 1, Some(e));
    Ok(())
}
