// The session for C. It is lent as words: its level count, its entry count, the words of a node, and the store of its map.
// C names a function for each operation, so the functions here are alike, and take what C lends as numbers.
ghost use Rattle.std.specs.Prelude.{◌≡◌, length};
ghost use Rattle.refusals.specs.Answers.{left};
ghost use Rattle.node_words.specs.Words.{entry_from};
ghost use Rattle.level_map.specs.Answer.{NodeBestMapOrNone};
ghost use Rattle.map_store.specs.Store.{stored_levels};
ghost use Rattle.session.specs.State.{node_in, Sound};
ghost use Rattle.session.specs.Operations.{changing, opening, inserting, removing, replacing, setting_levels};
ghost use Rattle.session.specs.Timing.{time_answer};
ghost use Rattle.session.specs.Asking.{map_given, map_time_given};
ghost use Rattle.session.specs.InWords.{session_in};
ghost use Rattle.planner_c.specs.Returned.{returned, sized, timed};
ghost use Rattle.planner_c.specs.Changes.{Changes};

use super::returned::give;
use node_words::EntryWords;
use session::{SessionWords, in_words};

// Opens a session, whatever the words held: an empty node with the given level count.
#[unsafe(no_mangle)]
pub extern "C" fn maiplur_session_open(
    words: &mut SessionWords,
    levels: u8,
    values: &mut [usize; 3],
) -> u32
    ensures { Changes (opening levels) words.old (returned result values.new) words.new }
{
    give(in_words::open(words, levels), values)
}

// Sets the level count.
#[unsafe(no_mangle)]
pub extern "C" fn maiplur_session_set_levels(
    words: &mut SessionWords,
    levels: u8,
    values: &mut [usize; 3],
) -> u32
    ensures { Changes (changing (setting_levels levels)) words.old (returned result values.new) words.new }
{
    give(in_words::set_levels(words, levels), values)
}

// Inserts an entry before a position, or just after the last entry.
#[unsafe(no_mangle)]
pub extern "C" fn maiplur_session_insert(
    words: &mut SessionWords,
    position: usize,
    entry: &EntryWords,
    values: &mut [usize; 3],
) -> u32
    ensures { Changes (changing (inserting position (entry_from entry.now 0))) words.old
        (returned result values.new) words.new }
{
    let e = node_words::entry_of(entry, 0);
    give(in_words::insert(words, position, e), values)
}

// Removes the entry at a position.
#[unsafe(no_mangle)]
pub extern "C" fn maiplur_session_remove(
    words: &mut SessionWords,
    position: usize,
    values: &mut [usize; 3],
) -> u32
    ensures { Changes (changing (removing position)) words.old (returned result values.new) words.new }
{
    give(in_words::remove(words, position), values)
}

// Replaces the entry at a position.
#[unsafe(no_mangle)]
pub extern "C" fn maiplur_session_replace(
    words: &mut SessionWords,
    position: usize,
    entry: &EntryWords,
    values: &mut [usize; 3],
) -> u32
    ensures { Changes (changing (replacing position (entry_from entry.now 0))) words.old
        (returned result values.new) words.new }
{
    let e = node_words::entry_of(entry, 0);
    give(in_words::replace(words, position, e), values)
}

// Times the entry at `i` in the group from `first` to `last`. Gives the completion time, or 0 if the entry is late, the
// rounds, and the overrun, or 0 if the entry is on time.
#[unsafe(no_mangle)]
pub extern "C" fn maiplur_session_time(
    words: &SessionWords,
    first: usize,
    last: usize,
    i: usize,
    values: &mut [usize; 3],
) -> u32
    ensures { returned result values.new ≡
        timed (time_answer (node_in (session_in words.now)) first last i) }
{
    give(session::time(words, first, last, i), values)
}

// Maps the node: one byte per entry from the buffer's start. Gives the count of levels used. The map is the stored one.
#[unsafe(no_mangle)]
pub extern "C" fn maiplur_session_map(
    words: &SessionWords,
    levels: &mut [u8],
    values: &mut [usize; 3],
) -> u32
    ensures answered { returned result values.new ≡
        sized (map_given (session_in words.now) (length levels.old)) }
    ensures written { levels.new ≡
        left (map_given (session_in words.now) (length levels.old))
        (stored_levels (session_in words.now).store (session_in words.now).count) levels.old }
    ensures best { Sound (session_in words.now) →
        NodeBestMapOrNone (node_in (session_in words.now)) levels.old
        (map_given (session_in words.now) (length levels.old)) levels.new }
{
    give(session::map(words, levels), values)
}

// Gives the completion time of the entry at `i` under the stored map.
#[unsafe(no_mangle)]
pub extern "C" fn maiplur_session_map_time(
    words: &SessionWords,
    i: usize,
    values: &mut [usize; 3],
) -> u32
    ensures { returned result values.new ≡ sized (map_time_given (session_in words.now) i) }
{
    give(session::map_time(words, i), values)
}
