#![tactic(auto)]

// The store of a node: its map, with every entry's completion time under it, in words that a session keeps. It is worked out
// once, and asked as often as one likes.
ghost use Rattle.std.specs.Prelude.{◌≡◌, ◌∷◌, ◌++◌, ◌-◌, ◌*◌, ◌≤◌, length, drop};
ghost use Rattle.std.proofs.Math.Option.{some};
ghost use Rattle.refusals.specs.Answers.{answered, left};
ghost use Rattle.task_model.specs.Limits.{most_entries};
ghost use Rattle.node_words.specs.Held.{held_entries};
ghost use Rattle.node_words.specs.Words.{node_of};
ghost use Rattle.node_words.specs.Lists.{zeros};
ghost use Rattle.completion.specs.Group.{group_level};
ghost use Rattle.completion.specs.Test.{completion_test, time_in};
ghost use Rattle.level_map.specs.Assignments.{levels_used};
ghost use Rattle.level_map.specs.Found.{levels_in};
ghost use Rattle.map_store.specs.Store.{times_at, store_of, store_at_levels, keeping, has_map, stored_levels};
ghost use Rattle.map_store.specs.Asking.{map_asked, time_asked};
ghost use Rattle.map_store.specs.Putting.{Put, known_time, known_next};

use completion::entry_sums::wcet_sum;
use level_map::cuts::{Cuts, Group};
use level_map::find_cuts;
use node_words::held::HeldEntries;
use on_time::completion_time;
use refusals::Refusal;
use task_model::{Entry, MOST_ENTRIES};

// Where the levels begin, and where the times do. Before them stand whether there is a map, 1 or 0, and how many levels it
// uses: a store is words that C lends, so it has a flag and a count where Rust has an Option.
const LEVELS_AT: usize = 2;

const TIMES_AT: usize = LEVELS_AT + MOST_ENTRIES;

// How many words a store has.
pub const STORE_WORDS: usize = TIMES_AT + MOST_ENTRIES;

pub type StoreWords = [u32; STORE_WORDS];

// A time before which no entry of a group ends whose B is `blocking` or more.
#[derive(Clone, Copy, Debug, PartialEq, Eq)]
struct Known {
    blocking: u32,
    time: u32,
}

// A time before which an entry with this B does not end; 0 is one if nothing is known.
#[tactic(auto, unfolding(crate::specs::Putting::known_time))]
fn known_for(known: Option<Known>, blocking: u32) -> u32
    ensures { result ≡ known_time known blocking }
{
    match known {
        Some(k) if k.blocking <= blocking => k.time,
        _ => 0,
    }
}

// What is known once an entry of the group is timed. With no remote calls, its demand counts each other entry of the group
// once, so no entry with as much blocking or more has a lower one.
#[tactic(auto, unfolding(crate::specs::Putting::known_next))]
fn known_after(known: Option<Known>, e: Entry, time: Option<u32>) -> Option<Known>
    ensures { result ≡ known_next known e time }
{
    match time {
        Some(time) if e.calls == 0 => Some(Known {
            blocking: e.blocking,
            time,
        }),
        _ => known,
    }
}

// Stores the completion times of the entries of a group. The entries before it are on higher levels. A late entry would have 0,
// since the store is words that C lends; only groups of a map are stored, and in those no entry is late.
fn put_times(node: &HeldEntries, group: Group, store: &mut StoreWords)
    requires { (group.first ≤ group.end) × (group.end ≤ node.now.count) }
    ensures { Put times_at group.first group.end
        (λ j. time_in (completion_test (held_entries node.now) (group_level group.first (group.end - 1)) j))
        store.old store.new }
{
    let runs = wcet_sum(node, group.end);
    let mut known = None;
    for position in group.first..group.end {
        let timed = group.timed(node, position);
        let own = timed.entry().entry;
        let from = known_for(known, own.blocking);
        let time = completion_time(&timed, own.blocking, runs, from);
        store[TIMES_AT + position] = time.unwrap_or(0);
        known = known_after(known, own, time);
    }
}

// Stores levels and times group by group, from the most urgent group on.
fn put_groups(node: &HeldEntries, cuts: &Cuts, store: &mut StoreWords)
    requires same { cuts.now.count ≡ node.now.count }
    requires heads { store.old ≡ 1 ∷ levels_used (levels_in cuts.now) ∷ zeros (2 * most_entries) }
    ensures { store.new ≡ keeping completion_test (held_entries node.now) (some (levels_in cuts.now)) }
{
    for level in 1..=cuts.groups() {
        let group = cuts.group(level);
        store[LEVELS_AT + group.first..LEVELS_AT + group.end].fill(level as u32);
        put_times(node, group, store);
    }
}

// Works out the store of a node: searches for its map, and times every entry under it.
pub fn store_map(node: &HeldEntries, levels: u8, store: &mut StoreWords)
    ensures { store.new ≡ store_of (node_of node.now.words.now node.now.count levels) }
{
    store.fill(0);
    let Some(cuts) = find_cuts(node, levels) else {
        return;
    };
    store[0] = 1;
    store[1] = cuts.groups() as u32;
    put_groups(node, &cuts, store);
}

// Whether the store has a map on `levels` levels.
fn has_map(store: &StoreWords, levels: u32) -> bool
    ensures { result ≡ has_map store.now levels }
{
    store[0] == 1 && store[1] <= levels
}

// Makes of a store of the same entries what it becomes once the level count is set; it was `before`. A map that uses no more
// levels than there are now stays the map. Without such a map only more levels than before are worth a search.
pub fn store_at_levels(node: &HeldEntries, before: u32, levels: u8, store: &mut StoreWords)
    ensures { store.new ≡ store_at_levels completion_test before (node_of node.now.words.now node.now.count levels) store.old }
{
    if has_map(store, levels as u32) {
        return;
    }
    if levels as u32 <= before {
        store.fill(0);
        return;
    }
    store_map(node, levels, store);
}

// Writes the stored levels of the first `count` entries from the start of `out`, one byte each. (The store has room for all
// entries; how many the session has is a word that C lends, here and below.)
fn put_stored(store: &StoreWords, count: usize, out: &mut [u8])
    requires { (count ≤ most_entries) × (count ≤ length out.old) }
    ensures { out.new ≡ stored_levels store.now count ++ drop count out.old }
{
    for (position, byte) in out[..count].iter_mut().enumerate() {
        *byte = (store[LEVELS_AT + position] % 256) as u8;
    }
}

// Gives the stored map of `count` entries on `levels` levels: writes one byte per entry from the start of `out`. Refuses a
// buffer with fewer bytes than entries (10), then a store without such a map (11). A refusal leaves the buffer untouched.
pub fn stored_map(
    store: &StoreWords,
    levels: u8,
    count: usize,
    out: &mut [u8],
) -> Result<u8, Refusal>
    requires { count ≤ most_entries }
    ensures answered { answered result ≡ map_asked store.now levels count (length out.old) }
    ensures written { out.new ≡ left (answered result) (stored_levels store.now count) out.old }
{
    if out.len() < count {
        return Err(Refusal::ShortBuffer);
    }
    if !has_map(store, levels as u32) {
        return Err(Refusal::NoMap);
    }
    put_stored(store, count, out);
    Ok(store[1] as u8)
}

// Gives the stored completion time of the entry at `i`. Refuses a position that has no entry (12), then a store without a
// map on `levels` levels (11).
pub fn stored_time(store: &StoreWords, levels: u8, count: usize, i: usize) -> Result<u32, Refusal>
    requires { count ≤ most_entries }
    ensures { answered result ≡ time_asked store.now levels count i }
{
    if count <= i {
        return Err(Refusal::OutsideList);
    }
    if !has_map(store, levels as u32) {
        return Err(Refusal::NoMap);
    }
    Ok(store[TIMES_AT + i])
}
