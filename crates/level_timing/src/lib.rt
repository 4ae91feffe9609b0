#![tactic(auto)]

// Times an entry under a list of levels. Entries with equal levels are a group.
ghost use Rattle.std.specs.Prelude.{◌≡◌, ◌≤◌, ◌<◌};
ghost use Rattle.task_model.specs.Limits.{most_entries};
ghost use Rattle.node_words.specs.Held.{held_entries};
ghost use Rattle.completion.specs.Test.{completion, completion_test};
ghost use Rattle.level_map.specs.Assignments.{level_of};
ghost use Rattle.level_timing.specs.Levels.{NeverFalls, FirstOf, LastOf};

use completion::Timing;
use completion::timed::TimedEntry;
use node_words::held::HeldEntries;
use task_model::MOST_ENTRIES;

// The first position of the group of the entry at `i`. (It looks back, and `group_last` ahead: one function for both would
// need a direction.)
fn group_first(levels: &[u8; MOST_ENTRIES], i: usize) -> usize
    requires { i < most_entries }
    ensures { FirstOf levels.now i result }
{
    let before = levels[..i].iter().rposition(|&level| level != levels[i]);
    before.map_or(0, |b| b + 1)
}

// The last position of the group of the entry at `i`, among `count` entries. (The levels are an array for any node, of which
// `count` are in use: fixed memory.)
fn group_last(levels: &[u8; MOST_ENTRIES], count: usize, i: usize) -> usize
    requires { (i < count) × (count ≤ most_entries) }
    ensures { LastOf count levels.now i result }
{
    let rest = &levels[i + 1..count];
    let more = rest.iter().position(|&level| level != levels[i]);
    i + more.unwrap_or(rest.len())
}

// Times the entry at `i` of a node under levels that never fall along the list.
pub fn time_under(node: &HeldEntries, levels: &[u8; MOST_ENTRIES], i: usize) -> Timing
    requires inside { i < node.now.count }
    requires rising { NeverFalls node.now.count levels.now }
    ensures { completion result ≡ completion_test (held_entries node.now) (level_of levels.now) i }
{
    let timed = TimedEntry {
        node: *node,
        first: group_first(levels, i),
        last: group_last(levels, node.count, i),
        position: i,
    };
    timed.completion_test()
}
