#![tactic(auto)]

// The map of a node: a level for each entry, with as few levels as the deadlines allow.
pub mod cuts;

ghost use Rattle.std.specs.Prelude.{◌≡◌, ◌∷◌, ◌≤◌, length, get_or};
ghost use Rattle.task_model.specs.Limits.{most_entries, most_ticks};
ghost use Rattle.refusals.specs.Answers.{answered, left};
ghost use Rattle.node_words.specs.Held.{held_entries};
ghost use Rattle.node_words.specs.Words.{node_of};
ghost use Rattle.level_map.specs.Map.{the_map};
ghost use Rattle.level_map.specs.Answer.{held_answer, map_of, NodeBestMapOrNone};
ghost use Rattle.level_map.specs.Groups.{GroupPasses, LeastStart};
ghost use Rattle.level_map.specs.Found.{CutAnswer};

use completion::entry_sums::wcet_sum;
use completion::timed::TimedEntry;
use cuts::Cuts;
use node_words::held::HeldEntries;
use on_time::{Deadline, ends_on_time, start_bound};
use refusals::Refusal;
use task_model::MOST_ENTRIES;

// The least start of a group that ends just before `end` and has no late entry. A late entry is late in every group with
// this end that starts later and contains it, because the entries that leave its level become more urgent. So the next start
// to try is one past the late entry. Tests begin with the last entry, because it rules out the most starts. A wider group
// may still pass.
// `added` is what the end of the group adds to the blocking of its entries.
// (Inlined, as `find_cuts` is: called, it made maps of 8 entries take 1.1 times as long.)
#[inline(always)]
fn least_start(node: &HeldEntries, end: usize, added: u32) -> Option<usize>
    requires inside { end ≤ node.now.count }
    requires ticks { added ≤ most_ticks }
    ensures { LeastStart (GroupPasses (held_entries node.now) added end) end result }
{
    let runs = wcet_sum(node, end);
    let mut start = start_bound(node, end, runs);
    // Labelled loops over starts and entries, as the rules of the project ask (docs/DECISIONS.md, 13). A start goes on by more
    // than one.
    'starts: while start < end {
        for position in (start..end).rev() {
            // No `Group::timed`: it would be as long, and the start is no group's as long as the entries are tested.
            let timed = TimedEntry {
                node: *node,
                first: start,
                last: end - 1,
                position,
            };
            let blocking = timed.entry().entry.blocking + added;
            let Deadline::Met = ends_on_time(&timed, blocking, runs) else {
                start = position + 1;
                continue 'starts;
            };
        }
        return Some(start);
    }
    None
}

// Cuts a node into the groups of its map, with at most `most` levels. It works from the least urgent end and makes each
// group as long as possible. The cuts do not depend on `most`: if there are more groups than levels, there is no map.
// (Inlined, so that the cuts are made where they are used: moved out of a call, their 80 bytes made listing 32 nodes without
// entries take 1.9 times as long, and mapping one entry 1.4 times.)
#[inline(always)]
pub fn find_cuts(node: &HeldEntries, most: u8) -> Option<Cuts>
    ensures { CutAnswer (the_map (held_entries node.now) most) node.now.count most result }
{
    let mut end = node.count;
    let mut starts = [0u8; MOST_ENTRIES];
    let mut used: u8 = 0;
    // No `for`: the end goes from group to group.
    while 0 < end {
        if most <= used {
            return None;
        }
        // Blocking times are given: the end of a group adds nothing to them.
        let start = least_start(node, end, 0)?;
        starts[used as usize] = start as u8;
        used += 1;
        end = start;
    }
    Some(Cuts {
        starts,
        used,
        count: node.count,
    })
}

// One past the last entry of the group that starts at `cuts[g]`: the start of the next less urgent group, or `count`.
pub fn group_end(cuts: &[u8; MOST_ENTRIES], g: u8, count: usize) -> usize
    requires { g ≤ most_entries }
    ensures { result ≡ get_or (count ∷ cuts.now) g 0 }
{
    if g == 0 {
        return count;
    }
    cuts[g as usize - 1] as usize
}

// Maps a node in memory that is within the limits: writes one byte per entry from the start of `out`. Refuses a buffer with
// fewer bytes than entries (10), then a node without a map (11). A refusal leaves the buffer untouched.
pub fn map_held(node: &HeldEntries, levels: u8, out: &mut [u8]) -> Result<u8, Refusal>
    ensures answered { answered result ≡ held_answer (node_of node.now.words.now node.now.count levels) (length out.old) }
    ensures written { out.new ≡ left (answered result) (map_of (node_of node.now.words.now node.now.count levels)) out.old }
    ensures best { NodeBestMapOrNone (node_of node.now.words.now node.now.count levels) out.old (answered result) out.new }
{
    if out.len() < node.count {
        return Err(Refusal::ShortBuffer);
    }
    let cuts = find_cuts(node, levels).ok_or(Refusal::NoMap)?;
    cuts.write_levels(out);
    Ok(cuts.groups())
}
