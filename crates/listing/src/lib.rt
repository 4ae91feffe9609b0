#![tactic(auto)]

// Writes the listing of a plan file into a lent buffer.
mod aside;

ghost use Rattle.std.specs.Prelude.{◌≡◌, ◌+◌, ◌-◌, ◌*◌, ◌≤◌, ◌<◌, length};
ghost use Rattle.refusals.specs.Refusals.{numbered};
ghost use Rattle.task_model.specs.Limits.{entry_at};
ghost use Rattle.node_words.specs.Held.{held_entries};
ghost use Rattle.text.specs.Text.{written, Upto};
ghost use Rattle.plan_file.specs.Decoding.{plan_in, node_count};
ghost use Rattle.plan_file.specs.Find.{row_in, node_of_row};
ghost use Rattle.completion.specs.Group.{group_level};
ghost use Rattle.completion.specs.Test.{completion_test};
ghost use Rattle.level_map.specs.Found.{levels_in};
ghost use Rattle.listing.specs.Groups.{timed_line, group_text};
ghost use Rattle.listing.specs.Lines.{plan_line, node_line, no_map_line, entry_line, refused_line};
ghost use Rattle.listing.specs.Room.{node_most, plan_most};
ghost use Rattle.listing.specs.Listing.{entries_text, node_text, nodes_text, listing};

pub use aside::list_plan;
use completion::Timing;
use completion::timed::TimedEntry;
use level_map::cuts::{Cuts, Group};
use level_map::find_cuts;
use node_words::NODE_WORDS;
use node_words::held::HeldEntries;
use plan_file::{MOST_NODES, PlanFile};
use refusals::{Numbers, Refusal};
use task_model::MOST_ENTRIES;
use text::Cursor;

// The most bytes of the first line, and of a node's lines: 29 for its own line and 56 for each of 64 entries.
const PLAN_LINE: usize = 9;

const NODE_LINES: usize = 29 + 56 * MOST_ENTRIES;

// The most bytes of a listing.
pub const MOST_TEXT: usize = PLAN_LINE + MOST_NODES as usize * NODE_LINES;

// The lines. The type of a number bounds how long it is in print, so the count of nodes is a byte.
#[tactic(auto, using(crate::proofs::Lines::digits_fit))]
fn put_plan_line(text: &mut Cursor<'_>, nodes: u8)
    requires { text.old.at + 9 ≤ length text.old.out.now }
    ensures { Upto text.old 9 (plan_line nodes) text.new }
{
    text.put_field(b"plan ", nodes as u64);
    text.put_bytes(b"\n");
}

#[tactic(auto, using(crate::proofs::Lines::digits_fit))]
fn put_node_line(text: &mut Cursor<'_>, number: u16, used: u8, levels: u8)
    requires { text.old.at + 29 ≤ length text.old.out.now }
    ensures { Upto text.old 29 (node_line number used levels) text.new }
{
    text.put_field(b"node ", number as u64);
    text.put_field(b" levels ", used as u64);
    text.put_field(b" of ", levels as u64);
    text.put_bytes(b"\n");
}

#[tactic(auto, using(crate::proofs::Lines::digits_fit))]
fn put_no_map_line(text: &mut Cursor<'_>, number: u16)
    requires { text.old.at + 18 ≤ length text.old.out.now }
    ensures { Upto text.old 18 (no_map_line number) text.new }
{
    text.put_field(b"node ", number as u64);
    text.put_bytes(b" no map\n");
}

#[tactic(auto, using(crate::proofs::Lines::digits_fit))]
fn put_entry_line(text: &mut Cursor<'_>, number: u16, level: u8, time: u32, rounds: u32)
    requires { text.old.at + 56 ≤ length text.old.out.now }
    ensures { Upto text.old 56 (entry_line number level time rounds) text.new }
{
    text.put_field(b"entry ", number as u64);
    text.put_field(b" level ", level as u64);
    text.put_field(b" time ", time as u64);
    text.put_field(b" rounds ", rounds as u64);
    text.put_bytes(b"\n");
}

// The line of a refusal, from the buffer's start. Returns its length.
#[tactic(auto, using(crate::proofs::Lines::digits_fit))]
pub fn put_refused_line(out: &mut [u8], r: Refusal) -> usize
    requires { 64 ≤ length out.old }
    ensures buffer { out.new ≡ written out.old 0 (refused_line (numbered r)) }
    ensures size { result ≡ length (refused_line (numbered r)) }
    ensures short { length (refused_line (numbered r)) ≤ 64 }
{
    let Numbers { number, row, entry } = Numbers::from(r);
    let mut text = Cursor { out, at: 0 };
    text.put_field(b"refused ", number as u64);
    text.put_field(b" row ", row as u64);
    text.put_field(b" entry ", entry as u64);
    text.put_bytes(b"\n");
    text.at
}

// The line of an entry, timed in its group, which is on level `level`.
fn put_entry(text: &mut Cursor<'_>, timed: &TimedEntry, level: u8)
    requires { text.old.at + 56 ≤ length text.old.out.now }
    ensures { Upto text.old 56
        (timed_line (entry_at (held_entries timed.now.node) timed.now.position) level
        (completion_test (held_entries timed.now.node) (group_level timed.now.first timed.now.last) timed.now.position))
        text.new }
{
    let Timing::OnTime { time, rounds } = timed.completion_test() else {
        return;
    };
    put_entry_line(text, timed.entry().entry.number, level, time, rounds);
}

// The lines of a group's entries, on level `level`.
fn put_group(text: &mut Cursor<'_>, node: &HeldEntries, group: Group, level: u8)
    requires inside { (group.first ≤ group.end) × (group.end ≤ node.now.count) }
    requires room { text.old.at + 56 * (group.end - group.first) ≤ length text.old.out.now }
    ensures { Upto text.old (56 * (group.end - group.first))
        (group_text (held_entries node.now) group.first (group.end - 1) level (group.end - group.first)) text.new }
{
    for position in group.first..group.end {
        put_entry(text, &group.timed(node, position), level);
    }
}

// The lines of a node's entries in listed order, group by group.
fn put_entries(text: &mut Cursor<'_>, node: &HeldEntries, cuts: &Cuts)
    requires same { cuts.now.count ≡ node.now.count }
    requires room { text.old.at + 56 * node.now.count ≤ length text.old.out.now }
    ensures { Upto text.old (56 * node.now.count)
        (entries_text (held_entries node.now) (levels_in cuts.now) node.now.count) text.new }
{
    for level in 1..=cuts.groups() {
        put_group(text, node, cuts.group(level), level);
    }
}

// The lines of the node in a row: its own line and those of its entries, or the line that it has no map.
fn put_node(text: &mut Cursor<'_>, plan: &PlanFile, row: usize)
    requires inside { row < node_count plan.now.bytes.now }
    requires room { text.old.at + node_most ≤ length text.old.out.now }
    ensures { Upto text.old node_most
        (node_text (row_in (plan_in plan.now.bytes.now).rows row).number (node_of_row (plan_in plan.now.bytes.now) row))
        text.new }
{
    let mut words = [0u32; NODE_WORDS];
    let r = plan.load_node(row, &mut words);
    let node = HeldEntries {
        words: &words,
        count: r.count as usize,
    };
    let Some(cuts) = find_cuts(&node, r.levels) else {
        put_no_map_line(text, r.number);
        return;
    };
    put_node_line(text, r.number, cuts.groups(), r.levels);
    put_entries(text, &node, &cuts);
}

// The lines of the first `nodes` nodes, in contents order.
fn put_nodes(text: &mut Cursor<'_>, plan: &PlanFile, nodes: usize)
    requires inside { nodes ≤ node_count plan.now.bytes.now }
    requires room { text.old.at + node_most * nodes ≤ length text.old.out.now }
    ensures { Upto text.old (node_most * nodes) (nodes_text (plan_in plan.now.bytes.now) nodes) text.new }
{
    for row in 0..nodes {
        put_node(text, plan, row);
    }
}

// The listing of a file that was checked, from the buffer's start. Returns its length.
fn put_plan(plan: &PlanFile, out: &mut [u8]) -> usize
    requires { plan_most (node_count plan.now.bytes.now) ≤ length out.old }
    ensures buffer { out.new ≡ written out.old 0 (listing plan.now.bytes.now) }
    ensures size { result ≡ length (listing plan.now.bytes.now) }
    ensures short { length (listing plan.now.bytes.now) ≤ plan_most (node_count plan.now.bytes.now) }
{
    let nodes = plan.nodes();
    let mut text = Cursor { out, at: 0 };
    put_plan_line(&mut text, nodes as u8);
    put_nodes(&mut text, plan, nodes);
    text.at
}
