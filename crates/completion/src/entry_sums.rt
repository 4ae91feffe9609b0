// Sums over the entries of a node.
ghost use Rattle.std.specs.Prelude.{◌≡◌, ℕ, ◌-◌, ◌≤◌, ◌<◌, ◌^◌};
ghost use Rattle.task_model.specs.declared.Entry.{Entry};
ghost use Rattle.task_model.specs.Limits.{most_ticks};
ghost use Rattle.node_words.specs.declared.held.HeldEntry.{HeldEntry};
ghost use Rattle.node_words.specs.Words.{entry_of};
ghost use Rattle.completion.specs.Demand.{sum_to, higher_level_interference, same_level_interference};

use super::{higher_level_interference, same_level_interference};
use node_words::held::{HeldEntries, HeldEntry};

// The sum of what `part` gives for the entries from position `begin` to just before `end`: `part` may be any function f of
// an entry.
fn sum_over<F: Fn(HeldEntry) -> u64>(node: &HeldEntries, begin: usize, end: usize, part: F) -> u64
    requires inside { (begin ≤ end) × (end ≤ node.now.count) }
    requires callable { (held : HeldEntry) → F.pre part held }
    requires small { (held : HeldEntry) (x : ℕ) → F.post part held x → x < 2 ^ 32 }
    ensures fits { result < 2 ^ 38 }
    ensures value { (f : Entry → ℕ) → ((held : HeldEntry) (x : ℕ) → F.post part held x → x ≡ f held.entry)
        → result ≡ sum_to (λ j. f (entry_of node.now.words.now j)) end - sum_to (λ j. f (entry_of node.now.words.now j)) begin }
{
    let mut sum = 0;
    for position in begin..end {
        sum += part(node.entry(position));
    }
    sum
}

// The sum of C over the entries before position `end`.
pub fn wcet_sum(node: &HeldEntries, end: usize) -> u64
    requires { end ≤ node.now.count }
    ensures fits { result < 2 ^ 38 }
    ensures value { result ≡ sum_to (λ j. (entry_of node.now.words.now j).wcet) end }
{
    sum_over(node, 0, end, |e| e.entry.wcet as u64)
}

// The interference in `t` ticks of the entries before position `end`, which are on higher levels.
pub(crate) fn higher_level_sum(node: &HeldEntries, end: usize, t: u32) -> u64
    requires inside { end ≤ node.now.count }
    requires ticks { (1 ≤ t) × (t ≤ most_ticks) }
    ensures fits { result < 2 ^ 38 }
    ensures value { result ≡ sum_to (λ j. higher_level_interference (entry_of node.now.words.now j) t) end }
{
    sum_over(node, 0, end, |e| higher_level_interference(e, t))
}

// The interference in `t` ticks of the entries from position `begin` to just before `end`, for an entry with `calls` remote
// calls on their level.
pub(crate) fn same_level_sum(node: &HeldEntries, begin: usize, end: usize, calls: u8, t: u32) -> u64
    requires inside { (begin ≤ end) × (end ≤ node.now.count) }
    requires ticks { (1 ≤ t) × (t ≤ most_ticks) }
    ensures fits { result < 2 ^ 38 }
    ensures value { result ≡ sum_to (λ j. same_level_interference (entry_of node.now.words.now j) calls t) end
        - sum_to (λ j. same_level_interference (entry_of node.now.words.now j) calls t) begin }
{
    sum_over(node, begin, end, |e| same_level_interference(e, calls, t))
}
