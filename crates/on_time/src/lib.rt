#![tactic(auto)]

// Does an entry meet its deadline, and when does it end? The answer without its rounds takes far fewer evaluations than the
// test: a small plan can have entries of 10^9 rounds, and a search asks about many of them. An entry is on time exactly if
// its demand is at most t at some time t up to its limit ('met at t' below), and the first such time is its completion time.
ghost use Rattle.std.specs.Prelude.{◌≡◌, ℕ, ◌+◌, ◌*◌, ◌≤◌, ◌<◌, min};
ghost use Rattle.task_model.specs.Limits.{most_ticks};
ghost use Rattle.node_words.specs.Held.{held_entries};
ghost use Rattle.node_words.specs.Words.{entry_of};
ghost use Rattle.completion.specs.Demand.{sum_to};
ghost use Rattle.completion.specs.Test.{is_on_time};
ghost use Rattle.completion.specs.Timed.{timed_limit, timed_start, timed_test};
ghost use Rattle.on_time.specs.Deciding.{is_met, completion_time, NotBefore};
ghost use Rattle.on_time.specs.Utilisation.{full_utilisation, recurring_utilisation, recurring_wcet, recurring_jitter, WorkFits};
ghost use Rattle.on_time.specs.StartBound.{start_bound};

use completion::limit_of;
use completion::timed::TimedEntry;
use node_words::held::{HeldEntries, HeldEntry};

// The verdict without a completion time. It is no bool: callers take it apart with `let .. else`, as the rules of the project
// ask (docs/DECISIONS.md, 13), and leave on a missed deadline.
#[derive(Clone, Copy, Debug, PartialEq, Eq)]
pub enum Deadline {
    Met,
    Missed,
}

// A utilisation of 1, in units of 2^-34. With a finer unit the numbers of `completion_bound` would not fit in 64 bits.
const FULL_UTILISATION: u64 = 17179869184;

// Sums over the entries that are released again before a limit: C / T, C, and J times C / T of each. The last sum can be too
// large for 64 bits; it is cut at the limit times the full utilisation, which already means that the limit is missed.
#[derive(Clone, Copy, Debug, Default, PartialEq, Eq)]
struct Recurring {
    utilisation: u64,
    runs: u64,
    jitter: u64,
}

// What one entry adds to the sums. (`limit` is found once for an entry and passed on, here and below; so its bound stays a
// clause.)
fn recurring_part(held: HeldEntry, limit: u32) -> Recurring
    requires { limit ≤ most_ticks }
    ensures parts { (result.utilisation ≡ recurring_utilisation limit held.entry)
        × (result.runs ≡ recurring_wcet limit held.entry)
        × (result.jitter ≡ recurring_jitter limit held.entry) }
    ensures small { (result.utilisation ≤ full_utilisation) × (result.runs ≤ most_ticks) }
{
    let e = held.entry;
    if limit + e.jitter <= e.period {
        return Recurring::default();
    }
    let utilisation = FULL_UTILISATION * e.wcet as u64 / e.period as u64;
    Recurring {
        utilisation,
        runs: e.wcet as u64,
        jitter: utilisation * e.jitter as u64,
    }
}

// The sums over the entries before position `end`.
fn recurring_sum(node: &HeldEntries, end: usize, limit: u32) -> Recurring
    requires inside { end ≤ node.now.count }
    requires ticks { limit ≤ most_ticks }
    ensures { (result.utilisation ≡ sum_to (λ j. recurring_utilisation limit (entry_of node.now.words.now j)) end)
        × (result.runs ≡ sum_to (λ j. recurring_wcet limit (entry_of node.now.words.now j)) end)
        × (result.jitter ≡ min (sum_to (λ j. recurring_jitter limit (entry_of node.now.words.now j)) end) (full_utilisation * limit)) }
{
    let most = FULL_UTILISATION * limit as u64;
    let mut sum = Recurring::default();
    for position in 0..end {
        let part = recurring_part(node.entry(position), limit);
        sum.utilisation += part.utilisation;
        sum.runs += part.runs;
        sum.jitter = sum.jitter.saturating_add(part.jitter).min(most);
    }
    sum
}

// A lower bound on the completion time of an entry: its initial time, or later if the entries on higher levels use much of
// the processor. The work that runs once, and what they run for their jitter, must fit into what they leave. If that is not
// so up to the limit, any time past the limit is a lower bound.
fn completion_bound(timed: &TimedEntry, limit: u32, initial: u64) -> u64
    requires above { sum_to (λ j. (entry_of timed.now.node.words.now j).wcet) timed.now.first < initial }
    requires within { (initial ≤ limit) × (limit ≤ most_ticks) }
    ensures later { initial ≤ result }
    ensures bound { (t : ℕ) → initial ≤ t → WorkFits timed.now.node.words.now timed.now.first limit initial t → result ≤ t }
    ensures fits { result ≤ limit → WorkFits timed.now.node.words.now timed.now.first limit initial result }
{
    let r = recurring_sum(&timed.node, timed.first, limit);
    let spare = FULL_UTILISATION.saturating_sub(r.utilisation);
    if spare == 0 {
        return limit as u64 + 1;
    }
    let once = FULL_UTILISATION * (initial - r.runs);
    if FULL_UTILISATION * limit as u64 - once < r.jitter {
        return limit as u64 + 1;
    }
    let by_utilisation = (once + r.jitter).div_ceil(spare);
    by_utilisation.max(initial)
}

// Follows the rounds of the entry from `begin` on, up to the time at which it ends. Before `begin` its demand is not met.
// `begin` is as late as the utilisation allows (`WorkFits`): from an earlier time the answer would be the same, after many
// more rounds.
fn end_from(timed: &TimedEntry, blocking: u32, begin: u64) -> Option<u32>
    requires some { 1 ≤ begin }
    requires fits { begin ≤ timed_limit timed.now →
        WorkFits timed.now.node.words.now timed.now.first (timed_limit timed.now) (timed_start blocking timed.now) begin }
    requires not_before { NotBefore blocking timed.now begin }
    ensures { result ≡ completion_time (timed_test blocking timed.now) }
{
    let limit = timed.limit() as u64;
    let mut t = begin;
    // No `for`: t goes from demand to demand.
    while t <= limit {
        let time = t as u32;
        let next = timed.demand_at(blocking, time);
        if next <= t {
            return Some(time);
        }
        t = next;
    }
    None
}

// Does the entry end by its limit, with a blocking of `blocking` ticks? `runs` is the sum of C up to the end of its group,
// which a search needs many times. Rounds are followed only if the demand at the limit does not decide, and from the lower
// bound on.
// No struct of `runs` and the end that it is summed up to, here and below: a clause would have to say that they are of the
// entry's node and group, as the one on `runs` does now.
pub fn ends_on_time(timed: &TimedEntry, blocking: u32, runs: u64) -> Deadline
    requires { runs ≡ sum_to (λ j. (entry_of timed.now.node.words.now j).wcet) (timed.now.last + 1) }
    ensures { is_met result ≡ is_on_time (timed_test blocking timed.now) }
{
    let limit = timed.limit();
    let initial = blocking as u64 + runs;
    if (limit as u64) < initial {
        return Deadline::Missed;
    }
    if timed.demand_at(blocking, limit) <= limit as u64 {
        return Deadline::Met;
    }
    let begin = completion_bound(timed, limit, initial);
    let Some(_) = end_from(timed, blocking, begin) else {
        return Deadline::Missed;
    };
    Deadline::Met
}

// When the entry ends, if it does by its limit, with a blocking of `blocking` ticks. `runs` is the sum of C up to the end of
// its group. It does not end before `known`: 0 is such a time, and by the law `later_ends` so is the completion time of an
// entry of the group with no remote calls and no more blocking. Many entries end at the first time that is tried. The others
// do not end before the demand at that time, nor before the bound, which spares them most rounds.
pub fn completion_time(timed: &TimedEntry, blocking: u32, runs: u64, known: u32) -> Option<u32>
    requires summed { runs ≡ sum_to (λ j. (entry_of timed.now.node.words.now j).wcet) (timed.now.last + 1) }
    requires not_before { NotBefore blocking timed.now known }
    ensures { result ≡ completion_time (timed_test blocking timed.now) }
{
    let limit = timed.limit();
    let initial = blocking as u64 + runs;
    let early = initial.max(known as u64);
    if (limit as u64) < early {
        return None;
    }
    let next = timed.demand_at(blocking, early as u32);
    if next <= early {
        return Some(early as u32);
    }
    let bound = completion_bound(timed, limit, initial);
    let begin = next.max(bound);
    end_from(timed, blocking, begin)
}

// The start past the last entry i < end with D - J < B + runs, or 0 if there is none, where `runs` is the sum of C before
// `end`. That entry is late in every group that ends just before `end` and contains it, so no group starts before this start.
// (No Option: 0 is itself a start, before which no group starts.)
pub fn start_bound(node: &HeldEntries, end: usize, runs: u64) -> usize
    requires inside { end ≤ node.now.count }
    requires summed { runs ≡ sum_to (λ j. (entry_of node.now.words.now j).wcet) end }
    ensures { result ≡ start_bound (held_entries node.now) end }
{
    for position in (0..end).rev() {
        let held = node.entry(position);
        if (limit_of(held) as u64) < held.entry.blocking as u64 + runs {
            return position + 1;
        }
    }
    0
}
