#![tactic(auto)]

// The completion time test of an entry in a group of its node.
pub mod entry_sums;
pub mod timed;

ghost use Rattle.std.specs.Prelude.{◌≡◌, ◌≤◌};
ghost use Rattle.task_model.specs.Limits.{most_ticks};
ghost use Rattle.completion.specs.Demand.{releases, higher_level_interference, same_level_interference};
ghost use Rattle.completion.specs.Test.{completion, limit, rounds_in, overrun_in};

use node_words::held::HeldEntry;

// Whether an entry ends by its deadline; rounds is the number of times that its demand was evaluated to find that out. The
// overrun of a late entry is by how much its demand at its limit exceeds the limit.
// It is no Result: a late entry is no error. Callers take it apart with `let .. else`, as the rules of the project ask
// (docs/DECISIONS.md, 13).
#[derive(Clone, Copy, Debug, PartialEq, Eq)]
pub enum Timing {
    OnTime { time: u32, rounds: u32 },
    Late { rounds: u32, overrun: u64 },
}

impl Timing {
    // The rounds, on time or late.
    pub fn rounds(self) -> u32
        ensures { result ≡ rounds_in (completion self) }
    {
        match self {
            Timing::OnTime { rounds, .. } | Timing::Late { rounds, .. } => rounds,
        }
    }

    // By how much the demand of the entry at its limit exceeds the limit: that is 0 if it is on time.
    pub fn overrun(self) -> u64
        ensures { result ≡ overrun_in (completion self) }
    {
        match self {
            Timing::OnTime { .. } => 0,
            Timing::Late { overrun, .. } => overrun,
        }
    }
}

// The last time, counted from its start, by which an entry may end: an entry that starts J late has J ticks less.
#[tactic(auto, unfolding(crate::specs::Test::limit))]
pub fn limit_of(held: HeldEntry) -> u32
    ensures { result ≡ limit held.entry }
{
    let e = held.entry;
    e.deadline - e.jitter
}

// How often an entry is released in `t` ticks, at most. Up to the end of the first period no division is needed.
// That 1 ≤ t ≤ most_ticks stays a clause, here and below: t changes in each round, so a type for it would be made anew in each.
fn releases_in(held: HeldEntry, t: u32) -> u32
    requires { (1 ≤ t) × (t ≤ most_ticks) }
    ensures { result ≡ releases held.entry t }
{
    let e = held.entry;
    let span = t + e.jitter;
    if span <= e.period {
        return 1;
    }
    // No `div_ceil`: tried, and a map of 64 entries took 1.21 of the tuned program's time where this takes 1.05.
    (span + (e.period - 1)) / e.period
}

// The interference of an entry on a higher level in `t` ticks.
#[tactic(auto, using(crate::proofs::Releases::higher_level_most), unfolding(crate::specs::Demand::higher_level_interference))]
fn higher_level_interference(held: HeldEntry, t: u32) -> u64
    requires { (1 ≤ t) × (t ≤ most_ticks) }
    ensures { result ≡ higher_level_interference held.entry t }
{
    held.entry.wcet as u64 * releases_in(held, t) as u64
}

// The interference of another entry on the same level in `t` ticks, for an entry with `calls` remote calls. It is limited
// to `calls` + 1 jobs. After `calls` periods that limit is reached, and no division is needed.
fn same_level_interference(held: HeldEntry, calls: u8, t: u32) -> u64
    requires { (1 ≤ t) × (t ≤ most_ticks) }
    ensures { result ≡ same_level_interference held.entry calls t }
{
    let e = held.entry;
    if e.period as u64 * (calls as u64) < (t + e.jitter) as u64 {
        return e.wcet as u64 * (calls as u64 + 1);
    }
    higher_level_interference(held, t)
}
