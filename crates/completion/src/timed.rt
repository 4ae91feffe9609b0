// An entry that is timed in a group of its node, and its completion time test.
ghost use Rattle.std.specs.Prelude.{◌≡◌, ◌≤◌};
ghost use Rattle.task_model.specs.Limits.{most_ticks, entry_at};
ghost use Rattle.node_words.specs.Held.{held_entries};
ghost use Rattle.completion.specs.Group.{group_level, InGroup};
ghost use Rattle.completion.specs.Test.{completion, overrun, completion_test, rounds_in, rounds_bound};

use super::entry_sums::{higher_level_sum, same_level_sum, wcet_sum};
use super::{Timing, limit_of};
use node_words::held::{HeldEntries, HeldEntry};

// The entry at a position of a node, in the group from `first` to `last`. The entries before the group are on higher levels.
// (No `Group` of `level_map` in it: only what goes over a map has one. The search, `level_timing` and a caller from C have the
// two positions alone, and would make one just to fill this.)
#[derive(Clone, Copy, Debug, PartialEq, Eq)]
pub struct TimedEntry<'a> {
    pub node: HeldEntries<'a>,
    pub first: usize,
    pub last: usize,
    pub position: usize,
    ghost in_group: { InGroup node.count first last position },
}

impl<'a> TimedEntry<'a> {
    ghost use Rattle.completion.specs.Timed.{timed_limit, timed_demand, timed_start, timed_test};

    // The entry itself.
    pub fn entry(&self) -> HeldEntry
        ensures { result.entry ≡ entry_at (held_entries self.now.node) self.now.position }
    {
        self.node.entry(self.position)
    }

    // Its limit.
    pub fn limit(&self) -> u32
        ensures value { result ≡ timed_limit self.now }
        ensures some { 1 ≤ result }
        ensures few { result ≤ most_ticks }
    {
        limit_of(self.entry())
    }

    // Its demand at `t`, with a blocking of `blocking` ticks. (The blocking is no field: `completion_test` takes the entry's own.)
    pub fn demand_at(&self, blocking: u32, t: u32) -> u64
        requires { (1 ≤ t) × (t ≤ most_ticks) }
        ensures { result ≡ timed_demand blocking self.now t }
    {
        let own = self.entry().entry;
        own.wcet as u64
            + blocking as u64
            + higher_level_sum(&self.node, self.first, t)
            + same_level_sum(&self.node, self.first, self.position, own.calls, t)
            + same_level_sum(&self.node, self.position + 1, self.last + 1, own.calls, t)
    }

    // The initial time t0 of its test, with a blocking of `blocking` ticks.
    fn initial_time(&self, blocking: u32) -> u64
        ensures { result ≡ timed_start blocking self.now }
    {
        blocking as u64 + wcet_sum(&self.node, self.last + 1)
    }

    // By how much its demand at its limit exceeds the limit. The test of a late entry ends with it.
    fn overrun_at(&self, blocking: u32, limit: u32) -> u64
        requires ticks { (1 ≤ limit) × (limit ≤ most_ticks) }
        requires reached { limit ≤ timed_demand blocking self.now limit }
        ensures { result ≡ overrun (timed_demand blocking self.now) limit }
    {
        self.demand_at(blocking, limit) - limit as u64
    }

    // Times the entry with a blocking of `blocking` ticks.
    fn test_with(&self, blocking: u32) -> Timing
        ensures answered { completion result ≡ timed_test blocking self.now }
        ensures bounded { rounds_in (completion result) ≤
            rounds_bound (held_entries self.now.node) (group_level self.now.first self.now.last) self.now.position }
    {
        let limit = self.limit();
        let mut t = self.initial_time(blocking);
        let mut rounds = 0;
        // No `for`: t goes from demand to demand and counts nothing; `rounds` does, as the rules of the project ask
        // (docs/DECISIONS.md, 13).
        while t <= limit as u64 {
            let time = t as u32;
            let next = self.demand_at(blocking, time);
            rounds += 1;
            if next == t {
                return Timing::OnTime { time, rounds };
            }
            t = next;
        }
        let overrun = self.overrun_at(blocking, limit);
        Timing::Late { rounds, overrun }
    }

    // Times the entry with its own B.
    pub fn completion_test(&self) -> Timing
        ensures answered { completion result ≡
            completion_test (held_entries self.now.node) (group_level self.now.first self.now.last) self.now.position }
        ensures bounded { rounds_in (completion result) ≤
            rounds_bound (held_entries self.now.node) (group_level self.now.first self.now.last) self.now.position }
    {
        self.test_with(self.entry().entry.blocking)
    }
}
