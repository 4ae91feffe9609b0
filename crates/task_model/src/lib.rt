#![tactic(auto)]

// The task model: the fields of an entry, and their limits.
pub mod entries;

ghost use Rattle.std.specs.Prelude.{◌≡◌, ℕ, ltb, leb, ◌&&◌};
ghost use Rattle.task_model.specs.Limits.{TimesHold, most_levels};
ghost use Rattle.refusals.specs.Refusals.{outcome};
ghost use Rattle.task_model.specs.Checks.{kind_test, times_test, jitter_test, entry_test, entry_check};

use refusals::Refusal;

// Upper limits: of T and B in ticks, of a node's levels, and of a node's entries.
pub const MOST_TICKS: u32 = 1000000000;

pub const MOST_LEVELS: u8 = 64;

pub const MOST_ENTRIES: usize = 64;

// An entry of a node: a task, or a global critical section that runs here for a remote task. (docs/SPEC.md, 'Terms', has
// the usual scheduling terms beside these.)
#[derive(Clone, Copy, Debug, PartialEq, Eq)]
pub struct Entry {
    pub number: u16,
    // 1 is a task, 2 a global critical section. It is the byte of the file and no enum: the rules of the project
    // (docs/DECISIONS.md, 13) ask for a match on it (`kind_holds`), and an entry may be one that is still to be checked.
    pub kind: u8,
    // r: how many remote sections it calls in a period.
    pub calls: u8,
    // C: the worst-case execution time.
    pub wcet: u32,
    // T, D and B.
    pub period: u32,
    pub deadline: u32,
    pub blocking: u32,
    // J: the release jitter. A job may start up to J ticks after its period does.
    pub jitter: u32,
}

// Whether a node may have so many levels: 1 to 64.
pub fn levels_hold(levels: u32) -> bool
    ensures { result ≡ (leb 1 levels && leb levels most_levels) }
{
    (1..=MOST_LEVELS as u32).contains(&levels)
}

// Whether the kind is 1 with at most 15 remote calls, or 2 with none. The form, a match on the byte with ranges of r, is a
// rule of the project (docs/DECISIONS.md, 13).
fn kind_holds(kind: u8, calls: u8) -> bool
    ensures { result ≡ kind_test kind calls }
{
    match kind {
        1 => match calls {
            0..=15 => true,
            _ => false,
        },
        2 => match calls {
            0..=0 => true,
            _ => false,
        },
        _ => false,
    }
}

// Whether 1 ≤ C ≤ D ≤ T ≤ MOST_TICKS and B ≤ MOST_TICKS.
fn times_hold(e: Entry) -> bool
    ensures { result ≡ times_test e }
{
    1 <= e.wcet
        && e.wcet <= e.deadline
        && e.deadline <= e.period
        && e.period <= MOST_TICKS
        && e.blocking <= MOST_TICKS
}

// Whether J ≤ D - C.
fn jitter_holds(e: Entry) -> bool
    requires { TimesHold e }
    ensures { result ≡ jitter_test e }
{
    e.jitter <= e.deadline - e.wcet
}

// Checks an entry: its kind and calls (7), its times (8), then its jitter (14). A refusal has the given row and position.
// (They stay two numbers, those of the caller's loops: a struct of both would be made anew for each entry.)
pub fn check_entry(row: usize, position: usize, e: Entry) -> Result<(), Refusal>
    ensures { outcome result ≡ entry_check row position e }
{
    if !kind_holds(e.kind, e.calls) {
        return Err(Refusal::Kind { row, position });
    }
    if !times_hold(e) {
        return Err(Refusal::Times { row, position });
    }
    if !jitter_holds(e) {
        return Err(Refusal::Jitter { row, position });
    }
    Ok(())
}

// The first count of remote calls that a kind does not allow; an unknown kind allows none, not even 0.
fn calls_end(kind: u8) -> u8
    ensures { (calls : ℕ) → ltb calls result ≡ kind_test kind calls }
{
    match kind {
        1 => 16,
        2 => 1,
        _ => 0,
    }
}

// The same test as kind_holds. A match that gives numbers is compiled without a branch between the kinds, which would often
// be guessed wrong where both occur: with kind_holds here, checking the longest plan took 3.5 µs in place of 2.3 to 2.5 when
// this was written (docs/BENCHMARKS.md).
fn calls_hold(kind: u8, calls: u8) -> bool
    ensures { result ≡ kind_test kind calls }
{
    calls < calls_end(kind)
}

// Whether check_entry accepts an entry. It is quicker than check_entry where most entries are accepted.
pub fn entry_holds(e: Entry) -> bool
    ensures { result ≡ entry_test e }
{
    calls_hold(e.kind, e.calls) && times_hold(e) && jitter_holds(e)
}
