// How every function returns its answer: 0 and three values, or the number of a refusal with its places.
ghost use Rattle.std.specs.Prelude.{◌≡◌, List, ℕ};
ghost use Rattle.planner_c.specs.Returned.{returned};
ghost use Rattle.planner_c.specs.Results.{answered_by, no_results, number_results, plan_results, timing_results};

use completion::Timing;
use plan_file::ReadPlan;
use refusals::{Numbers, Refusal};

// A result that is given to C as three numbers.
pub(crate) trait Results {
    // Which numbers.
    ghost numbers: { Self → List ℕ };

    fn numbers(self) -> [usize; 3]
        ensures { result ≡ numbers self };
}

// A check has no results.
impl Results for () {
    ghost numbers = { no_results };

    fn numbers(self) -> [usize; 3] {
        [0, 0, 0]
    }
}

// A length. (One impl for this and the next two would be no plainer: std has no conversion of u32 into usize.)
impl Results for usize {
    ghost numbers = { number_results };

    fn numbers(self) -> [usize; 3] {
        [self, 0, 0]
    }
}

// A count of levels.
impl Results for u8 {
    ghost numbers = { number_results };

    fn numbers(self) -> [usize; 3] {
        usize::from(self).numbers()
    }
}

// A completion time.
impl Results for u32 {
    ghost numbers = { number_results };

    fn numbers(self) -> [usize; 3] {
        (self as usize).numbers()
    }
}

impl Results for ReadPlan {
    ghost numbers = { plan_results };

    fn numbers(self) -> [usize; 3] {
        [self.rows, self.entries, usize::from(self.edition)]
    }
}

// The completion time, or 0 if the entry is late, the rounds, and the overrun, or 0 if the entry is on time.
impl Results for Timing {
    ghost numbers = { timing_results };

    fn numbers(self) -> [usize; 3] {
        let rounds = self.rounds() as usize;
        let overrun = self.overrun() as usize;
        let Timing::OnTime { time, rounds: _ } = self else {
            return [0, rounds, overrun];
        };
        [time as usize, rounds, 0]
    }
}

// Returns 0 and writes the results of an accepted call to `values`; or returns the number of a refusal, and writes its row and
// its entry position.
pub(crate) fn give<T: Results>(answer: Result<T, Refusal>, values: &mut [usize; 3]) -> u32
    ensures { returned result values.new ≡ answered_by T.numbers answer }
{
    match answer {
        Ok(found) => {
            *values = found.numbers();
            0
        }
        Err(r) => {
            let n = Numbers::from(r);
            *values = [n.row, n.entry, 0];
            n.number as u32
        }
    }
}
