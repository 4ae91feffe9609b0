// What would be lost in the first edition: each J above zero of a file of the second.
ghost use Rattle.plan_file.specs.declared.Edition.TheVariants as edition_is;
ghost use Rattle.converter.specs.Conversion.{loss_check};

use refusals::Refusal;
use task_model::Entry;
use task_model::entries::EntryCheck;

// The check that an entry has J 0 (15).
#[derive(Clone, Copy, Debug, PartialEq, Eq)]
pub(crate) struct NothingLost;

impl EntryCheck for NothingLost {
    ghost says = { loss_check edition_is.First };

    fn check(row: usize, position: usize, e: Entry) -> Result<(), Refusal> {
        if 0 < e.jitter {
            return Err(Refusal::JitterLost { row, position });
        }
        Ok(())
    }

    fn holds(e: Entry) -> bool {
        e.jitter == 0
    }
}
