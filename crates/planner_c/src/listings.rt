// The listing of a plan file, for C.
ghost use Rattle.std.specs.Prelude.{◌≡◌, length, ◌≤◌};
ghost use Rattle.refusals.specs.Answers.{left};
ghost use Rattle.listing.specs.Listing.{listing, list_answer};
ghost use Rattle.planner_c.specs.Returned.{returned, sized};

use super::returned::give;

// Lists a plan file from the buffer's start; for a refused file, the text is one line with the refusal. Gives the text's
// length.
#[unsafe(no_mangle)]
pub extern "C" fn maiplur_list(file: &[u8], text: &mut [u8], values: &mut [usize; 3]) -> u32
    ensures answered { returned result values.new ≡ sized (list_answer file.now (length text.old)) }
    ensures written { text.new ≡
        left (list_answer file.now (length text.old)) (listing file.now)
        text.old }
    ensures short { length (listing file.now) ≤ 115625 }
{
    give(listing::list_plan(file, text), values)
}
