#![tactic(auto)]

// Lists the plan file on standard input: writes its listing, or one line with the refusal, and nothing else.
ghost use Rattle.std.specs.Prelude.{◌≡◌, List, ℕ};
ghost use Rattle.listing.specs.Listing.{listing};
ghost use Rattle.plan_file.specs.Input.{InputOf};

use listing::MOST_TEXT;
use plan_file::input::{Input, READ_MOST};

// Lists what was read of an input, in `text`, which has room for every listing.
fn list_read<'a>(read: &Input, text: &'a mut [u8; MOST_TEXT]) -> &'a [u8]
    ensures { (input : List ℕ) → InputOf input read.now → result.now ≡ listing input }
{
    let length = listing::list_plan(read.bytes(), text).unwrap();
    &text[..length]
}

fn main() {
    let mut array = [0u8; READ_MOST];
    let count = io::read_full(0, &mut array);
    let read = Input {
        array: &array,
        count,
    };
    let mut text = [0u8; MOST_TEXT];
    if !io::write_all(1, list_read(&read, &mut text)) {
        io::write_all(2, b"list_plan: the listing could not be written\n");
    }
}
