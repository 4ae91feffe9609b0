// Converting a plan file to the other edition, for C. C names a function for each way, so the two are alike.
ghost use Rattle.std.specs.Prelude.{◌≡◌, length};
ghost use Rattle.refusals.specs.Answers.{left};
ghost use Rattle.plan_file.specs.Decoding.{plan_in};
ghost use Rattle.plan_file.specs.Encoding.{encoding};
ghost use Rattle.converter.specs.Conversion.{convert_answer};
ghost use Rattle.converter.specs.RoundTrip.{ConvertedAgain};
ghost use Rattle.planner_c.specs.Returned.{returned, sized};

use super::returned::give;
use plan_file::Edition;

// Writes the plan of a file of edition 1 in edition 2, with every J 0, from the buffer's start. Gives the new file's length.
// From what it wrote, maiplur_convert_back gives the lent file again, byte for byte.
#[unsafe(no_mangle)]
pub extern "C" fn maiplur_convert_forward(
    file: &[u8],
    out: &mut [u8],
    values: &mut [usize; 3],
) -> u32
    ensures answered { returned result values.new ≡
        sized (convert_answer Edition.Second file.now (length out.old)) }
    ensures written { out.new ≡
        left (convert_answer Edition.Second file.now (length out.old))
        (encoding Edition.Second (plan_in file.now)) out.old }
    ensures converted_again { ConvertedAgain Edition.Second file.now
        (convert_answer Edition.Second file.now (length out.old)) out.new }
{
    give(converter::forward(file, out), values)
}

// Writes the plan of a file of edition 2 in edition 1, if every J is 0, from the buffer's start. Gives the new file's length.
// From what it wrote, maiplur_convert_forward gives the lent file again, byte for byte.
#[unsafe(no_mangle)]
pub extern "C" fn maiplur_convert_back(file: &[u8], out: &mut [u8], values: &mut [usize; 3]) -> u32
    ensures answered { returned result values.new ≡
        sized (convert_answer Edition.First file.now (length out.old)) }
    ensures written { out.new ≡
        left (convert_answer Edition.First file.now (length out.old))
        (encoding Edition.First (plan_in file.now)) out.old }
    ensures converted_again { ConvertedAgain Edition.First file.now
        (convert_answer Edition.First file.now (length out.old)) out.new }
{
    give(converter::back(file, out), values)
}
