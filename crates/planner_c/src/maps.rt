// The map of a node of a plan file, for C.
ghost use Rattle.std.specs.Prelude.{◌≡◌, length};
ghost use Rattle.refusals.specs.Refusals.{accepted};
ghost use Rattle.refusals.specs.Answers.{left};
ghost use Rattle.plan_file.specs.Find.{find_check, node_found};
ghost use Rattle.level_map.specs.Answer.{map_of, NodeBestMapOrNone};
ghost use Rattle.planner.specs.Mapping.{file_answer};
ghost use Rattle.planner_c.specs.Returned.{returned, sized};

use super::returned::give;

// Maps the node of a plan file that has this number: one byte per entry from the buffer's start. Gives the count of levels
// used.
#[unsafe(no_mangle)]
pub extern "C" fn maiplur_map(
    file: &[u8],
    number: u16,
    levels: &mut [u8],
    values: &mut [usize; 3],
) -> u32
    ensures answered { returned result values.new ≡
        sized (file_answer file.now number (length levels.old)) }
    ensures written { levels.new ≡
        left (file_answer file.now number (length levels.old))
        (map_of (node_found file.now number)) levels.old }
    ensures best { find_check file.now number ≡ accepted →
        NodeBestMapOrNone (node_found file.now number) levels.old
        (file_answer file.now number (length levels.old)) levels.new }
{
    give(planner::map_node(file, number, levels), values)
}
