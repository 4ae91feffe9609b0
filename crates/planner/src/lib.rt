#![tactic(auto)]

// The map of a node of a plan file.
ghost use Rattle.std.specs.Prelude.{◌≡◌, length};
ghost use Rattle.refusals.specs.Refusals.{accepted};
ghost use Rattle.refusals.specs.Answers.{answered, left};
ghost use Rattle.plan_file.specs.Find.{find_check, node_found};
ghost use Rattle.level_map.specs.Answer.{map_of, NodeBestMapOrNone};
ghost use Rattle.planner.specs.Mapping.{file_answer};

use level_map::map_held;
use node_words::NODE_WORDS;
use node_words::held::HeldEntries;
use refusals::Refusal;

// Maps the node of a plan file that has this number. Writes one byte per entry from the buffer's start, and gives how many
// levels the map uses. Refuses as `plan_file::check_file` does, then a number that no node has (9), then as
// `level_map::map_held` does.
pub fn map_node(file: &[u8], number: u16, out: &mut [u8]) -> Result<u8, Refusal>
    ensures answered { answered result ≡ file_answer file.now number (length out.old) }
    ensures written { out.new ≡ left (answered result) (map_of (node_found file.now number)) out.old }
    ensures best { find_check file.now number ≡ accepted →
        NodeBestMapOrNone (node_found file.now number) out.old (answered result) out.new }
{
    let mut words = [0u32; NODE_WORDS];
    let found = plan_file::find_node(file, number, &mut words)?;
    let node = HeldEntries {
        words: &words,
        count: found.count,
    };
    map_held(&node, found.levels, out)
}
