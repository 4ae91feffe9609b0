// The groups of a node's map.
ghost use Rattle.std.specs.Prelude.{◌≡◌, suc, ◌++◌, ◌-◌, ◌≤◌, ◌<◌, length, take, drop, replicate};
ghost use Rattle.task_model.specs.Limits.{most_entries};
ghost use Rattle.level_map.specs.Cuts.{Falling, before};
ghost use Rattle.level_map.specs.OneProof.{Falling-prop};

use super::group_end;
use completion::timed::TimedEntry;
use node_words::held::HeldEntries;
use task_model::MOST_ENTRIES;

// Where `count` entries are cut into the groups of their map: the starts of the first `used` groups, least urgent group first,
// so the last start is 0; what is left of the array is 0. (An array with a count, so that cuts are copied like the entries
// that they cut: an `ArrayVec` is not `Copy`.)
#[derive(Clone, Copy, Debug, PartialEq, Eq)]
pub struct Cuts {
    pub starts: [u8; MOST_ENTRIES],
    pub used: u8,
    pub count: usize,
    ghost few: { count ≤ most_entries },
    ghost full: { used ≤ length starts },
    ghost falling: { Falling (take used starts) count } by { Falling-prop (take used starts) count },
    ghost clear: { drop used starts ≡ replicate (most_entries - used) 0 },
}

// The entries from `first` to just before `end`: those of one level. (No node in it, nor in `Cuts`: both would have the node's
// lifetime to spare three functions a clause, and levels are written without the node.)
#[derive(Clone, Copy, Debug, PartialEq, Eq)]
pub struct Group {
    pub first: usize,
    pub end: usize,
}

impl Group {
    // The entry at a position of the group, in a node, to be timed.
    pub fn timed<'a>(self, node: &HeldEntries<'a>, position: usize) -> TimedEntry<'a>
        requires position { (self.first ≤ position) × (position < self.end) }
        requires inside { self.end ≤ node.now.count }
        ensures node { result.node ≡ node.now }
        ensures group { (result.first ≡ self.first) × (result.last ≡ self.end - 1) }
        ensures position { result.position ≡ position }
    {
        TimedEntry {
            node: *node,
            first: self.first,
            last: self.end - 1,
            position,
        }
    }
}

impl Cuts {
    ghost use Rattle.level_map.specs.Found.{starts_in, levels_in};

    // How many groups there are, one for each level.
    pub fn groups(&self) -> u8
        ensures { result ≡ length (starts_in self.now) }
    {
        self.used
    }

    // The group on a level: behind the entries of the more urgent levels, up to those of the less urgent ones.
    pub fn group(&self, level: u8) -> Group
        requires { (1 ≤ level) × (level ≤ length (starts_in self.now)) }
        ensures first { result.first ≡ before level (levels_in self.now) }
        ensures end { result.end ≡ before (suc level) (levels_in self.now) }
        ensures inside { (result.first < result.end) × (result.end ≤ self.now.count) }
    {
        let behind = self.used - level;
        Group {
            first: self.starts[behind as usize] as usize,
            end: group_end(&self.starts, behind, self.count),
        }
    }

    // Writes each entry's level, group by group, and keeps the bytes beyond.
    pub fn write_levels(&self, out: &mut [u8])
        requires { self.now.count ≤ length out.old }
        ensures { out.new ≡ levels_in self.now ++ drop self.now.count out.old }
    {
        let groups = self.groups();
        for level in 1..=groups {
            let group = self.group(level);
            out[group.first..group.end].fill(level);
        }
    }
}
