// The second stage: the maps from the marks.
ghost use Rattle.arena.specs.Lent.{maps_within, maps_back};
ghost use Rattle.compact.specs.Stages.{Numbers};

use arena::handle_set::Bases;
use arena::{ModuleMapMut, Sizes};

// How many records of each arena are kept.
#[derive(Clone, Copy, PartialEq, Eq)]
pub struct RecordCounts {
    pub types: u32,
    pub constants: u32,
    pub overrides: u32,
    pub globals: u32,
    pub expressions: u32,
}

// The five maps of the marked records, and how many there are.
pub fn number(marks: &[u64], z: Sizes, map: ModuleMapMut) -> RecordCounts
    ensures { Numbers marks.now z result (maps_within map.entry) (maps_back map.exit) }
{
    let ModuleMapMut {
        types,
        constants,
        overrides,
        globals,
        expressions,
    } = map;
    let b = Bases::of(z);
    RecordCounts {
        types: handle_map::from_set(marks, 0, z.types, types),
        constants: handle_map::from_set(marks, b.constants, z.constants, constants),
        overrides: handle_map::from_set(marks, b.overrides, z.overrides, overrides),
        globals: handle_map::from_set(marks, b.globals, z.globals, globals),
        expressions: handle_map::from_set(marks, b.expressions, z.expressions, expressions),
    }
}
