// The entry: a flat shader module compacted in place, or refused with nothing changed.
#![tactic(auto)]

mod judge;
mod number;
mod rewrite;

ghost use Rattle.std.specs.Prelude.{◌≡◌};
ghost use Rattle.arena.specs.Lent.{areas_within, areas_back, maps_within, maps_back};
ghost use Rattle.compact.specs.Answer.{keep_of, Compacts};

use arena::handle_set::MARKS;
use arena::{ModuleMap, ModuleMapMut, ModuleMut};
pub use faults::Fault;

// Whether named overrides and types and all globals are kept though nothing refers to them.
#[derive(Clone, Copy, Debug, PartialEq, Eq)]
pub enum KeepUnused {
    No,
    Yes,
}

impl From<bool> for KeepUnused {
    ghost from_gives = { λ keep k. keep_of k ≡ keep };

    fn from(keep: bool) -> KeepUnused {
        if keep {
            KeepUnused::Yes
        } else {
            KeepUnused::No
        }
    }
}

// How many records of areas 0 to 6 were kept.
#[derive(Clone, Copy, Debug, PartialEq, Eq)]
pub struct Counts {
    pub types: u32,
    pub constants: u32,
    pub overrides: u32,
    pub globals: u32,
    pub expressions: u32,
    pub members: u32,
    pub components: u32,
}

// Compacts the module in eight areas, and writes where each old record went into five maps. As the Rust's `compact`.
// Any words may be handed in. A refused module is left as it was, and so are the maps.
pub fn compact(
    module: ModuleMut,
    map: ModuleMapMut,
    keep_unused: KeepUnused,
) -> Result<Counts, Fault>
    ensures { Compacts (keep_of keep_unused) result
        (areas_within «module».entry) (maps_within map.entry) (areas_back «module».exit) (maps_back map.exit) }
{
    let ModuleMut {
        types,
        constants,
        overrides,
        globals,
        expressions,
        members,
        components,
        mentions,
    } = module;
    let ModuleMapMut {
        types: type_map,
        constants: constant_map,
        overrides: override_map,
        globals: global_map,
        expressions: expression_map,
    } = map;
    let mut marks = [0u64; MARKS];
    let areas = [
        &types[..],
        &constants[..],
        &overrides[..],
        &globals[..],
        &expressions[..],
        &members[..],
        &components[..],
        &mentions[..],
    ];
    let maps = ModuleMap {
        types: type_map,
        constants: constant_map,
        overrides: override_map,
        globals: global_map,
        expressions: expression_map,
    };
    let z = judge::judge(&mut marks, keep_unused == KeepUnused::Yes, &areas, &maps)?;
    let kept = number::number(
        &marks,
        z,
        ModuleMapMut {
            types: type_map,
            constants: constant_map,
            overrides: override_map,
            globals: global_map,
            expressions: expression_map,
        },
    );
    let pools = rewrite::rewrite(
        z,
        kept,
        ModuleMut {
            types,
            constants,
            overrides,
            globals,
            expressions,
            members,
            components,
            mentions,
        },
        &ModuleMap {
            types: type_map,
            constants: constant_map,
            overrides: override_map,
            globals: global_map,
            expressions: expression_map,
        },
    );
    Ok(Counts {
        types: kept.types,
        constants: kept.constants,
        overrides: kept.overrides,
        globals: kept.globals,
        expressions: kept.expressions,
        members: pools.members as u32,
        components: pools.components as u32,
    })
}
