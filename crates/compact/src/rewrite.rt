// The third stage: areas, pools and mentions by the maps.
ghost use Rattle.arena.specs.Lent.{areas_within, areas_back, maps_in};
ghost use Rattle.compact.specs.Stages.{Rewrites};

use crate::number::RecordCounts;
use arena::{CONSTANTS, EXPRESSIONS, GLOBALS, ModuleMap, ModuleMut, OVERRIDES, Sizes, TYPES};

// How many words of each pool are kept.
#[derive(Clone, Copy)]
pub struct PoolCounts {
    pub members: usize,
    pub components: usize,
}

// Each area by the maps, pools first: they go by their arenas' old records. Where no record is lost all stays as it is.
#[tactic(auto, unfolding(adjust::specs::Rewrite::areas_by, definitions::specs::Areas::numbered))]
pub fn rewrite(z: Sizes, n: RecordCounts, module: ModuleMut, maps: &ModuleMap) -> PoolCounts
    ensures { Rewrites z n result (areas_within «module».entry) (maps_in maps.now) (areas_back «module».exit) }
{
    let ModuleMut {
        types,
        constants,
        overrides,
        globals,
        expressions,
        members,
        components,
        mentions,
    } = module;
    let all = RecordCounts {
        types: z.types,
        constants: z.constants,
        overrides: z.overrides,
        globals: z.globals,
        expressions: z.expressions,
    };
    if n == all {
        return PoolCounts {
            members: members.len(),
            components: components.len(),
        };
    }
    let kept_members = adjust::adjust_pool(TYPES, types, members, maps.types);
    let kept_components = adjust::adjust_pool(
        EXPRESSIONS,
        expressions,
        components,
        maps.expressions,
    );
    adjust::adjust_arena(TYPES, types, maps);
    adjust::adjust_arena(CONSTANTS, constants, maps);
    adjust::adjust_arena(OVERRIDES, overrides, maps);
    adjust::adjust_arena(GLOBALS, globals, maps);
    adjust::adjust_arena(EXPRESSIONS, expressions, maps);
    adjust::adjust_mentions(mentions, maps);
    PoolCounts {
        members: kept_members,
        components: kept_components,
    }
}
