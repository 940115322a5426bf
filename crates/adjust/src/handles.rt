// Handles looked up: each kind in the map of its arena, which gives that kind.
ghost use Rattle.std.specs.Prelude.{◌≡◌};
ghost use Rattle.definitions.specs.Outcome.{map_of};
ghost use Rattle.definitions.specs.MapEntries.{lookup};
ghost use Rattle.arena.specs.Elements.{element_of};
ghost use Rattle.arena.specs.Lent.{maps_in};
ghost use Rattle.slots.specs.Codes.{arena_of};
ghost use Rattle.adjust.specs.Rewrite.{element_by};

use arena::{Constant, Element, Expression, Global, ModuleMap, Override, Record, Type};
use slots::Arena;

// A handle's new one, or N, by the map of its arena.
pub fn after<R: Record>(map: &[u32], h: R::Handle) -> R::Handle
    ensures { R.index result ≡ lookup map.now (R.index h) }
{
    R::handle(handle_map::lookup(map, R::index(h)))
}

// An element's, by the map of its arena.
#[tactic(auto, unfolding(crate::specs::Rewrite::element_by, definitions::specs::Outcome::map_of))]
pub fn element_after(x: Element, maps: &ModuleMap) -> Element
    ensures { element_of result ≡ element_by (maps_in maps.now) (element_of x) }
{
    match x {
        Element::Type(h) => Element::Type(after::<Type>(maps.types, h)),
        Element::Constant(h) => Element::Constant(after::<Constant>(maps.constants, h)),
        Element::Override(h) => Element::Override(after::<Override>(maps.overrides, h)),
        Element::Global(h) => Element::Global(after::<Global>(maps.globals, h)),
        Element::Expression(h) => Element::Expression(after::<Expression>(maps.expressions, h)),
    }
}

// A word that names an element of an arena, adjusted.
#[tactic(auto, unfolding(crate::specs::Rewrite::element_by))]
pub fn word_after(arena: Arena, w: u32, maps: &ModuleMap) -> u32
    ensures { result ≡ lookup (map_of (maps_in maps.now) (arena_of arena)) w }
{
    element_after(slots::element(arena, w), maps).word()
}
