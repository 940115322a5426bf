// What each word of a record is: one decision over the kinds, and the shape that it gives.
#![tactic(auto)]

pub mod code;
pub mod kind;
mod shapes;

ghost use Rattle.std.specs.Prelude.{◌≡◌, ◌+◌, ◌%◌, get_or};
ghost use Rattle.definitions.specs.Areas.{numbered, at, width, words, pool};
ghost use Rattle.definitions.specs.Slots.{form_of, body};
ghost use Rattle.slots.specs.Codes.{decoded, packed, arena_of, slot_of, words_from, span_in, run_in};
ghost use Rattle.arena.specs.Lent.{areas_in};
ghost use Rattle.arena.specs.Elements.{element_of};

use arena::{
    COMPONENTS, CONSTANTS, Constant, ConstantHandle, EXPRESSIONS, Element, Expression,
    ExpressionHandle, GLOBALS, Global, GlobalHandle, MEMBERS, Module, OVERRIDES, Override,
    OverrideHandle, TYPES, Type, TypeHandle, least,
};
pub use shapes::expression_shape;

// The five arenas.
#[derive(Clone, Copy, Debug, PartialEq, Eq)]
pub enum Arena {
    Types,
    Constants,
    Overrides,
    Globals,
    Expressions,
}

// What a word of a record is.
#[derive(Clone, Copy, Debug, PartialEq, Eq)]
pub enum Slot {
    Unused,
    Free,
    Below(u32),
    Must(Arena),
    May(Arena),
    Start,
    Count,
}

// The element of an arena that a word names.
pub fn element(arena: Arena, h: u32) -> Element
    ensures { element_of result ≡ at (arena_of arena) h }
{
    match arena {
        Arena::Types => Element::Type(TypeHandle(h)),
        Arena::Constants => Element::Constant(ConstantHandle(h)),
        Arena::Overrides => Element::Override(OverrideHandle(h)),
        Arena::Globals => Element::Global(GlobalHandle(h)),
        Arena::Expressions => Element::Expression(ExpressionHandle(h)),
    }
}

// Word k of the record that starts at a place; 0 past the end.
// By words and place, as the other readers: a place past the end has its answer too.
pub fn word(ws: &[u32], at: usize, k: usize) -> u32
    ensures { result ≡ get_or ws.now (at + k) 0 }
{
    ws.get(at.saturating_add(k)).copied().unwrap_or(0)
}

// The first slot of a shape.
#[tactic(auto, unfolding(crate::specs::Codes::decoded, crate::specs::Codes::codes))]
pub fn first(shape: u64) -> Slot
    ensures { slot_of result ≡ decoded (shape % 16) }
{
    match shape % code::BASE {
        code::FREE => Slot::Free,
        code::TYPE => Slot::Must(Arena::Types),
        code::CONSTANT => Slot::Must(Arena::Constants),
        code::OVERRIDE => Slot::Must(Arena::Overrides),
        code::EXPRESSION => Slot::Must(Arena::Expressions),
        code::MAYBE => Slot::May(Arena::Expressions),
        code::START => Slot::Start,
        code::COUNT => Slot::Count,
        code::BELOW_2 => Slot::Below(2),
        code::BELOW_4 => Slot::Below(4),
        code::BELOW_5 => Slot::Below(5),
        code::BELOW_34 => Slot::Below(34),
        _ => Slot::Unused,
    }
}

// The form of an expression, where it is an `ImageSample` or an `ImageQuery`.
#[tactic(auto, unfolding(definitions::specs::Slots::form_of))]
fn form(ws: &[u32], at: usize) -> u32
    ensures { result ≡ form_of (words_from ws.now at) }
{
    match word(ws, at, Expression::KIND) {
        kind::IMAGE_SAMPLE => word(ws, at, shapes::LEVEL_FORM),
        kind::IMAGE_QUERY => word(ws, at, shapes::QUERY_FORM),
        _ => 0,
    }
}

// The slots of the body of the record that starts at a place, by its area.
#[tactic(auto, unfolding(crate::proofs::Tables::bodies))]
pub fn shape(area: u32, ws: &[u32], at: usize) -> u64
    ensures { result ≡ packed (body (numbered area) (words_from ws.now at)) }
{
    match area {
        TYPES => shapes::type_shape(word(ws, at, Type::KIND)),
        CONSTANTS => shapes::CONSTANT,
        OVERRIDES => shapes::OVERRIDE,
        GLOBALS => shapes::GLOBAL,
        _ => expression_shape(word(ws, at, Expression::KIND), form(ws, at)),
    }
}

// The count of the run of the record that starts at a place; 0 without one.
#[tactic(auto, unfolding(definitions::specs::Areas::numbered, crate::specs::Codes::span_in))]
pub fn span(area: u32, ws: &[u32], at: usize) -> u32
    ensures { result ≡ span_in (numbered area) (words_from ws.now at) }
{
    match area {
        TYPES if word(ws, at, Type::KIND) == kind::STRUCT => word(ws, at, shapes::RUN_COUNT),
        EXPRESSIONS.. if word(ws, at, Expression::KIND) == kind::COMPOSE => {
            word(ws, at, shapes::RUN_COUNT)
        }
        _ => 0,
    }
}

// The run of the record that starts at a place, as part of its pool.
#[tactic(auto, unfolding(crate::specs::Codes::run_in))]
pub fn run<'a>(area: u32, ws: &[u32], at: usize, pool: &'a [u32]) -> &'a [u32]
    ensures { result.now ≡ run_in (numbered area) (words_from ws.now at) pool.now }
{
    let start = word(ws, at, shapes::RUN_START) as usize;
    let end = start + span(area, ws, at) as usize;
    &pool[least(start, pool.len())..least(end, pool.len())]
}

// The arena of an area.
#[tactic(auto, unfolding(definitions::specs::Areas::numbered))]
pub fn arena_at(area: u32) -> Arena
    ensures { arena_of result ≡ numbered area }
{
    match area {
        TYPES => Arena::Types,
        CONSTANTS => Arena::Constants,
        OVERRIDES => Arena::Overrides,
        GLOBALS => Arena::Globals,
        _ => Arena::Expressions,
    }
}

// The width of its records.
#[tactic(auto, unfolding(definitions::specs::Areas::numbered, definitions::specs::Areas::width))]
pub fn arena_width(area: u32) -> usize
    ensures { result ≡ width (numbered area) }
{
    match area {
        TYPES => Type::WIDTH,
        CONSTANTS => Constant::WIDTH,
        OVERRIDES => Override::WIDTH,
        GLOBALS => Global::WIDTH,
        _ => Expression::WIDTH,
    }
}

// Its words, in a module that is only read.
#[tactic(auto, unfolding(definitions::specs::Areas::numbered, definitions::specs::Areas::words))]
pub fn arena_words<'a>(area: u32, m: &Module<'a>) -> &'a [u32]
    ensures { result.now ≡ words (areas_in m.now) (numbered area) }
{
    m[area.min(EXPRESSIONS) as usize]
}

// The pool that its runs lie in; empty for an arena without runs.
#[tactic(auto, unfolding(definitions::specs::Areas::numbered, definitions::specs::Areas::pool))]
pub fn arena_pool<'a>(area: u32, m: &Module<'a>) -> &'a [u32]
    ensures { result.now ≡ pool (areas_in m.now) (numbered area) }
{
    match area {
        TYPES => m[MEMBERS as usize],
        CONSTANTS..=GLOBALS => &[],
        _ => m[COMPONENTS as usize],
    }
}
