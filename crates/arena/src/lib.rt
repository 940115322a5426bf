// What every later crate says of a module's elements: handles, records, and the set of marked elements.
#![tactic(auto)]

ghost use Rattle.std.specs.Prelude.{◌≡◌};
ghost use Rattle.arena.specs.Elements.{element_of, handle_of};

mod areas;
pub mod handle_set;
mod records;
mod sizes;

pub use areas::{
    AREAS, ARENAS, COMPONENTS, CONSTANTS, EXPRESSIONS, GLOBALS, MEMBERS, MENTIONS, Module,
    ModuleMap, ModuleMapMut, ModuleMut, OVERRIDES, TYPES,
};
pub use records::{
    Constant, Expression, Global, Mention, N, Override, Record, SPAN_LENGTH, SPAN_START, TAG, TAIL,
    Type, capped, least, length, limit, width,
};
pub use sizes::Sizes;

// A record's place in its area: a kind of handle for each arena, so that none stands where another is wanted.
// Five structs, the form that document 01 asks for.
#[derive(Clone, Copy)]
pub struct TypeHandle(pub u32);

#[derive(Clone, Copy)]
pub struct ConstantHandle(pub u32);

#[derive(Clone, Copy)]
pub struct OverrideHandle(pub u32);

#[derive(Clone, Copy)]
pub struct GlobalHandle(pub u32);

#[derive(Clone, Copy)]
pub struct ExpressionHandle(pub u32);

// An element of the module: a record of an arena.
#[derive(Clone, Copy)]
pub enum Element {
    Type(TypeHandle),
    Constant(ConstantHandle),
    Override(OverrideHandle),
    Global(GlobalHandle),
    Expression(ExpressionHandle),
}

impl Element {
    // Its handle, as a word.
    pub fn word(self) -> u32
        ensures { result ≡ handle_of (element_of self) }
    {
        match self {
            Element::Type(h) => h.0,
            Element::Constant(h) => h.0,
            Element::Override(h) => h.0,
            Element::Global(h) => h.0,
            Element::Expression(h) => h.0,
        }
    }
}
