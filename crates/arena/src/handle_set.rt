// The set of marked elements: one bit for each, 64 to a word, the arenas one after another.
ghost use Rattle.std.specs.Prelude.{◌≡◌, cond, ◌+◌};
ghost use Rattle.arena.specs.Elements.{element_of};
ghost use Rattle.arena.specs.HandleSet.{bases, bit, member, Inserted, Cleared};
ghost use Rattle.arena.specs.Sizes.{size_in};

use crate::{Constant, Element, Expression, Global, Override, Sizes, Type, capped};

// How many words hold a bit for every record that the limits allow.
pub const MARKS: usize = (Type::LIMIT
    + Constant::LIMIT
    + Override::LIMIT
    + Global::LIMIT
    + Expression::LIMIT)
    / 64;

// Where the bits of each arena begin, those of types beginning at 0, and where the last arena's end.
// Handed on beside the words: who lends a struct of both does not learn that it holds the same words afterwards.
#[derive(Clone, Copy)]
pub struct Bases {
    pub constants: u32,
    pub overrides: u32,
    pub globals: u32,
    pub expressions: u32,
    pub end: u32,
}

impl Bases {
    // From the five arenas' record counts.
    pub fn of(z: Sizes) -> Bases
        ensures { result ≡ bases (size_in z) }
    {
        let to_overrides = capped(z.types, z.constants);
        let to_globals = capped(to_overrides, z.overrides);
        let to_expressions = capped(to_globals, z.globals);
        Bases {
            constants: z.types,
            overrides: to_overrides,
            globals: to_globals,
            expressions: to_expressions,
            end: capped(to_expressions, z.expressions),
        }
    }
}

// A base and a handle, added in 64 bits.
fn sum(base: u32, h: u32) -> usize
    ensures { result ≡ base + h }
{
    base as usize + h as usize
}

// The bit of an element.
pub fn bit(b: Bases, x: Element) -> usize
    ensures { result ≡ bit b (element_of x) }
{
    match x {
        Element::Type(h) => sum(0, h.0),
        Element::Constant(h) => sum(b.constants, h.0),
        Element::Override(h) => sum(b.overrides, h.0),
        Element::Global(h) => sum(b.globals, h.0),
        Element::Expression(h) => sum(b.expressions, h.0),
    }
}

// 1 where bit i is set, else 0. The remainder itself is answered, so that a loop over the bits needs no branch on them.
pub fn bit_at(marks: &[u64], i: usize) -> u32
    ensures { result ≡ cond (member marks.now i) 1 0 }
{
    let word = marks.get(i / 64).copied().unwrap_or(0);
    ((word >> (i % 64)) % 2) as u32
}

// Is bit i set ? None is past the words' end.
pub fn contains_bit(marks: &[u64], i: usize) -> bool
    ensures { result ≡ member marks.now i }
{
    bit_at(marks, i) == 1
}

// Sets bit i; past the words' end nothing changes.
// By a test: of the word that `get_mut` finds the proof did not close.
pub fn insert_bit(marks: &mut [u64], i: usize)
    ensures { Inserted marks.old i marks.new }
{
    if i / 64 < marks.len() {
        marks[i / 64] |= 1 << (i % 64);
    }
}

// Is the element in the set ?
pub fn contains(marks: &[u64], b: Bases, x: Element) -> bool
    ensures { result ≡ member marks.now (bit b (element_of x)) }
{
    contains_bit(marks, bit(b, x))
}

// Puts the element into the set.
pub fn insert(marks: &mut [u64], b: Bases, x: Element)
    ensures { Inserted marks.old (bit b (element_of x)) marks.new }
{
    insert_bit(marks, bit(b, x));
}

// Empties the set.
pub fn clear(marks: &mut [u64])
    ensures { Cleared marks.old marks.new }
{
    marks.fill(0);
}
