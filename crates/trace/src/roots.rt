// The roots, for either flag. As the Rust's `compact`, before it calls `type_expression_tandem`.
ghost use Rattle.std.specs.Prelude.{◌≡◌, map};
ghost use Rattle.definitions.specs.Lists.{count_up};
ghost use Rattle.definitions.specs.Areas.{numbered};
ghost use Rattle.definitions.specs.Roots.{mention};
ghost use Rattle.arena.specs.Lent.{areas_in};
ghost use Rattle.trace.specs.Bits.{Marked, root_in, those_in, roots_in};

use crate::mark;
use arena::handle_set::Bases;
use arena::{
    CONSTANTS, Constant, ConstantHandle, GLOBALS, Mention, Module, OVERRIDES, Override,
    OverrideHandle, Sizes, TYPES, Type, TypeHandle,
};

// Is the record a root by itself ? A constant in both modes, the others with Yes.
#[tactic(auto, unfolding(crate::proofs::Counting::rooted))]
fn is_root(area: u32, i: u32, m: &Module) -> bool
    ensures { result ≡ root_in (areas_in m.now) (numbered area) i }
{
    match area {
        TYPES => Type::flags(m, TypeHandle(i)) % 2 == 1,
        CONSTANTS => {
            if Constant::named(m, ConstantHandle(i)) != 1 {
                return false;
            }
            let ty = Constant::ty(m, ConstantHandle(i));
            Type::flags(m, ty) / 2 != 1
        }
        OVERRIDES => Override::named(m, OverrideHandle(i)) == 1,
        GLOBALS => true,
        _ => false,
    }
}

// Marks those of the first n records of an arena that are roots by themselves.
fn mark_those(marks: &mut [u64], b: Bases, area: u32, n: u32, m: &Module)
    ensures { Marked (areas_in m.now) b (those_in (areas_in m.now) (numbered area) n)
        marks.old marks.new }
{
    for i in 0..n {
        if is_root(area, i, m) {
            mark(marks, b, slots::element(slots::arena_at(area), i), m);
        }
    }
}

// Marks what the first n mentions name.
fn mark_mentions(marks: &mut [u64], b: Bases, n: u32, m: &Module)
    ensures { Marked (areas_in m.now) b (map (mention (areas_in m.now)) (count_up 0 n))
        marks.old marks.new }
{
    for i in 0..n {
        let area = Mention::area(m, i);
        let h = Mention::handle(m, i);
        mark(marks, b, slots::element(slots::arena_at(area), h), m);
    }
}

// Marks the roots; `keep` is true for `KeepUnused::Yes`. The sizes say how many of each are looked at.
pub fn mark_roots(marks: &mut [u64], b: Bases, keep: bool, n: Sizes, m: &Module)
    ensures { Marked (areas_in m.now) b (roots_in (areas_in m.now) keep n) marks.old marks.new }
{
    mark_mentions(marks, b, n.mentions, m);
    mark_those(marks, b, CONSTANTS, n.constants, m);
    if keep {
        mark_those(marks, b, GLOBALS, n.globals, m);
        mark_those(marks, b, OVERRIDES, n.overrides, m);
        mark_those(marks, b, TYPES, n.types, m);
    }
}
