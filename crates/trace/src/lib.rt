// Marking: an element with what stands behind it, what a record refers to, the roots.
#![tactic(auto)]

mod roots;

ghost use Rattle.std.specs.Prelude.{◌≡◌, [], ◌∷◌, map};
ghost use Rattle.definitions.specs.Areas.{at, numbered, types, constants, overrides, globals, expressions};
ghost use Rattle.definitions.specs.Slots.{may};
ghost use Rattle.definitions.specs.References.{named_by, named_from};
ghost use Rattle.arena.specs.Lent.{areas_in};
ghost use Rattle.arena.specs.Elements.{element_of};
ghost use Rattle.arena.specs.HandleSet.{bit};
ghost use Rattle.slots.specs.Codes.{decoded, unpacked, words_from};
ghost use Rattle.trace.specs.Bits.{init_of, Put, Marked, Visited};

use arena::handle_set::Bases;
use arena::{
    Constant, ConstantHandle, EXPRESSIONS, Element, ExpressionHandle, Global, GlobalHandle, Module,
    N, Override, OverrideHandle, TYPES, TypeHandle, handle_set,
};
pub use roots::mark_roots;
use slots::code;

// The init that a word names: none where it is N.
#[tactic(auto, unfolding(definitions::specs::References::named_by))]
fn maybe(init: ExpressionHandle) -> Option<ExpressionHandle>
    ensures { init_of result ≡ named_by (may expressions) init.0 }
{
    (init.0 != N).then_some(init)
}

// Marks an element's type and its init.
#[tactic(auto, using(crate::proofs::Sets::puts))]
fn mark_both(marks: &mut [u64], b: Bases, ty: TypeHandle, init: Option<ExpressionHandle>)
    ensures { Put (map (bit b) (at types ty.0 ∷ init_of init)) marks.old marks.new }
{
    handle_set::insert(marks, b, Element::Type(ty));
    if let Some(init) = init {
        handle_set::insert(marks, b, Element::Expression(init));
    }
}

// Marks a constant with its type and init.
// The element is put in before its type and init are read: one function that takes all three was slower.
#[tactic(auto, using(crate::proofs::Behind::ones))]
fn mark_constant(marks: &mut [u64], b: Bases, h: ConstantHandle, m: &Module)
    ensures { Marked (areas_in m.now) b (at constants h.0 ∷ []) marks.old marks.new }
{
    handle_set::insert(marks, b, Element::Constant(h));
    let init = Constant::init(m, h);
    mark_both(marks, b, Constant::ty(m, h), Some(init));
}

// Marks an override with its type and init.
#[tactic(auto, using(crate::proofs::Behind::ones))]
fn mark_override(marks: &mut [u64], b: Bases, h: OverrideHandle, m: &Module)
    ensures { Marked (areas_in m.now) b (at overrides h.0 ∷ []) marks.old marks.new }
{
    handle_set::insert(marks, b, Element::Override(h));
    mark_both(marks, b, Override::ty(m, h), maybe(Override::init(m, h)));
}

// Marks a global with its type and init.
#[tactic(auto, using(crate::proofs::Behind::ones))]
fn mark_global(marks: &mut [u64], b: Bases, h: GlobalHandle, m: &Module)
    ensures { Marked (areas_in m.now) b (at globals h.0 ∷ []) marks.old marks.new }
{
    handle_set::insert(marks, b, Element::Global(h));
    mark_both(marks, b, Global::ty(m, h), maybe(Global::init(m, h)));
}

// Marks an element; a constant, override or global with its type and init at once.
#[tactic(auto, using(crate::proofs::Sets::puts), unfolding(crate::proofs::Behind::opened))]
pub fn mark(marks: &mut [u64], b: Bases, x: Element, m: &Module)
    ensures { Marked (areas_in m.now) b (element_of x ∷ []) marks.old marks.new }
{
    match x {
        Element::Type(h) => handle_set::insert(marks, b, Element::Type(h)),
        Element::Constant(h) => mark_constant(marks, b, h, m),
        Element::Override(h) => mark_override(marks, b, h, m),
        Element::Global(h) => mark_global(marks, b, h, m),
        Element::Expression(h) => handle_set::insert(marks, b, Element::Expression(h)),
    }
}

// Marks what a slot names, by its code. No slot names a global.
#[tactic(auto, using(crate::proofs::Sets::puts), unfolding(crate::proofs::Behind::coded))]
fn trace_slot(marks: &mut [u64], b: Bases, code: u64, w: u32, m: &Module)
    ensures { Marked (areas_in m.now) b (named_by (decoded code) w) marks.old marks.new }
{
    match code {
        code::TYPE => handle_set::insert(marks, b, Element::Type(TypeHandle(w))),
        code::CONSTANT => mark_constant(marks, b, ConstantHandle(w), m),
        code::OVERRIDE => mark_override(marks, b, OverrideHandle(w), m),
        code::EXPRESSION => handle_set::insert(marks, b, Element::Expression(ExpressionHandle(w))),
        code::MAYBE => {
            if w != N {
                handle_set::insert(marks, b, Element::Expression(ExpressionHandle(w)));
            }
        }
        _ => {}
    }
}

// Marks what the slots of the record that starts at a place name.
fn trace_slots(marks: &mut [u64], b: Bases, ws: &[u32], at: usize, shape: u64, m: &Module)
    ensures { Marked (areas_in m.now) b (named_from (words_from ws.now at) 0 (unpacked shape 10))
        marks.old marks.new }
{
    let mut rest = shape;
    for k in 0..code::WORDS {
        if rest == 0 {
            break;
        }
        trace_slot(marks, b, rest % code::BASE, slots::word(ws, at, k), m);
        rest /= code::BASE;
    }
}

// Marks the handles of a run.
#[tactic(auto, using(crate::proofs::Counting::loops))]
fn trace_run(marks: &mut [u64], b: Bases, area: u32, run: &[u32])
    ensures { Put (map (bit b) (map (at (numbered area)) run.now)) marks.old marks.new }
{
    for h in run {
        handle_set::insert(marks, b, slots::element(slots::arena_at(area), *h));
    }
}

// Visits record i of an area: where it is marked, marks what it refers to.
#[tactic(auto, unfolding(crate::specs::Bits::visit_bits))]
pub fn trace(marks: &mut [u64], b: Bases, area: u32, i: u32, m: &Module)
    ensures { Visited (areas_in m.now) b (at (numbered area) i) marks.old marks.new }
{
    if handle_set::contains(marks, b, slots::element(slots::arena_at(area), i)) {
        let ws = slots::arena_words(area, m);
        let at = i as usize * slots::arena_width(area);
        trace_slots(marks, b, ws, at, slots::shape(area, ws, at), m);
        if slots::span(area, ws, at) != 0 {
            trace_run(
                marks,
                b,
                area,
                slots::run(area, ws, at, slots::arena_pool(area, m)),
            );
        }
    }
}

// Visits a type. As the Rust's `TypeTracer::trace_type`, under its caller's test: an unmarked type is spared the call.
#[tactic(auto, unfolding(definitions::specs::Areas::numbered, crate::specs::Bits::visit_bits))]
pub fn trace_type(marks: &mut [u64], b: Bases, h: TypeHandle, m: &Module)
    ensures { Visited (areas_in m.now) b (at types h.0) marks.old marks.new }
{
    if handle_set::contains(marks, b, Element::Type(h)) {
        trace(marks, b, TYPES, h.0, m);
    }
}

// Visits an expression. As `ExpressionTracer::trace_expression`, under its caller's test likewise.
#[tactic(auto, unfolding(definitions::specs::Areas::numbered, crate::specs::Bits::visit_bits))]
pub fn trace_expression(marks: &mut [u64], b: Bases, h: ExpressionHandle, m: &Module)
    ensures { Visited (areas_in m.now) b (at expressions h.0) marks.old marks.new }
{
    if handle_set::contains(marks, b, Element::Expression(h)) {
        trace(marks, b, EXPRESSIONS, h.0, m);
    }
}
