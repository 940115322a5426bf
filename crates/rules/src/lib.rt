// One record under numbers 4, 6 and 7: what is asked of its words and of its run.
#![tactic(auto)]

ghost use Rattle.std.specs.Prelude.{◌≡◌, true, false, ◌&&◌, ◌||◌, [], ◌∷◌, ℕ, ◌+◌, ◌-◌, eqb, ltb, leb, length};
ghost use Rattle.definitions.specs.Areas.{N, Areas, numbered, constants, overrides, word, at, types, expressions, pool};
ghost use Rattle.definitions.specs.Lists.{all};
ghost use Rattle.definitions.specs.Slots.{unused, body, layout};
ghost use Rattle.definitions.specs.References.{named_by};
ghost use Rattle.definitions.specs.Order.{with_behind, sized_by};
ghost use Rattle.definitions.specs.Refusals.{every, runs_before};
ghost use Rattle.arena.specs.Lent.{areas_in};
ghost use Rattle.arena.specs.Sizes.{size_in};
ghost use Rattle.arena.specs.Elements.{element_of};
ghost use Rattle.slots.specs.Codes.{decoded, unpacked, words_from, arena_of, slot_of};
ghost use Rattle.rules.specs.Rules.{shaped_by, held_by, bounded, within, asked, empty, fit_by, typed_fits, good_by, leading};

use arena::{
    CONSTANTS, Constant, ConstantHandle, Element, ExpressionHandle, GLOBALS, Global, Module, N,
    OVERRIDES, Override, OverrideHandle, Sizes, TAIL, Type, TypeHandle,
};
use slots::{Arena, Slot, code, kind};

// The counts before a record's run, as far as a word can equal them, its own count, and its pool's length.
#[derive(Clone, Copy)]
pub struct Run {
    pub sum: usize,
    pub span: u32,
    pub room: usize,
}

// Below which type and which expression an element that is referred to must lie; None: every one may be.
#[derive(Clone, Copy)]
pub struct Bounds {
    pub types: Option<u32>,
    pub expressions: Option<u32>,
}

// What is enough for numbers 4 to 7 at once: below which type and expression all lies that a word names or that stands
// behind it, how many constants and overrides there are, and the record's run.
#[derive(Clone, Copy)]
pub struct Limits {
    pub types: u32,
    pub constants: u32,
    pub overrides: u32,
    pub expressions: u32,
    pub run: Run,
}

// What is asked of a record's words: under number 4, 6, 7. No closure: the contract of `record_keeps` names it.
#[derive(Clone, Copy)]
pub enum Rule {
    Shaped(Run),
    Held(Sizes),
    Ordered(Bounds),
}

// How many records an arena has.
pub fn size_in(z: Sizes, arena: Arena) -> u32
    ensures { result ≡ size_in z (arena_of arena) }
{
    match arena {
        Arena::Types => z.types,
        Arena::Constants => z.constants,
        Arena::Overrides => z.overrides,
        Arena::Globals => z.globals,
        Arena::Expressions => z.expressions,
    }
}

// Does a run from w on begin where those before it end, and lie in its pool ?
fn begins(run: Run, w: u32) -> bool
    ensures { result ≡ (eqb w run.sum && leb (w + run.span) run.room) }
{
    w as usize == run.sum && w as usize + run.span as usize <= run.room
}

#[tactic(auto, unfolding(crate::specs::Rules::shaped_by))]
fn shaped(run: Run, slot: Slot, w: u32) -> bool
    ensures { result ≡ shaped_by run (slot_of slot) w }
{
    match slot {
        Slot::Unused => w == N,
        Slot::Below(n) => w < n,
        Slot::Start => begins(run, w),
        _ => true,
    }
}

#[tactic(auto, unfolding(crate::specs::Rules::held_by))]
fn held(z: Sizes, slot: Slot, w: u32) -> bool
    ensures { result ≡ held_by (size_in z) (slot_of slot) w }
{
    match slot {
        Slot::Must(arena) => w < size_in(z, arena),
        Slot::May(arena) => w == N || w < size_in(z, arena),
        _ => true,
    }
}

// Is a handle below the bound, if there is one ?
fn below(bound: Option<u32>, h: u32) -> bool
    ensures { result ≡ bounded bound h }
{
    bound.is_none_or(|n| h < n)
}

#[tactic(auto, unfolding(crate::specs::Rules::within))]
fn init_within(b: Bounds, e: ExpressionHandle) -> bool
    ensures { result ≡ (eqb e.0 N || within b (at expressions e.0)) }
{
    e.0 == N || below(b.expressions, e.0)
}

// Do an element and all that stands behind it lie within the bounds ?
#[tactic(auto, unfolding(crate::proofs::Behind::opened))]
fn element_within(b: Bounds, x: Element, m: &Module) -> bool
    ensures { result ≡ all (within b) (with_behind (areas_in m.now) (element_of x ∷ [])) }
{
    match x {
        Element::Type(h) => below(b.types, h.0),
        Element::Constant(h) => {
            below(b.types, Constant::ty(m, h).0) && below(b.expressions, Constant::init(m, h).0)
        }
        Element::Override(h) => {
            below(b.types, Override::ty(m, h).0) && init_within(b, Override::init(m, h))
        }
        Element::Global(h) => {
            below(b.types, Global::ty(m, h).0) && init_within(b, Global::init(m, h))
        }
        Element::Expression(h) => below(b.expressions, h.0),
    }
}

#[tactic(auto, unfolding(crate::proofs::Opened::asks))]
fn ordered(b: Bounds, slot: Slot, w: u32, m: &Module) -> bool
    ensures { result ≡ all (within b) (with_behind (areas_in m.now) (named_by (slot_of slot) w)) }
{
    match slot {
        Slot::Must(arena) => element_within(b, slots::element(arena, w), m),
        Slot::May(arena) => w == N || element_within(b, slots::element(arena, w), m),
        _ => true,
    }
}

// Does a word keep the rule ?
#[tactic(auto, unfolding(crate::specs::Rules::asked))]
fn keeps(rule: Rule, slot: Slot, w: u32, m: &Module) -> bool
    ensures { result ≡ asked (areas_in m.now) rule (slot_of slot) w }
{
    match rule {
        Rule::Shaped(run) => shaped(run, slot, w),
        Rule::Held(z) => held(z, slot, w),
        Rule::Ordered(b) => ordered(b, slot, w, m),
    }
}

// May the words past the last named slot be passed over ? Only number 4 asks anything of them.
#[tactic(auto, unfolding(crate::proofs::Opened::asks))]
fn lenient(rule: Rule) -> bool
    ensures { result ≡ true → (s : Areas) (w : ℕ) → asked s rule unused w ≡ true }
{
    match rule {
        Rule::Shaped(_) => false,
        _ => true,
    }
}

// Do the first n words of the record that starts at a place keep the rule ?
#[tactic(auto, using(crate::proofs::Every::steps))]
fn slots_keep(rule: Rule, ws: &[u32], at: usize, shape: u64, n: usize, m: &Module) -> bool
    ensures { result ≡ every (asked (areas_in m.now) rule) (words_from ws.now at) 0 (unpacked shape n) }
{
    let mut rest = shape;
    for k in 0..n {
        if rest == 0 && lenient(rule) {
            return true;
        }
        if !keeps(rule, slots::first(rest), slots::word(ws, at, k), m) {
            return false;
        }
        rest /= code::BASE;
    }
    true
}

// Do the words of record i of an area keep the rule ?
pub fn record_keeps(rule: Rule, area: u32, i: u32, m: &Module) -> bool
    ensures { result ≡ every (asked (areas_in m.now) rule)
        (word (areas_in m.now) (numbered area) i) 0 (layout (areas_in m.now) (numbered area) i) }
{
    let ws = slots::arena_words(area, m);
    let width = slots::arena_width(area);
    let at = i as usize * width;
    slots_keep(rule, ws, at, slots::shape(area, ws, at), width - TAIL, m)
}

// Do a type and an init lie within the limits ? Unless it must be there the init may be N.
fn typed_fits(l: Limits, ty: u32, init: u32, must: bool) -> bool
    ensures { result ≡ typed_fits l must ty init }
{
    ty < l.types && (!must && init == N || init < l.expressions)
}

// Does a constant, with its type and its init, lie within the limits ? One for each handle, over `typed_fits`.
#[tactic(auto, unfolding(crate::specs::Rules::fit_by))]
fn constant_fits(l: Limits, h: ConstantHandle, m: &Module) -> bool
    ensures { result ≡ fit_by (areas_in m.now) l constants h.0 }
{
    h.0 < l.constants && typed_fits(l, Constant::ty(m, h).0, Constant::init(m, h).0, true)
}

// And an override, which may have no init ?
#[tactic(auto, unfolding(crate::specs::Rules::fit_by))]
fn override_fits(l: Limits, h: OverrideHandle, m: &Module) -> bool
    ensures { result ≡ fit_by (areas_in m.now) l overrides h.0 }
{
    h.0 < l.overrides && typed_fits(l, Override::ty(m, h).0, Override::init(m, h).0, false)
}

// Is a word good under numbers 4 to 7 at once, by its slot's code ?
#[tactic(auto, unfolding(crate::proofs::Opened::good))]
fn slot_good(l: Limits, code: u64, w: u32, m: &Module) -> bool
    ensures { result ≡ good_by (areas_in m.now) l (decoded code) w }
{
    match code {
        code::FREE => false,
        code::TYPE => w < l.types,
        code::CONSTANT => constant_fits(l, ConstantHandle(w), m),
        code::OVERRIDE => override_fits(l, OverrideHandle(w), m),
        code::EXPRESSION => w < l.expressions,
        code::MAYBE => w == N || w < l.expressions,
        code::START => begins(l.run, w),
        code::COUNT => true,
        code::BELOW_2 => w < 2,
        code::BELOW_4 => w < 4,
        code::BELOW_5 => w < 5,
        code::BELOW_34 => w < 34,
        _ => w == N,
    }
}

// Is each word from k on, up to n, of the record that starts at a place N ?
#[tactic(auto, using(crate::proofs::Every::steps), unfolding(crate::specs::Rules::empty))]
fn blank(ws: &[u32], at: usize, k: usize, n: usize) -> bool
    ensures { result ≡ every empty (words_from ws.now at) k (unpacked 0 (n - k)) }
{
    for i in k..n {
        if slots::word(ws, at, i) != N {
            return false;
        }
    }
    true
}

// Are the first n words of the record that starts at a place good ? Beside `slots_keep`: it makes no `Slot`.
#[tactic(auto, using(crate::proofs::Every::steps), unfolding(crate::specs::Rules::empty, crate::specs::Rules::good_by))]
fn slots_good(l: Limits, ws: &[u32], at: usize, shape: u64, n: usize, m: &Module) -> bool
    ensures { result ≡ every (good_by (areas_in m.now) l) (words_from ws.now at) 0 (unpacked shape n) }
{
    let mut rest = shape;
    for k in 0..n {
        if rest == 0 {
            return blank(ws, at, k, n);
        }
        if !slot_good(l, rest % code::BASE, slots::word(ws, at, k), m) {
            return false;
        }
        rest /= code::BASE;
    }
    true
}

// As `typed_fits`, of the words at their places in a record.
fn typed_good(l: Limits, ws: &[u32], at: usize, ty: usize, init: usize, must: bool) -> bool
    ensures { result ≡ typed_fits l must (words_from ws.now at ty) (words_from ws.now at init) }
{
    typed_fits(l, slots::word(ws, at, ty), slots::word(ws, at, init), must)
}

// Are all words of the record that starts at a place good, but those of its tail ?
#[tactic(auto, unfolding(crate::proofs::Opened::good))]
pub fn record_good(l: Limits, area: u32, ws: &[u32], at: usize, m: &Module) -> bool
    ensures { result ≡ every (good_by (areas_in m.now) l)
        (words_from ws.now at) 0 (body (numbered area) (words_from ws.now at)) }
{
    match area {
        CONSTANTS => {
            slots::word(ws, at, Constant::NAMED) < 2
                && typed_good(l, ws, at, Constant::TYPE, Constant::INIT, true)
        }
        OVERRIDES => {
            slots::word(ws, at, Override::NAMED) < 2
                && typed_good(l, ws, at, Override::TYPE, Override::INIT, false)
        }
        GLOBALS => typed_good(l, ws, at, Global::TYPE, Global::INIT, false),
        _ => slots_good(
            l,
            ws,
            at,
            slots::shape(area, ws, at),
            slots::arena_width(area) - TAIL,
            m,
        ),
    }
}

// Are all handles of a run below the bound ?
pub fn all_below(run: &[u32], bound: u32) -> bool
    ensures { result ≡ all (λ w. ltb w bound) run.now }
{
    run.iter().all(|&h| h < bound)
}

// Do the counts of the runs of the first n records of an arena add up to its pool's length ?
#[tactic(auto, using(crate::proofs::Steps::runs_none))]
pub fn pool_used(area: u32, n: u32, m: &Module) -> bool
    ensures { result ≡ eqb (runs_before (areas_in m.now) (numbered area) n)
        (length (pool (areas_in m.now) (numbered area))) }
{
    let ws = slots::arena_words(area, m);
    let width = slots::arena_width(area);
    let mut left = slots::arena_pool(area, m).len();
    for i in 0..n {
        let span = slots::span(area, ws, i as usize * width) as usize;
        if left < span {
            return false;
        }
        left -= span;
    }
    left == 0
}

// One more than the init of the override that sizes type t; 0 where there is none.
#[tactic(auto, unfolding(definitions::specs::Order::sized_by, definitions::specs::Order::one_past))]
pub fn sized(t: TypeHandle, m: &Module) -> usize
    ensures { result ≡ sized_by (areas_in m.now) t.0 }
{
    if Type::kind(m, t) != kind::SIZED_ARRAY {
        return 0;
    }
    match Override::init(m, OverrideHandle(Type::b(m, t))).0 {
        N => 0,
        init => init as usize + 1,
    }
}

// From type t on, the first of n types that is sized by an override with an init not below expression e.
#[tactic(auto, using(crate::proofs::Steps::leads))]
pub fn prefix(t: u32, n: u32, e: u32, m: &Module) -> u32
    ensures { result ≡ leading (areas_in m.now) e t (n - t) }
{
    for u in t..n {
        if (e as usize) < sized(TypeHandle(u), m) {
            return u;
        }
    }
    t.max(n)
}
