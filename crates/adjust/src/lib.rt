// Rewriting by the maps: records, pools and mentions in place, what was kept closed up, then N to the old end.
#![tactic(auto)]

ghost use Rattle.std.specs.Prelude.{◌≡◌, ◌∷◌, map, ◌+◌, ◌^◌, ◌≤◌, ◌<◌, length, take, drop};
ghost use Rattle.std.proofs.lemmas.List.Edits.{sets};
ghost use Rattle.definitions.specs.Areas.{N, numbered, width};
ghost use Rattle.definitions.specs.Slots.{body, tail, slots, carried};
ghost use Rattle.definitions.specs.Outcome.{map_of};
ghost use Rattle.definitions.specs.MapEntries.{lookup};
ghost use Rattle.arena.specs.Lent.{maps_in};
ghost use Rattle.slots.specs.Codes.{arena_of, slot_of, unpacked, words_from};
ghost use Rattle.adjust.specs.Rewrite.{kept_by, adjusted_by, init_by, typed_by, record_from};
ghost use Rattle.adjust.specs.Rewrite.{Empty, freed_from, arena_by, pool_by, runs_by, mentions_by};

mod handles;

use arena::{
    CONSTANTS, Constant, Expression, ExpressionHandle, GLOBALS, Global, Mention, ModuleMap, N,
    OVERRIDES, Override, SPAN_LENGTH, SPAN_START, TAG, TAIL, TYPES, Type, TypeHandle,
};
use slots::{Arena, Slot, code};

// Words that move down: where they are read, and where they are written, which is no later.
#[derive(Clone, Copy)]
struct Shift {
    from: usize,
    to: usize,
    ghost down: { to ≤ from },
}

impl Shift {
    // The same, k words on.
    fn past(self, k: usize) -> Shift
        requires { self.from + k < 2 ^ 64 }
        ensures { (result.from ≡ self.from + k) × (result.to ≡ self.to + k) }
    {
        Shift {
            from: self.from + k,
            to: self.to + k,
        }
    }
}

// The map of an arena.
#[tactic(auto, unfolding(definitions::specs::Outcome::map_of))]
fn map_of<'a>(arena: Arena, maps: &ModuleMap<'a>) -> &'a [u32]
    ensures { result.now ≡ map_of (maps_in maps.now) (arena_of arena) }
{
    match arena {
        Arena::Types => maps.types,
        Arena::Constants => maps.constants,
        Arena::Overrides => maps.overrides,
        Arena::Globals => maps.globals,
        Arena::Expressions => maps.expressions,
    }
}

// A word adjusted; `start` is the new start of the record's run.
#[tactic(auto, unfolding(crate::specs::Rewrite::adjusted_by))]
fn adjust_slot(slot: Slot, w: u32, start: u32, maps: &ModuleMap) -> u32
    ensures { result ≡ adjusted_by (maps_in maps.now) start (slot_of slot) w }
{
    match slot {
        Slot::May(_) if w == N => N,
        Slot::Must(arena) | Slot::May(arena) => handles::word_after(arena, w, maps),
        Slot::Start => start,
        _ => w,
    }
}

// The n words, whose slots the shape has, are moved and adjusted. By numbers: both places lie in one slice.
fn adjust_record(ws: &mut [u32], shift: Shift, n: usize, shape: u64, start: u32, maps: &ModuleMap)
    requires { shift.from + n ≤ length ws.old }
    ensures { ws.new ≡
        sets ws.old shift.to (record_from (maps_in maps.now) start (words_from ws.old shift.from) 0 (unpacked shape n)) }
{
    let mut rest = shape;
    for k in 0..n {
        ws[shift.to + k] = adjust_slot(slots::first(rest), ws[shift.from + k], start, maps);
        rest /= code::BASE;
    }
}

// An init adjusted. Unless it must be there it may be N: `must`, as `init_by` has it, tells a constant from the others.
#[tactic(auto, unfolding(crate::specs::Rewrite::init_by))]
fn adjust_init(must: bool, init: ExpressionHandle, expression_map: &[u32]) -> ExpressionHandle
    ensures { result.0 ≡ init_by must expression_map.now init.0 }
{
    if init.0 == N && !must {
        return init;
    }
    handles::after::<Expression>(expression_map, init)
}

// The type and the init, as a global has them, are moved and adjusted.
#[tactic(auto, unfolding(crate::specs::Rewrite::typed_by))]
fn adjust_typed(ws: &mut [u32], shift: Shift, must: bool, maps: &ModuleMap)
    requires { shift.from + 1 < length ws.old }
    ensures { ws.new ≡
        sets ws.old shift.to
        (typed_by must maps.now.types.now maps.now.expressions.now (words_from ws.old shift.from) 0) }
{
    let ty = TypeHandle(ws[shift.from + Global::TYPE]);
    let init = ExpressionHandle(ws[shift.from + Global::INIT]);
    ws[shift.to + Global::TYPE] = handles::after::<Type>(maps.types, ty).0;
    ws[shift.to + Global::INIT] = adjust_init(must, init, maps.expressions).0;
}

// As `adjust_typed`, past a flag, which stays: a constant or an override, whose words lie alike.
#[tactic(auto, unfolding(crate::specs::Rewrite::typed_by))]
fn adjust_named(ws: &mut [u32], shift: Shift, must: bool, maps: &ModuleMap)
    requires { shift.from + 2 < length ws.old }
    ensures { ws.new ≡
        sets ws.old shift.to
        (words_from ws.old shift.from 0
        ∷ typed_by must maps.now.types.now maps.now.expressions.now (words_from ws.old shift.from) 1) }
{
    let flag = ws[shift.from + Constant::NAMED];
    ws[shift.to + Constant::NAMED] = flag;
    adjust_typed(ws, shift.past(Constant::TYPE), must, maps);
}

// The n words before the tail of the area's record are moved and adjusted.
// Three areas have one shape each.
#[tactic(auto, unfolding(crate::proofs::Bodies::opened))]
fn adjust_body(area: u32, ws: &mut [u32], shift: Shift, n: usize, start: u32, maps: &ModuleMap)
    requires { (shift.from + n ≤ length ws.old) × (n + length tail ≡ width (numbered area)) }
    ensures { ws.new ≡
        sets ws.old shift.to
        (record_from (maps_in maps.now) start (words_from ws.old shift.from) 0
        (body (numbered area) (words_from ws.old shift.from))) }
{
    match area {
        CONSTANTS => adjust_named(ws, shift, true, maps),
        OVERRIDES => adjust_named(ws, shift, false, maps),
        GLOBALS => adjust_typed(ws, shift, false, maps),
        _ => {
            let shape = slots::shape(area, ws, shift.from);
            adjust_record(ws, shift, n, shape, start, maps)
        }
    }
}

// A record's tail is moved as it is.
// Word by word: with `copy_within` a module that loses half its records takes a twenty-fifth longer.
fn carry_tail(ws: &mut [u32], shift: Shift)
    requires { shift.from + length tail ≤ length ws.old }
    ensures { ws.new ≡ sets ws.old shift.to (carried (words_from ws.old shift.from) 0 tail) }
{
    let start = ws[shift.from + SPAN_START];
    let length = ws[shift.from + SPAN_LENGTH];
    let tag = ws[shift.from + TAG];
    ws[shift.to + SPAN_START] = start;
    ws[shift.to + SPAN_LENGTH] = length;
    ws[shift.to + TAG] = tag;
}

// The record, of an area whose records have `wide` words, is moved and adjusted.
fn adjust_kept(area: u32, ws: &mut [u32], shift: Shift, wide: usize, start: u32, maps: &ModuleMap)
    requires { (shift.from + wide ≤ length ws.old) × (wide ≡ width (numbered area)) }
    ensures { ws.new ≡
        sets ws.old shift.to
        (record_from (maps_in maps.now) start (words_from ws.old shift.from) 0
        (slots (numbered area) (words_from ws.old shift.from))) }
{
    let n = wide - TAIL;
    adjust_body(area, ws, shift, n, start, maps);
    carry_tail(ws, shift.past(n));
}

// An empty record again and again from a place on, as long as it fits, then N to the end.
// By numbers: of parts written through `chunks_exact_mut` a proof knows the lengths alone.
fn free(ws: &mut [u32], from: usize, empty: &[u32])
    requires { (from ≤ length ws.old) × Empty empty.now }
    ensures { ws.new ≡ freed_from from ws.old }
{
    let width = empty.len();
    let n = (ws.len() - from) / width;
    for h in 0..n {
        let at = from + h * width;
        ws[at..at + width].copy_from_slice(empty);
    }
    ws[from + n * width..].fill(N);
}

// The records of an area from a place on are freed: each is the area's empty record.
fn free_records(area: u32, ws: &mut [u32], from: usize)
    requires { from ≤ length ws.old }
    ensures { ws.new ≡ freed_from from ws.old }
{
    match area {
        TYPES => free(ws, from, &Type::empty()),
        CONSTANTS => free(ws, from, &Constant::empty()),
        OVERRIDES => free(ws, from, &Override::empty()),
        GLOBALS => free(ws, from, &Global::empty()),
        _ => free(ws, from, &Expression::empty()),
    }
}

// Whether the map keeps record h: past the map's end nothing is kept.
#[tactic(auto, unfolding(crate::specs::Rewrite::kept_by, definitions::specs::MapEntries::lookup))]
fn kept_at(own: &[u32], h: usize) -> bool
    ensures { result ≡ kept_by own.now h }
{
    own.get(h).copied().unwrap_or(N) != N
}

// An arena rewritten: its kept records adjusted and closed up in old order, then N.
// As the Rust's `retain_mut` with `adjust_type`, `adjust_expression`.
pub fn adjust_arena(area: u32, ws: &mut [u32], maps: &ModuleMap)
    ensures { ws.new ≡ arena_by (maps_in maps.now) (numbered area) ws.old }
{
    let width = slots::arena_width(area);
    let own = map_of(slots::arena_at(area), maps);
    let mut start = 0;
    let mut to = 0;
    for h in 0..ws.len() / width {
        let from = h * width;
        if kept_at(own, h) {
            let span = slots::span(area, ws, from);
            adjust_kept(area, ws, Shift { from, to }, width, start, maps);
            start = arena::capped(start, span);
            to += width;
        }
    }
    free_records(area, ws, to);
}

// A word of a run adjusted: a type's members are types, an expression's components expressions.
fn run_word(area: u32, w: u32, own: &[u32]) -> u32
    ensures { result ≡ lookup own.now w }
{
    match area {
        TYPES => handles::after::<Type>(own, TypeHandle(w)).0,
        _ => handles::after::<Expression>(own, ExpressionHandle(w)).0,
    }
}

// The n words of the area's pool are moved and adjusted.
fn adjust_run(area: u32, pool: &mut [u32], shift: Shift, n: usize, own: &[u32])
    requires { shift.from + n ≤ length pool.old }
    ensures { pool.new ≡ sets pool.old shift.to (map (lookup own.now) (take n (drop shift.from pool.old))) }
{
    for k in 0..n {
        pool[shift.to + k] = run_word(area, pool[shift.from + k], own);
    }
}

// A pool rewritten: the runs of its arena's kept records adjusted and closed up, then N.
// Answers how many words were kept. The arena's records still stand as they were.
pub fn adjust_pool(area: u32, ws: &[u32], pool: &mut [u32], own: &[u32]) -> usize
    ensures { (pool.new ≡ pool_by own.now (numbered area) ws.now pool.old)
        × (result ≡ length (runs_by own.now (numbered area) ws.now pool.old)) }
{
    let width = slots::arena_width(area);
    let mut from = 0;
    let mut to = 0;
    for h in 0..ws.len() / width {
        let span = (slots::span(area, ws, h * width) as usize).min(pool.len() - from);
        if span != 0 && kept_at(own, h) {
            adjust_run(area, pool, Shift { from, to }, span, own);
            to += span;
        }
        from += span;
    }
    pool[to..].fill(N);
    to
}

// The mentions adjusted in place: of each the second word, a handle of the arena that the first names.
// By numbers: of parts written through `chunks_exact_mut` a proof knows the lengths alone.
pub fn adjust_mentions(mentions: &mut [u32], maps: &ModuleMap)
    ensures { mentions.new ≡ mentions_by (maps_in maps.now) mentions.old }
{
    for h in 0..mentions.len() / Mention::WIDTH {
        let at = h * Mention::WIDTH;
        let arena = slots::arena_at(mentions[at + Mention::AREA]);
        let place = at + Mention::HANDLE;
        mentions[place] = handles::word_after(arena, mentions[place], maps);
    }
}
