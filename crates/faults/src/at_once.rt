// Numbers 4 to 7 of a good module in one walk that reads each record once; where it fails, the numbers in turn say why.
ghost use Rattle.std.specs.Prelude.{◌≡◌, true, ◌&&◌, cond, ℕ, ◌-◌, ◌≤◌, ◌<◌, eqb, ltb};
ghost use Rattle.definitions.specs.Lists.{all};
ghost use Rattle.definitions.specs.Areas.{numbered};
ghost use Rattle.definitions.specs.Slots.{body};
ghost use Rattle.definitions.specs.Refusals.{accepted, every};
ghost use Rattle.slots.specs.Codes.{words_from, span_in, run_in};
ghost use Rattle.arena.specs.Lent.{areas_in};
ghost use Rattle.rules.specs.Rules.{good_by, leading};
ghost use Rattle.faults.specs.Checking.{limits_at, Passed, Used, in_turn, scan_area};

use crate::counted::Counted;
use crate::places;
use arena::{ARENAS, EXPRESSIONS, Mention, Module, Sizes, TYPES};
use rules::{Limits, Run};

// The limits of record i of an area; `before` types have dep below expression i.
#[tactic(auto, unfolding(crate::specs::Checking::limits_at))]
fn limits(area: u32, i: u32, before: u32, z: Sizes, run: Run) -> Limits
    ensures { result ≡ limits_at area i before z run }
{
    let all = Limits {
        types: z.types,
        constants: z.constants,
        overrides: z.overrides,
        expressions: z.expressions,
        run,
    };
    match area {
        TYPES => Limits { types: i, ..all },
        EXPRESSIONS => Limits {
            types: before,
            expressions: i,
            ..all
        },
        _ => all,
    }
}

// The types with dep below expression i, from those with dep below the one before it; only an expression needs them.
fn leads(area: u32, i: u32, before: u32, n: u32, m: &Module) -> u32
    ensures { result ≡ cond (eqb area 4) (leading (areas_in m.now) i before (n - before)) before }
{
    if area == EXPRESSIONS {
        return rules::prefix(before, n, i, m);
    }
    before
}

// Are the words of record i good within the limits, and its run below i ?
#[tactic(auto, unfolding(slots::specs::Codes::run_in, definitions::specs::Lists::all))]
fn record_passes(
    l: Limits,
    area: u32,
    i: u32,
    ws: &[u32],
    at: usize,
    pool: &[u32],
    m: &Module,
) -> bool
    requires { l.run.span ≡ span_in (numbered area) (words_from ws.now at) }
    ensures { result ≡ (every (good_by (areas_in m.now) l)
        (words_from ws.now at) 0 (body (numbered area) (words_from ws.now at))
        && all (λ w. ltb w i) (run_in (numbered area) (words_from ws.now at) pool.now)) }
{
    if !rules::record_good(l, area, ws, at, m) {
        return false;
    }
    if l.run.span == 0 {
        return true;
    }
    rules::all_below(slots::run(area, ws, at, pool), i)
}

// Do all records of an arena pass, and do their runs use up its pool ?
#[tactic(auto, using(crate::proofs::Reading::reading, crate::proofs::Carries::carries, crate::proofs::Carries::leads_next, rules::proofs::Steps::runs_none, rules::proofs::Laws::size_in_lem, crate::proofs::AtOnce::passed), unfolding(crate::specs::Checking::limits_at, crate::specs::Checking::carried_at))]
fn arena_passes(area: u32, m: &Counted) -> bool
    requires { area < 5 }
    ensures { result ≡ true → Passed (areas_in m.now.areas) area × Used (areas_in m.now.areas) (numbered area) }
{
    let ws = slots::arena_words(area, &m.areas);
    let pool = slots::arena_pool(area, &m.areas);
    let width = slots::arena_width(area);
    let room = pool.len();
    let mut sum = 0;
    let mut before = 0;
    for i in 0..m.size(area) {
        let at = i as usize * width;
        let span = slots::span(area, ws, at);
        before = leads(area, i, before, m.sizes.types, &m.areas);
        let l = limits(area, i, before, m.sizes, Run { sum, span, room });
        if !record_passes(l, area, i, ws, at, pool, &m.areas) {
            return false;
        }
        sum = places::run_sum(sum, span);
    }
    sum == room
}

// Do all mentions pass ?
#[tactic(auto, using(rules::proofs::Laws::size_in_lem), unfolding(crate::proofs::Opened::places))]
fn mentions_pass(m: &Counted) -> bool
    ensures { result ≡ true → Passed (areas_in m.now.areas) 7 }
{
    for i in 0..m.sizes.mentions {
        let area = Mention::area(&m.areas, i);
        if ARENAS <= area || m.size(area) <= Mention::handle(&m.areas, i) {
            return false;
        }
    }
    true
}

// Does the module pass ? Then no number from 4 to 7 has a fault.
// Not inlined: what the walk holds is off the stack again when the numbers in turn ask. Over slices of its own, which is
// faster; field by field, since a copy of the whole would call memcpy.
#[inline(never)]
pub fn passes(m: &Counted) -> bool
    ensures { result ≡ true → (n : ℕ) → 4 ≤ n → n < 8 → in_turn (scan_area (areas_in m.now.areas) n) 0 8 ≡ accepted }
{
    let own = Counted {
        areas: m.areas,
        sizes: m.sizes,
    };
    for area in 0..ARENAS {
        if !arena_passes(area, &own) {
            return false;
        }
    }
    mentions_pass(&own)
}
