// Numbers 4 to 7: nested loops over areas and their places, left at the first fault.
// An area and a place go by numbers, as the rules and slots of every crate below take them.
ghost use Rattle.std.specs.Prelude.{◌≡◌, true, ◌⊎◌, ◌+◌, ◌≤◌, ◌<◌, min};
ghost use Rattle.definitions.specs.Areas.{numbered};
ghost use Rattle.definitions.specs.References.{run};
ghost use Rattle.definitions.specs.Order.{well_ordered};
ghost use Rattle.definitions.specs.Refusals.{runs_before, shaped_at, held_at};
ghost use Rattle.arena.specs.Lent.{areas_in};
ghost use Rattle.rules.specs.Rules.{leading};
ghost use Rattle.faults.specs.Checking.{by_places, verdict_of, bounds_at, most, looks_at, ok_at, places_in, places_at};
ghost use Rattle.faults.specs.Checking.{carried_at, carried_to, in_turn, scan_area};

use crate::Fault;
use crate::counted::Counted;
use arena::{
    AREAS, ARENAS, COMPONENTS, EXPRESSIONS, Expression, ExpressionHandle, MEMBERS, Mention, Module,
    TYPES,
};
use rules::{Bounds, Rule, Run};

// The expression kinds that are not at module scope.
const GLOBAL_VARIABLE: u32 = 13;

const CALL_RESULT: u32 = 27;

// What the number asks: the shape of kinds, forms and runs; kinds of module scope; handles that are there; good order.
#[derive(Clone, Copy, PartialEq, Eq)]
pub enum Number {
    Shaped,
    Scoped,
    Held,
    Ordered,
}

impl Number {
    fn number(self) -> u32
        ensures { result ≡ by_places self }
    {
        match self {
            Number::Shaped => 4,
            Number::Scoped => 5,
            Number::Held => 6,
            Number::Ordered => 7,
        }
    }
}

// Does the number look at the records of the arena ? Scoped at expressions alone, Ordered at types and expressions.
#[tactic(auto, unfolding(crate::specs::Checking::looks_at))]
fn looks_at(number: Number, area: u32) -> bool
    ensures { result ≡ looks_at (by_places number) area }
{
    match number {
        Number::Scoped => area == EXPRESSIONS,
        Number::Ordered => area == TYPES || area == EXPRESSIONS,
        Number::Shaped | Number::Held => true,
    }
}

// How many places an area has under a number: its records, a pool one; 0 where the number doesn't look.
#[tactic(auto, unfolding(crate::proofs::Opened::places))]
fn places(number: Number, area: u32, m: &Counted) -> u32
    ensures { result ≡ places_at (areas_in m.now.areas) (by_places number) area }
{
    match area {
        TYPES..=EXPRESSIONS => {
            if looks_at(number, area) {
                return m.size(area);
            }
            0
        }
        MEMBERS | COMPONENTS => u32::from(number == Number::Shaped),
        _ => match number {
            Number::Shaped | Number::Held => m.sizes.mentions,
            Number::Scoped | Number::Ordered => 0,
        },
    }
}

// What is carried from record to record: under Shaped the counts before it, under Ordered the types with dep below it.
// What a number does not carry is 0, as `carried_at` has it.
#[derive(Clone, Copy)]
pub struct Carried {
    pub sum: usize,
    pub types: u32,
}

// One more than any word.
const MOST: usize = 4294967296;

// The counts of the runs so far and one more, as far as a word can equal their sum.
pub fn run_sum(a: usize, b: u32) -> usize
    requires { a ≤ most }
    ensures { result ≡ min (a + b) most }
{
    (a + b as usize).min(MOST)
}

// What is carried to record i of an area from the record before it.
#[tactic(auto, using(crate::proofs::Reading::reading, crate::proofs::Carries::carries, rules::proofs::Steps::runs_none), unfolding(crate::specs::Checking::carried_at))]
fn carry(number: Number, area: u32, i: u32, before: Carried, m: &Counted) -> Carried
    requires { before ≡ carried_to (areas_in m.now.areas) (by_places number) area i }
    ensures { result ≡ carried_at (areas_in m.now.areas) (by_places number) area i }
{
    let nothing = Carried { sum: 0, types: 0 };
    match number {
        Number::Shaped => {
            if ARENAS <= area || i == 0 {
                return nothing;
            }
            let at = (i - 1) as usize * slots::arena_width(area);
            Carried {
                sum: run_sum(
                    before.sum,
                    slots::span(area, slots::arena_words(area, &m.areas), at),
                ),
                types: 0,
            }
        }
        Number::Ordered => {
            if area != EXPRESSIONS {
                return nothing;
            }
            Carried {
                sum: 0,
                types: rules::prefix(before.types, m.sizes.types, i, &m.areas),
            }
        }
        Number::Scoped | Number::Held => nothing,
    }
}

// Is record i of an arena shaped as its kind asks ?
#[tactic(auto, using(crate::proofs::Reading::reading, crate::proofs::Records::records))]
fn shaped_at(area: u32, i: u32, sum: usize, m: &Counted) -> bool
    requires { sum ≡ min (runs_before (areas_in m.now.areas) (numbered area) i) most }
    ensures { result ≡ shaped_at (areas_in m.now.areas) (numbered area) i }
{
    let ws = slots::arena_words(area, &m.areas);
    let run = Run {
        sum,
        span: slots::span(area, ws, i as usize * slots::arena_width(area)),
        room: slots::arena_pool(area, &m.areas).len(),
    };
    rules::record_keeps(Rule::Shaped(run), area, i, &m.areas)
}

// The run of record i of an arena.
#[tactic(auto, using(crate::proofs::Reading::reading))]
fn run_at<'a>(area: u32, i: u32, m: &Module<'a>) -> &'a [u32]
    ensures { result.now ≡ run (areas_in m.now) (numbered area) i }
{
    slots::run(
        area,
        slots::arena_words(area, m),
        i as usize * slots::arena_width(area),
        slots::arena_pool(area, m),
    )
}

// Are all handles of record i of an arena there ?
#[tactic(auto, using(crate::proofs::Records::records), unfolding(definitions::specs::Refusals::held_at))]
fn held_at(area: u32, i: u32, m: &Counted) -> bool
    ensures { result ≡ held_at (areas_in m.now.areas) (numbered area) i }
{
    if !rules::record_keeps(Rule::Held(m.sizes), area, i, &m.areas) {
        return false;
    }
    rules::all_below(run_at(area, i, &m.areas), m.size(area))
}

// Below which type and expression what a type or an expression refers to must lie.
// `before` types have dep below the expression.
#[tactic(auto, unfolding(crate::specs::Checking::bounds_at))]
fn bounds(area: u32, i: u32, before: u32, types: u32) -> Bounds
    ensures { result ≡ bounds_at area i before types }
{
    if area == TYPES {
        return Bounds {
            types: Some(i),
            expressions: None,
        };
    }
    Bounds {
        types: (before != types).then_some(before),
        expressions: Some(i),
    }
}

// Is type or expression i well ordered ?
#[tactic(auto, using(crate::proofs::Records::records), unfolding(crate::specs::Checking::bounds_at))]
fn ordered_at(area: u32, i: u32, before: u32, m: &Counted) -> bool
    requires { area ≡ 0 ⊎ ((area ≡ 4) × (before ≡ leading (areas_in m.now.areas) i 0 m.now.sizes.types)) }
    ensures { result ≡ well_ordered (areas_in m.now.areas) (numbered area) i }
{
    let b = bounds(area, i, before, m.sizes.types);
    if !rules::record_keeps(Rule::Ordered(b), area, i, &m.areas) {
        return false;
    }
    rules::all_below(run_at(area, i, &m.areas), i)
}

// Is record i of an arena good under a number ?
#[tactic(auto, unfolding(crate::proofs::Opened::places, crate::specs::Checking::carried_at))]
fn record_fine(number: Number, area: u32, i: u32, carried: Carried, m: &Counted) -> bool
    requires carried_value { carried ≡ carried_at (areas_in m.now.areas) (by_places number) area i }
    requires area_bound { (area < 5) × (looks_at (by_places number) area ≡ true) }
    ensures { result ≡ ok_at (areas_in m.now.areas) (by_places number) area i }
{
    match number {
        Number::Shaped => shaped_at(area, i, carried.sum, m),
        Number::Scoped => {
            let kind = Expression::kind(&m.areas, ExpressionHandle(i));
            kind != GLOBAL_VARIABLE && kind != CALL_RESULT
        }
        Number::Held => held_at(area, i, m),
        Number::Ordered => ordered_at(area, i, carried.types, m),
    }
}

// Is mention i good under a number ?
#[tactic(auto, using(rules::proofs::Laws::size_in_lem), unfolding(crate::proofs::Opened::places))]
fn mention_fine(number: Number, i: u32, m: &Counted) -> bool
    requires { (by_places number ≡ 4) ⊎ (by_places number ≡ 6) }
    ensures { result ≡ ok_at (areas_in m.now.areas) (by_places number) 7 i }
{
    let area = Mention::area(&m.areas, i);
    match number {
        Number::Shaped => area < ARENAS,
        _ => Mention::handle(&m.areas, i) < m.size(area),
    }
}

// Is a place good under a number ?
#[tactic(auto, unfolding(crate::proofs::Opened::places))]
fn fine(number: Number, area: u32, i: u32, carried: Carried, m: &Counted) -> bool
    requires carried_value { carried ≡ carried_at (areas_in m.now.areas) (by_places number) area i }
    requires area_bound { (area < 8) × (i < places_at (areas_in m.now.areas) (by_places number) area) }
    ensures { result ≡ ok_at (areas_in m.now.areas) (by_places number) area i }
{
    match area {
        TYPES..=EXPRESSIONS => record_fine(number, area, i, carried, m),
        MEMBERS => rules::pool_used(TYPES, m.sizes.types, &m.areas),
        COMPONENTS => rules::pool_used(EXPRESSIONS, m.sizes.expressions, &m.areas),
        _ => mention_fine(number, i, m),
    }
}

// The first place that is at fault under a number.
#[tactic(auto, using(crate::proofs::Scans::scans, crate::proofs::Carries::carries), unfolding(crate::specs::Checking::scan_area, definitions::specs::Refusals::first_of))]
pub fn first(number: Number, m: &Counted) -> Result<(), Fault>
    ensures { verdict_of result ≡ in_turn (scan_area (areas_in m.now.areas) (by_places number)) 0 8 }
{
    // Left by a label with the place as value, the form that document 01 asks for.
    let place = 'areas: {
        for area in 0..AREAS {
            let mut carried = Carried { sum: 0, types: 0 };
            for i in 0..places(number, area, m) {
                carried = carry(number, area, i, carried, m);
                if !fine(number, area, i, carried, m) {
                    break 'areas Some((area, i));
                }
            }
        }
        None
    };
    match place {
        Some((area, record)) => Err(Fault {
            number: number.number(),
            area,
            record,
        }),
        None => Ok(()),
    }
}
