// Numbers 1 to 3: the areas by their lengths.
ghost use Rattle.std.specs.Prelude.{◌≡◌, ◌<◌};
ghost use Rattle.definitions.specs.Refusals.{scan_areas};
ghost use Rattle.arena.specs.Lent.{areas_in};
ghost use Rattle.faults.specs.Checking.{area_ok, areas_at, by_lengths, verdict_of};

use crate::Fault;
use arena::{AREAS, ARENAS, Module};

// What the number asks: whole records; no more than the area's limit; a map with room.
#[derive(Clone, Copy)]
pub enum Number {
    Whole,
    Few,
    Mapped,
}

impl Number {
    fn number(self) -> u32
        ensures { result ≡ by_lengths self }
    {
        match self {
            Number::Whole => 1,
            Number::Few => 2,
            Number::Mapped => 3,
        }
    }
}

// How many areas the number looks at: only arenas have maps.
#[tactic(auto, unfolding(crate::specs::Checking::areas_at))]
fn areas_at(number: Number) -> usize
    ensures { result ≡ areas_at (by_lengths number) }
{
    match number {
        Number::Whole | Number::Few => AREAS as usize,
        Number::Mapped => ARENAS as usize,
    }
}

// Is the area good under the number ?
#[tactic(auto, unfolding(crate::specs::Checking::areas_at, crate::specs::Checking::area_ok, definitions::specs::Areas::records_of, definitions::specs::Areas::widths, definitions::specs::Areas::width))]
fn fine(number: Number, area: usize, maps: &[usize; ARENAS as usize], m: &Module) -> bool
    requires { area < areas_at (by_lengths number) }
    ensures { result ≡ area_ok (areas_in m.now) maps.now (by_lengths number) area }
{
    let length = arena::length(m, area);
    let width = arena::width(area);
    match number {
        Number::Whole => length % width == 0,
        Number::Few => length / width <= arena::limit(area),
        Number::Mapped => length / width <= maps[area],
    }
}

// The first area that is at fault under the number.
#[tactic(auto, using(crate::proofs::Scans::scans), unfolding(definitions::specs::Refusals::scan_areas, crate::specs::Checking::areas_at))]
pub fn first(number: Number, maps: &[usize; ARENAS as usize], m: &Module) -> Result<(), Fault>
    ensures { verdict_of result ≡ scan_areas (by_lengths number)
        (area_ok (areas_in m.now) maps.now (by_lengths number)) (areas_at (by_lengths number)) }
{
    for area in 0..areas_at(number) {
        if !fine(number, area, maps, m) {
            return Err(Fault {
                number: number.number(),
                area: area as u32,
                record: 0,
            });
        }
    }
    Ok(())
}
