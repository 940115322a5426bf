// Refusals 1 to 7: one verdict over eight areas and five maps, which are only read.
#![tactic(auto)]

mod areas;
mod at_once;
mod counted;
mod places;

ghost use Rattle.std.specs.Prelude.{◌≡◌};
ghost use Rattle.definitions.specs.Refusals.{check, reported};
ghost use Rattle.definitions.specs.Outcome.{lengths};
ghost use Rattle.arena.specs.Lent.{areas_in, maps_in};
ghost use Rattle.faults.specs.Checking.{report_of};

use arena::{ARENAS, Module, ModuleMap};
use counted::Counted;

// Where a module breaks which rule, by document 01's numbers.
#[derive(Clone, Copy, Debug, PartialEq, Eq)]
pub struct Fault {
    pub number: u32,
    pub area: u32,
    pub record: u32,
}

// The verdict on a module and the lengths of its maps: the numbers in turn, the first fault wins.
// A good module is told by one walk over it.
#[tactic(auto, using(crate::proofs::Numbers::judged), unfolding(crate::proofs::Numbers::checks))]
fn judge(maps: &[usize; ARENAS as usize], m: &Module) -> Result<(), Fault>
    ensures { report_of result ≡ reported (check (areas_in m.now) maps.now) }
{
    areas::first(areas::Number::Whole, maps, m)?;
    areas::first(areas::Number::Few, maps, m)?;
    areas::first(areas::Number::Mapped, maps, m)?;
    let m = Counted::of(m);
    if at_once::passes(&m) {
        return Ok(());
    }
    places::first(places::Number::Shaped, &m)?;
    places::first(places::Number::Scoped, &m)?;
    places::first(places::Number::Held, &m)?;
    places::first(places::Number::Ordered, &m)
}

// The verdict on eight areas and five maps of any words.
#[tactic(auto, unfolding(definitions::specs::Outcome::lengths))]
pub fn check(m: &Module, maps: &ModuleMap) -> Result<(), Fault>
    ensures { report_of result ≡ reported (check (areas_in m.now) (lengths (maps_in maps.now))) }
{
    let lengths = [
        maps.types.len(),
        maps.constants.len(),
        maps.overrides.len(),
        maps.globals.len(),
        maps.expressions.len(),
    ];
    judge(&lengths, m)
}
