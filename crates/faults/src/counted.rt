// A module that numbers 1 and 2 accept, with how many records it has.
ghost use Rattle.std.specs.Prelude.{◌≡◌};
ghost use Rattle.definitions.specs.Areas.{numbered};
ghost use Rattle.arena.specs.Lent.{areas_in};
ghost use Rattle.arena.specs.Sizes.{sizes_of, size_in};
ghost use Rattle.faults.specs.Measured.{Measured};

use arena::{Module, Sizes};

#[derive(Clone, Copy)]
pub struct Counted<'a> {
    pub areas: Module<'a>,
    pub sizes: Sizes,
    ghost measured: { Measured (areas_in areas) },
    ghost exact: { sizes ≡ sizes_of (areas_in areas) },
}

impl<'a> Counted<'a> {
    #[tactic(auto, using(crate::proofs::Arenas::sizes_fit), unfolding(arena::specs::Sizes::counted_in))]
    pub fn of(m: &Module<'a>) -> Counted<'a>
        requires { Measured (areas_in m.now) }
        ensures { result.areas ≡ m.now }
    {
        Counted {
            areas: *m,
            sizes: Sizes::of(m),
        }
    }

    // How many records the arena of an area has.
    pub fn size(&self, area: u32) -> u32
        ensures { result ≡ size_in self.now.sizes (numbered area) }
    {
        rules::size_in(self.sizes, slots::arena_at(area))
    }
}
