// How many records there are.
ghost use Rattle.std.specs.Prelude.{◌≡◌, min};
ghost use Rattle.definitions.specs.Areas.{N};
ghost use Rattle.arena.specs.Lent.{areas_in};
ghost use Rattle.arena.specs.Sizes.{counted_in};

use crate::{Constant, Expression, Global, Mention, Module, N, Override, Record, Type};

// How many records each arena has, and how many mentions there are.
#[derive(Clone, Copy)]
pub struct Sizes {
    pub types: u32,
    pub constants: u32,
    pub overrides: u32,
    pub globals: u32,
    pub expressions: u32,
    pub mentions: u32,
}

// A count as a word; N for any that is more.
fn counted(n: usize) -> u32
    ensures { result ≡ min n N }
{
    u32::try_from(n).unwrap_or(N)
}

impl Sizes {
    // Of any words; no count passes N.
    pub fn of(m: &Module) -> Sizes
        ensures { result ≡ counted_in (areas_in m.now) }
    {
        Sizes {
            types: counted(Type::count(m)),
            constants: counted(Constant::count(m)),
            overrides: counted(Override::count(m)),
            globals: counted(Global::count(m)),
            expressions: counted(Expression::count(m)),
            mentions: counted(Mention::count(m)),
        }
    }
}
