// dep of a module's types, by two levels: what the types before each block of 256 have, and one block.
// The scratch is 4 KiB for 65,536 types; what stands before a block past them is computed anew.
ghost use Rattle.std.specs.Prelude.{◌≡◌, ◌*◌, ◌≤◌, ◌<◌};
ghost use Rattle.arena.specs.Lent.{areas_in};
ghost use Rattle.tandem.specs.Deps.{dep_before, Starts, Block, Held};

use arena::{Module, TypeHandle};

// The levels of a module's types: the first of the first n types, the second of the block that is held, if any.
#[derive(Drop)]
pub struct Deps<'a> {
    m: &'a Module<'a>,
    n: u32,
    starts: [usize; 256],
    held: Option<u32>,
    block: [usize; 256],
    ghost first: { Starts (areas_in m.now) n starts },
    ghost second: { Held (areas_in m.now) held block },
}

// From what the types before `from` have, what those before `to` have.
#[tactic(auto, using(crate::proofs::Filling::deps))]
fn deepest(from: u32, to: u32, before: usize, m: &Module) -> usize
    requires { (from ≤ to) × (before ≡ dep_before (areas_in m.now) from) }
    ensures { result ≡ dep_before (areas_in m.now) to }
{
    let mut deep = before;
    for t in from..to {
        deep = deep.max(rules::sized(TypeHandle(t), m));
    }
    deep
}

impl<'a> Deps<'a> {
    // Neither level filled.
    pub fn new(m: &'a Module<'a>) -> Deps<'a>
        ensures { result.m ≡ m.entry }
    {
        Deps {
            m,
            n: 0,
            starts: [0; 256],
            held: None,
            block: [0; 256],
        }
    }

    // Fills the first level for n types. By numbers, as the second: a number names its type too.
    #[tactic(auto, using(crate::proofs::Filling::deps))]
    pub fn fill_starts(&mut self, n: u32)
        ensures { (self.new.m ≡ self.old.m) × (self.new.n ≡ n) }
    {
        // Of no type while it is filled: a ghost field holds at every step.
        self.n = 0;
        let mut deep = 0;
        for k in 0..n.div_ceil(256).min(256) {
            self.starts[k as usize] = deep;
            deep = deepest(k * 256, (k + 1) * 256, deep, self.m);
        }
        self.n = n;
    }

    // Fills the second level with block k of the n types.
    #[tactic(auto, using(crate::proofs::Filling::deps, std::proofs::lemmas::Grind::common_steps))]
    fn fill_block(&mut self, k: u32)
        requires { k * 256 < self.old.n }
        ensures { (self.new.m ≡ self.old.m) × (self.new.n ≡ self.old.n) × (self.new.held ≡ Some k) }
    {
        // No block while it is filled, likewise.
        self.held = None;
        let mut deep = if k < 256 {
            self.starts[k as usize]
        } else {
            deepest(0, k * 256, 0, self.m)
        };
        for j in 0..256 {
            deep = deep.max(rules::sized(TypeHandle(k * 256 + j), self.m));
            self.block[j as usize] = deep;
        }
        self.held = Some(k);
    }

    // One more than dep of the last of the first t of the n types, 0 where there is none.
    // The block that it lies in is filled unless it is held; the first level stays.
    #[tactic(auto, using(crate::proofs::Filling::deps))]
    pub fn dep_before(&mut self, t: u32) -> usize
        requires { t ≤ self.old.n }
        ensures { (result ≡ dep_before (areas_in self.old.m.now) t) × (self.new.m ≡ self.old.m) × (self.new.n ≡ self.old.n) }
    {
        if t == 0 {
            return 0;
        }
        let k = (t - 1) / 256;
        let other = self.held != Some(k);
        if other {
            self.fill_block(k);
        }
        self.block[((t - 1) % 256) as usize]
    }
}
