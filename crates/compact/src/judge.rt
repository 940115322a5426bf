// The first stage: the verdict and, where it accepts, the marks of what is kept. No area and no map is written.
ghost use Rattle.std.specs.Prelude.{◌≡◌, replicate};
ghost use Rattle.definitions.specs.Areas.{marks_words};
ghost use Rattle.arena.specs.Lent.{areas_in, maps_in};
ghost use Rattle.compact.specs.Stages.{Accepts, MarksKept, Judges};

use arena::handle_set::Bases;
use arena::{Module, ModuleMap, Sizes};
use faults::Fault;
use tandem::Left;

// Marks what the sweep keeps of an accepted module, and answers how many records there are.
fn mark(marks: &mut [u64], keep: bool, m: &Module) -> Sizes
    requires accepts { Accepts (areas_in m.now) }
    requires marks_value { marks.old ≡ replicate marks_words 0 }
    ensures { MarksKept (areas_in m.now) keep result marks.new }
{
    let z = Sizes::of(m);
    let b = Bases::of(z);
    trace::mark_roots(marks, b, keep, z, m);
    let all = Left {
        types: z.types,
        expressions: z.expressions,
    };
    tandem::type_expression_tandem(marks, b, all, z.types as usize + z.expressions as usize, m);
    z
}

// The verdict on a module and its maps: how many records an accepted one has, and the marks of what is kept.
pub fn judge(marks: &mut [u64], keep: bool, m: &Module, maps: &ModuleMap) -> Result<Sizes, Fault>
    requires { marks.old ≡ replicate marks_words 0 }
    ensures { Judges keep result (areas_in m.now) (maps_in maps.now) marks.new }
{
    faults::check(m, maps)?;
    Ok(mark(marks, keep, m))
}
