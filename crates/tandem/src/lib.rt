// The sweep: types and expressions in tandem, youngest first. As the Rust's `ModuleTracer::type_expression_tandem`.
#![tactic(auto)]

mod deps;

ghost use Rattle.std.specs.Prelude.{◌≡◌, ◌+◌, ◌<◌, take, drop};
ghost use Rattle.arena.specs.Lent.{areas_in};
ghost use Rattle.trace.specs.Bits.{Swept};
ghost use Rattle.tandem.specs.Deps.{dep_before};
ghost use Rattle.tandem.specs.Visited.{ahead, OneVisit};

use arena::handle_set::Bases;
use arena::{ExpressionHandle, Module, TypeHandle};
use deps::Deps;

// How many types and how many expressions are left to visit: the oldest of each.
#[derive(Clone, Copy, Debug, PartialEq, Eq)]
pub struct Left {
    pub types: u32,
    pub expressions: u32,
}

// Makes the next visit, of the youngest expression where it is above dep of the youngest type; answers what is left.
#[tactic(auto, using(crate::proofs::Turns::turns))]
fn visit(marks: &mut [u64], b: Bases, rest: Left, dep: usize, m: &Module) -> Left
    requires { (dep ≡ dep_before (areas_in m.now) rest.types) × (0 < rest.types + rest.expressions) }
    ensures { OneVisit (areas_in m.now) b rest result marks.old marks.new }
{
    if dep < rest.expressions as usize {
        let e = rest.expressions - 1;
        trace::trace_expression(marks, b, ExpressionHandle(e), m);
        return Left {
            expressions: e,
            ..rest
        };
    }
    let t = rest.types - 1;
    trace::trace_type(marks, b, TypeHandle(t), m);
    Left { types: t, ..rest }
}

// Makes as many visits as the budget says, or all that are ahead if fewer, and answers what is left then.
// Not inlined: the scratch for dep is on the stack during the sweep alone. Over slices of its own, so that they need not be
// read again after each mark.
#[inline(never)]
pub fn type_expression_tandem(
    marks: &mut [u64],
    b: Bases,
    all: Left,
    budget: usize,
    m: &Module,
) -> Left
    ensures { (ahead (areas_in m.now) result ≡ drop budget (ahead (areas_in m.now) all))
        × Swept (areas_in m.now) b (take budget (ahead (areas_in m.now) all)) marks.old marks.new }
{
    let m = *m;
    let mut deps = Deps::new(&m);
    deps.fill_starts(all.types);
    let mut rest = all;
    for _ in 0..budget {
        if rest.types == 0 && rest.expressions == 0 {
            break;
        }
        let dep = deps.dep_before(rest.types);
        rest = visit(marks, b, rest, dep, &m);
    }
    rest
}
