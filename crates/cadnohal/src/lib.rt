// The C boundary: each function answers what the Rattle function of its name answers, as a plain C value.
// Any words may be handed in.
#![tactic(auto)]

ghost use Rattle.std.specs.Prelude.{◌≡◌};
ghost use Rattle.definitions.specs.Refusals.{check, reported};
ghost use Rattle.definitions.specs.Outcome.{lengths, outcome};
ghost use Rattle.definitions.specs.MapEntries.{lookup, adjust, range};
ghost use Rattle.definitions.specs.Areas.{areas_of};
ghost use Rattle.arena.specs.Lent.{Over, maps_of};
ghost use Rattle.compact.specs.Answer.{keep_of};
ghost use Rattle.cadnohal.specs.Boundary.{abi, keep_word, refused, counted};
ghost use Rattle.cadnohal.specs.Boundary.{answer_to, outcome_in, adjusted_in, ranged_in};

use arena::{ModuleMap, ModuleMapMut, ModuleMut, N};
use compact::{Counts, Fault, KeepUnused};

// `CADNOHAL_ABI` of the header.
pub const ABI: u32 = 2;

// `cadnohal_answer`: where a module was refused and why, or how many records of areas 0 to 6 were kept.
#[repr(C)]
#[derive(Clone, Copy, Default)]
pub struct Answer {
    pub number: u32,
    pub area: u32,
    pub record: u32,
    pub types: u32,
    pub constants: u32,
    pub overrides: u32,
    pub globals: u32,
    pub expressions: u32,
    pub members: u32,
    pub components: u32,
}

// `cadnohal_adjusted`: the new handle, or N with the number that says why there is none.
#[repr(C)]
#[derive(Clone, Copy)]
pub struct AdjustedAnswer {
    pub number: u32,
    pub handle: u32,
}

// `cadnohal_range`: the new range, or N..N with the number.
#[repr(C)]
#[derive(Clone, Copy)]
pub struct RangeAnswer {
    pub number: u32,
    pub start: u32,
    pub end: u32,
}

// The number of this boundary's form, for a host to hold against its header's.
#[unsafe(no_mangle)]
pub extern "C" fn cadnohal_abi() -> u32
    ensures { result ≡ abi }
{
    ABI
}

// A refusal, with counts 0.
impl From<Fault> for Answer {
    ghost from_gives = { λ f a. a ≡ refused f };

    fn from(f: Fault) -> Answer {
        Answer {
            number: f.number,
            area: f.area,
            record: f.record,
            ..Answer::default()
        }
    }
}

// An accepted module, with number and place 0.
impl From<Counts> for Answer {
    ghost from_gives = { λ n a. a ≡ counted n };

    fn from(n: Counts) -> Answer {
        Answer {
            types: n.types,
            constants: n.constants,
            overrides: n.overrides,
            globals: n.globals,
            expressions: n.expressions,
            members: n.members,
            components: n.components,
            ..Answer::default()
        }
    }
}

// `compact::compact`: the answer and every word of the thirteen slices are the outcome of document 01.
#[unsafe(no_mangle)]
pub extern "C" fn cadnohal_compact(
    types: &mut [u32],
    constants: &mut [u32],
    overrides: &mut [u32],
    globals: &mut [u32],
    expressions: &mut [u32],
    members: &mut [u32],
    components: &mut [u32],
    mentions: &mut [u32],
    type_map: &mut [u32],
    constant_map: &mut [u32],
    override_map: &mut [u32],
    global_map: &mut [u32],
    expression_map: &mut [u32],
    keep_unused: u32,
) -> Answer
    ensures { Over (λ s p s' p'. outcome_in result s' p' ≡ outcome s p (keep_word keep_unused))
        types constants overrides globals expressions members components mentions
        type_map constant_map override_map global_map expression_map }
{
    let r = compact::compact(
        ModuleMut {
            types,
            constants,
            overrides,
            globals,
            expressions,
            members,
            components,
            mentions,
        },
        ModuleMapMut {
            types: type_map,
            constants: constant_map,
            overrides: override_map,
            globals: global_map,
            expressions: expression_map,
        },
        // 0 is `KeepUnused::No`, any other word is Yes.
        KeepUnused::from(keep_unused != 0),
    );
    match r {
        Ok(n) => Answer::from(n),
        Err(f) => Answer::from(f),
    }
}

// `faults::check`: numbers 1 to 7, or 0 for a module that `cadnohal_compact` would accept. Nothing is written.
#[unsafe(no_mangle)]
pub extern "C" fn cadnohal_check<'a>(
    types: &'a [u32],
    constants: &'a [u32],
    overrides: &'a [u32],
    globals: &'a [u32],
    expressions: &'a [u32],
    members: &'a [u32],
    components: &'a [u32],
    mentions: &'a [u32],
    type_map: &'a [u32],
    constant_map: &'a [u32],
    override_map: &'a [u32],
    global_map: &'a [u32],
    expression_map: &'a [u32],
) -> Answer
    ensures { result ≡ answer_to (reported (check
        (areas_of types.now constants.now overrides.now globals.now expressions.now
        members.now components.now mentions.now)
        (lengths (maps_of type_map.now constant_map.now override_map.now global_map.now expression_map.now)))) }
{
    let m = [
        types,
        constants,
        overrides,
        globals,
        expressions,
        members,
        components,
        mentions,
    ];
    let maps = ModuleMap {
        types: type_map,
        constants: constant_map,
        overrides: override_map,
        globals: global_map,
        expressions: expression_map,
    };
    match faults::check(&m, &maps) {
        Ok(()) => Answer::default(),
        Err(f) => Answer::from(f),
    }
}

// `handle_map::lookup`: the new handle, or N.
#[unsafe(no_mangle)]
pub extern "C" fn cadnohal_lookup(map: &[u32], handle: u32) -> u32
    ensures { result ≡ lookup map.now handle }
{
    handle_map::lookup(map, handle)
}

// `handle_map::adjust`: the new handle, or 8 past the map's end and 9 where it was dropped.
#[unsafe(no_mangle)]
pub extern "C" fn cadnohal_adjust(map: &[u32], handle: u32) -> AdjustedAnswer
    ensures { adjusted_in result ≡ adjust map.now handle }
{
    match handle_map::adjust(map, handle) {
        Ok(h) => AdjustedAnswer {
            number: 0,
            handle: h,
        },
        Err(e) => AdjustedAnswer {
            number: e.number(),
            handle: N,
        },
    }
}

// `handle_map::adjust_range`: the range shrunk to its live handles, or 8.
#[unsafe(no_mangle)]
pub extern "C" fn cadnohal_adjust_range(map: &[u32], start: u32, end: u32) -> RangeAnswer
    ensures { ranged_in result ≡ range map.now start end }
{
    match handle_map::adjust_range(map, start, end) {
        Ok((a, b)) => RangeAnswer {
            number: 0,
            start: a,
            end: b,
        },
        Err(e) => RangeAnswer {
            number: e.number(),
            start: N,
            end: N,
        },
    }
}
