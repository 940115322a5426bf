// Reads cases from its input, compacts each, and writes a line for it: case, number, area, record, seven counts.
//
// The input is numbers with white space between them, `N` for 4294967295, and comments from `#` to the end of a line; `n*w` is w, n times.
// A case is its own number; 1 for `KeepUnused::Yes` or 0 for `No`; 1 to show every word after, or 0; for each of areas 0 to 7 how many words
// it has, and the words; for each of the five maps how many words it has, each of which is 7 before.
// A shown case has 13 lines more, one for each area and map: its name and its words, more than 64 equal ones in a row as `n*w`.
// At text of another form the program ends with `case 5: bad input`, at too many words with `case 5: does not fit`, neither with a line for
// the case; where no case has begun it is `? bad input` or `? does not fit`.
#![tactic(auto)]

ghost use Rattle.std.specs.Prelude.{◌≤◌, IfOk, length as size};

mod output;
mod text;

use arena::{Constant, Expression, Global, Mention, ModuleMapMut, ModuleMut, Override, Type};
use compact::{Counts, Fault, KeepUnused};
use output::{answer, show};
use std::io;
use text::{Reader, Stop};

// How many records there is room for in each area. With the maps, the text and what `compact` holds the buffers are under 64 KiB.
const ROOM: usize = 56;

// How many words there is room for in each map.
const MAP_ROOM: usize = 2 * ROOM;

// How many bytes of text.
const TEXT: usize = 8192;

// Reads the rest of a case, compacts it and writes what came of it. A case that stops is neither compacted nor written.
fn run(rt: &impl Print, case: u32, reader: &mut Reader) -> Result<io::Result<()>, Stop> {
    let keep_unused = KeepUnused::from(reader.flag()?);
    let shown = reader.flag()?;
    let mut types = [0; ROOM * Type::WIDTH];
    let types = reader.words(&mut types)?;
    let mut constants = [0; ROOM * Constant::WIDTH];
    let constants = reader.words(&mut constants)?;
    let mut overrides = [0; ROOM * Override::WIDTH];
    let overrides = reader.words(&mut overrides)?;
    let mut globals = [0; ROOM * Global::WIDTH];
    let globals = reader.words(&mut globals)?;
    let mut expressions = [0; ROOM * Expression::WIDTH];
    let expressions = reader.words(&mut expressions)?;
    let mut members = [0; ROOM];
    let members = reader.words(&mut members)?;
    let mut components = [0; ROOM];
    let components = reader.words(&mut components)?;
    let mut mentions = [0; ROOM * Mention::WIDTH];
    let mentions = reader.words(&mut mentions)?;
    let mut type_map = [7; MAP_ROOM];
    let type_map = reader.room(&mut type_map)?;
    let mut constant_map = [7; MAP_ROOM];
    let constant_map = reader.room(&mut constant_map)?;
    let mut override_map = [7; MAP_ROOM];
    let override_map = reader.room(&mut override_map)?;
    let mut global_map = [7; MAP_ROOM];
    let global_map = reader.room(&mut global_map)?;
    let mut expression_map = [7; MAP_ROOM];
    let expression_map = reader.room(&mut expression_map)?;
    let compacted = compact::compact(
        ModuleMut {
            types,
            constants,
            overrides,
            globals,
            expressions,
            members,
            components,
            mentions,
        },
        ModuleMapMut {
            types: type_map,
            constants: constant_map,
            overrides: override_map,
            globals: global_map,
            expressions: expression_map,
        },
        keep_unused,
    );
    Ok(report(
        rt,
        case,
        compacted,
        shown,
        &[
            &types[..],
            &constants[..],
            &overrides[..],
            &globals[..],
            &expressions[..],
            &members[..],
            &components[..],
            &mentions[..],
            &type_map[..],
            &constant_map[..],
            &override_map[..],
            &global_map[..],
            &expression_map[..],
        ],
    ))
}

// What a shown case's lines begin with. Apart from the slices: references in an array of pairs stand at several lifetimes.
const NAMES: [&str; 13] = [
    "types",
    "constants",
    "overrides",
    "globals",
    "expressions",
    "members",
    "components",
    "mentions",
    "type_map",
    "constant_map",
    "override_map",
    "global_map",
    "expression_map",
];

// Writes what came of a case, and its words if they are to be shown.
fn report(
    rt: &impl Print,
    case: u32,
    r: Result<Counts, Fault>,
    shown: bool,
    slices: &[&[u32]; 13],
) -> io::Result<()> {
    answer(rt, case, r)?;
    if shown {
        for (name, words) in NAMES.iter().zip(slices) {
            show(rt, name, words)?;
        }
    }
    Ok(())
}

// Runs the cases, each of which takes at least one byte.
fn run_all(rt: &impl Print, text: &[u8]) -> io::Result<()> {
    let mut reader = Reader::new(text);
    for _ in 0..text.len() {
        let case = match reader.case_number() {
            Ok(case) => case,
            Err(Stop::End) => break,
            Err(stop) => return println!(rt; "? {stop}"),
        };
        match run(rt, case, &mut reader) {
            Ok(written) => written?,
            Err(stop) => return println!(rt; "case {case}: {stop}"),
        }
    }
    Ok(())
}

// Reads until the text is full or the input ends, and says how many bytes it put there.
// By hand: the library reads to an input's end on the heap alone.
fn read_full<R: io::Read>(input: &mut R, text: &mut [u8]) -> io::Result<usize>
    ensures { IfOk result (λ n. n ≤ size text.new) }
{
    let mut done = 0;
    while done < text.len() {
        let n = input.read(&mut text[done..])?;
        if n == 0 {
            break;
        }
        done += n;
    }
    Ok(done)
}

fn main(rt: HostRuntime) -> io::Result<()> {
    let mut text = [0u8; TEXT];
    let n = read_full(&mut rt.stdin(), &mut text)?;
    if n == TEXT {
        return println!(rt; "? {}", Stop::Unfit);
    }
    run_all(&rt, &text[..n])
}
