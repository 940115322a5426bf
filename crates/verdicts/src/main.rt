// Reads modules, one to a line, and writes the verdict on each: label, number, area, record.
//
// A line is a label and then the areas that have words, in order, each behind its letter: t types,
// c constants, o overrides, g globals, e expressions, m members, k components, q mentions. N is a word.
// * with a number stands for so many words more that repeat the word before them, + for so many that
// repeat the record before them. Behind r stand the lengths of the five maps, MAP_ROOM each without it. A
// line that starts with # is passed over. A text of TEXT bytes or more ends with `? does not fit`, with no verdict.
#![tactic(auto)]

ghost use Rattle.std.specs.Prelude.{◌≤◌, IfOk, length};

use arena::{AREAS, ARENAS, Mention, Module, ModuleMap, N};
use faults::Fault;
use std::io;

// The most words that a module of the input has: so many mentions, a few more than 4,097. With the maps and the text the buffers are
// under 64 KiB.
const WORDS: usize = 4104 * Mention::WIDTH;

// The most words of a map.
const MAP_ROOM: usize = 64;

// How many bytes of text.
const TEXT: usize = 24576;

// The letters of the areas, and of the maps.
const LETTERS: [u8; 9] = [b't', b'c', b'o', b'g', b'e', b'm', b'k', b'q', b'r'];

// How far a line was read for one area: the number so far, if there is one; whether it stands behind the area's letter; and how far
// back the words lie that it repeats, 0 where it is a word itself.
#[derive(Clone, Copy, Default)]
struct Reading {
    value: Option<u32>,
    here: bool,
    back: usize,
}

// How many words the number before a byte stands for, and that number.
fn ready(r: Reading, b: u8) -> (usize, u32) {
    match (r.value, b) {
        (None, _) | (_, b'N' | b'0'..=b'9') => (0, 0),
        (Some(n), _) if !r.here => (0, n),
        (Some(n), _) if r.back == 0 => (1, n),
        (Some(n), _) => (n as usize, n),
    }
}

// How far back the number behind a byte reaches.
fn reach(back: usize, b: u8, width: usize) -> usize {
    match b {
        b'*' => 1,
        b'+' => width,
        b' ' => back,
        _ => 0,
    }
}

// One byte further; a number past the last word is N.
fn step(r: Reading, b: u8, letter: u8, width: usize) -> Reading {
    match b {
        b'N' => Reading {
            value: Some(N),
            ..r
        },
        b'0'..=b'9' => {
            let tens = r.value.unwrap_or(0).saturating_mul(10);
            Reading {
                value: Some(tens.saturating_add(u32::from(b - b'0'))),
                ..r
            }
        }
        _ => {
            let here = match b {
                b'a'..=b'z' => b == letter,
                _ => r.here,
            };
            let back = match r.value {
                Some(_) => 0,
                None => r.back,
            };
            Reading {
                value: None,
                here,
                back: reach(back, b, width),
            }
        }
    }
}

// The words from a start to an end, as far as there are any.
fn part(words: &[u32], from: usize, to: usize) -> &[u32] {
    let end = to.min(words.len());
    &words[from.min(end)..end]
}

// A map of a length.
fn room(maps: &[u32], n: u32) -> &[u32] {
    part(maps, 0, n as usize)
}

// The word for a place: the one so far before it, or w.
fn source(words: &[u32], i: usize, back: usize, w: u32) -> u32 {
    if back == 0 || i < back {
        return w;
    }
    words.get(i - back).copied().unwrap_or(w)
}

// Puts n words from a start on, as far as there is room, and says where they end.
fn lay(words: &mut [u32], from: usize, n: usize, back: usize, w: u32) -> usize {
    let start = from.min(words.len());
    let end = start + n.min(words.len() - start);
    for i in start..end {
        words[i] = source(words, i, back, w);
    }
    end
}

// Puts the words of an area from a start on, and says where they end.
fn put(line: &[u8], area: usize, words: &mut [u32], from: usize) -> usize {
    let letter = LETTERS[area.min(AREAS as usize)];
    let width = arena::width(area);
    let mut r = Reading::default();
    let mut end = from;
    for b in line.iter().chain(b" ") {
        let (n, w) = ready(r, *b);
        end = lay(words, end, n, r.back, w);
        r = step(r, *b, letter, width);
    }
    end
}

// The verdict on the module of a line: its areas lie one after another.
fn judged(line: &[u8]) -> Result<(), Fault> {
    let mut words = [0u32; WORDS];
    let maps = [0u32; MAP_ROOM];
    let mut rooms = [MAP_ROOM as u32; ARENAS as usize];
    put(line, AREAS as usize, &mut rooms, 0);
    let mut ends = [0; AREAS as usize];
    let mut end = 0;
    for area in 0..AREAS as usize {
        end = put(line, area, &mut words, end);
        ends[area] = end;
    }
    let mut m: Module = [&words[..0]; AREAS as usize];
    let mut start = 0;
    for area in 0..AREAS as usize {
        m[area] = part(&words, start, ends[area]);
        start = ends[area];
    }
    let maps = ModuleMap {
        types: room(&maps, rooms[0]),
        constants: room(&maps, rooms[1]),
        overrides: room(&maps, rooms[2]),
        globals: room(&maps, rooms[3]),
        expressions: room(&maps, rooms[4]),
    };
    faults::check(&m, &maps)
}

// Writes the verdict on one line.
fn report(rt: &impl Print, line: &[u8]) -> io::Result<()> {
    if line.is_empty() || line.starts_with(b"#") {
        return Ok(());
    }
    let n = line.iter().position(|b| *b == b' ').unwrap_or(line.len());
    rt.write_all(&line[..n])?;
    let (number, area, record) = match judged(&line[n..]) {
        Ok(()) => (0, 0, 0),
        Err(f) => (f.number, f.area, f.record),
    };
    println!(rt; " {number} {area} {record}")
}

fn report_all(rt: &impl Print, text: &[u8]) -> io::Result<()> {
    for line in text.split(|b| *b == b'\n') {
        report(rt, line)?;
    }
    Ok(())
}

// Reads until the text is full or the input ends, and says how many bytes it put there.
// By hand: the library reads to an input's end on the heap alone.
fn read_full<R: io::Read>(input: &mut R, text: &mut [u8]) -> io::Result<usize>
    ensures { IfOk result (λ n. n ≤ length text.new) }
{
    let mut done = 0;
    while done < text.len() {
        let n = input.read(&mut text[done..])?;
        if n == 0 {
            break;
        }
        done += n;
    }
    Ok(done)
}

fn main(rt: HostRuntime) -> io::Result<()> {
    let mut text = [0u8; TEXT];
    let n = read_full(&mut rt.stdin(), &mut text)?;
    if n == TEXT {
        return rt.write_all(b"? does not fit\n");
    }
    report_all(&rt, &text[..n])
}
