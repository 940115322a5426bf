// What the program writes.
use arena::N;
use compact::{Counts, Fault};
use std::io;

// How many equal words in a row are written one by one.
const APART: usize = 64;

// The line of a case.
pub fn answer(rt: &impl Print, case: u32, r: Result<Counts, Fault>) -> io::Result<()> {
    match r {
        Ok(n) => {
            print!(rt;
                "{case} 0 0 0 {} {} {} {} ",
                n.types, n.constants, n.overrides, n.globals
            )?;
            println!(rt; "{} {} {}", n.expressions, n.members, n.components)
        }
        Err(f) => println!(rt; "{case} {} {} {} 0 0 0 0 0 0 0", f.number, f.area, f.record),
    }
}

// The word; `N` where it is no handle.
fn put(rt: &impl Print, w: u32) -> io::Result<()> {
    if w == N {
        rt.write_all(b"N")
    } else {
        rt.print(w)
    }
}

// A line: the name, and the words.
pub fn show(rt: &impl Print, name: &str, words: &[u32]) -> io::Result<()> {
    rt.write_all(name.as_bytes())?;
    for run in words.chunk_by(|v, w| v == w) {
        let w = run[0];
        if run.len() > APART {
            print!(rt; " {}*", run.len())?;
            put(rt, w)?;
        } else {
            for &w in run {
                rt.write_all(b" ")?;
                put(rt, w)?;
            }
        }
    }
    rt.write_all(b"\n")
}
