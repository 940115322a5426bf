// Document 01, case 7, run: the ranges of the map N 0 N 1 2, then lookups and adjusts of it, all through the reader.
// A line for each: what is asked, the number (a lookup has none), and the answer.
#![tactic(auto)]

use std::io;

const N: u32 = 4294967295;

// "0..1 gives 0..0; 0..2 gives 0..1; 1..4 gives 0..2; 2..5 gives 1..3; 5..5 gives 0..0; 0..6 and 3..2 are refused with 8".
const RANGES: [(u32, u32); 7] = [(0, 1), (0, 2), (1, 4), (2, 5), (5, 5), (0, 6), (3, 2)];

// Live, dropped, live, past the end, no handle.
const HANDLES: [u32; 5] = [1, 2, 4, 5, N];

fn range(rt: &impl Print, map: &[u32], start: u32, end: u32) -> io::Result<()> {
    let (number, first, past) = match handle_map::adjust_range_in(map, start, end) {
        Ok((first, past)) => (0, first, past),
        Err(e) => (e.number(), N, N),
    };
    println!(rt; "{start} {end} {number} {first} {past}")
}

fn lookup(rt: &impl Print, map: &[u32], handle: u32) -> io::Result<()> {
    let new = handle_map::get_in(map, handle);
    println!(rt; "{handle} {new}")
}

fn adjust(rt: &impl Print, map: &[u32], handle: u32) -> io::Result<()> {
    let (number, new) = match handle_map::adjust_in(map, handle) {
        Ok(new) => (0, new),
        Err(e) => (e.number(), N),
    };
    println!(rt; "{handle} {number} {new}")
}

fn main(rt: HostRuntime) -> io::Result<()> {
    let map = [N, 0, N, 1, 2];
    for (start, end) in RANGES {
        range(&rt, &map, start, end)?;
    }
    for handle in HANDLES {
        lookup(&rt, &map, handle)?;
    }
    for handle in HANDLES {
        adjust(&rt, &map, handle)?;
    }
    Ok(())
}
