// The handle map: made from a set, and the map entries of document 01 over any map, on a plain slice and through a
// reader that holds the map it was lent.
#![tactic(auto)]

ghost use Rattle.std.specs.Prelude.{◌≡◌, cond, min, length, eqb, reverse, Ok};
ghost use Rattle.std.specs.List.{find};
ghost use Rattle.definitions.specs.Areas.{N};
ghost use Rattle.definitions.specs.Numbering.{rank};
ghost use Rattle.definitions.specs.MapEntries.{lookup, adjust, live, spanned, range};
ghost use Rattle.handle_map.specs.Answers.{number_of, adjusted_of, ranged_of, is_live};
ghost use Rattle.handle_map.specs.FromSet.{in_set, mapped};

use arena::{N, handle_set};

// Why there is no new handle.
#[derive(Clone, Copy, Debug, PartialEq, Eq)]
pub enum NoHandle {
    PastEnd,
    Dropped,
}

impl NoHandle {
    // Document 01's number.
    pub fn number(self) -> u32
        ensures { result ≡ number_of self }
    {
        match self {
            NoHandle::PastEnd => 8,
            NoHandle::Dropped => 9,
        }
    }
}

// The map's word of a record: N where it is dropped, else the next handle.
// It compiles to a choice of two values, with no branch.
fn chosen(one: u32, next: u32) -> u32
    ensures { result ≡ cond (eqb one 0) N next }
{
    if one == 0 { N } else { next }
}

// As the Rust's `HandleMap::from_set`: the map of an arena's n records from their marks, whose bits begin at the base:
// the new handle, or N, at each old record.
// Words past the records stay; a map shorter than the records is filled. Answers how many are kept.
pub fn from_set(marks: &[u64], base: u32, n: u32, map: &mut [u32]) -> u32
    ensures { (result ≡ rank (in_set marks.now base) (min n (length map.old)))
        × (map.new ≡ mapped (in_set marks.now base) (min n (length map.old)) map.old) }
{
    let mut next: u32 = 0;
    let n = map.len().min(n as usize);
    for (h, word) in map[..n].iter_mut().enumerate() {
        let one = handle_set::bit_at(marks, base as usize + h);
        *word = chosen(one, next);
        next += one;
    }
    next
}

// As the Rust's `HandleMap::get`: the new handle, or N where it was dropped or is past the end.
#[tactic(auto, unfolding(definitions::specs::MapEntries::lookup))]
pub fn lookup(map: &[u32], handle: u32) -> u32
    ensures { result ≡ lookup map.now handle }
{
    map.get(handle as usize).copied().unwrap_or(N)
}

// As `HandleMap::adjust`, which panics where this gives no handle.
#[tactic(auto, unfolding(definitions::specs::MapEntries::lookup, definitions::specs::MapEntries::adjust))]
pub fn adjust(map: &[u32], handle: u32) -> Result<u32, NoHandle>
    ensures { adjusted_of result ≡ adjust map.now handle }
{
    match map.get(handle as usize) {
        None => Err(NoHandle::PastEnd),
        Some(&N) => Err(NoHandle::Dropped),
        Some(&new) => Ok(new),
    }
}

// The first live word, and below the last: a line each, from either end.
fn first_live(words: &[u32]) -> Option<u32>
    ensures { result ≡ find is_live words.now }
{
    words.iter().copied().find(|&w| w != N)
}

// The last live word.
fn last_live(words: &[u32]) -> Option<u32>
    ensures { result ≡ find is_live (reverse words.now) }
{
    words.iter().rev().copied().find(|&w| w != N)
}

// From the first live word to the last one plus 1. A live word is below N, so the sum fits.
#[tactic(auto, using(crate::proofs::Live::spans))]
fn span(words: &[u32]) -> (u32, u32)
    ensures { ranged_of (Ok result) ≡ spanned (live words.now) }
{
    // Where none is live, one reading tells it.
    let Some(first) = first_live(words) else {
        return (0, 0);
    };
    match last_live(words) {
        Some(last) => (first, last + 1),
        None => (0, 0),
    }
}

// As `HandleMap::adjust_range`: a range shrunk to its live handles. Nothing is tested against the compacted arena.
#[tactic(auto, unfolding(definitions::specs::MapEntries::range))]
pub fn adjust_range(map: &[u32], start: u32, end: u32) -> Result<(u32, u32), NoHandle>
    ensures { ranged_of result ≡ range map.now start end }
{
    let words = map
        .get(start as usize..end as usize)
        .ok_or(NoHandle::PastEnd)?;
    Ok(span(words))
}

// Document 01's "map reader that holds the map it was lent": each method calls the function on its slice.
#[derive(Clone, Copy)]
pub struct HandleMap<'a> {
    pub map: &'a [u32],
}

impl<'a> HandleMap<'a> {
    pub fn get(self, handle: u32) -> u32
        ensures { result ≡ lookup self.entry.map.now handle }
    {
        lookup(self.map, handle)
    }

    pub fn adjust(self, handle: u32) -> Result<u32, NoHandle>
        ensures { adjusted_of result ≡ adjust self.entry.map.now handle }
    {
        adjust(self.map, handle)
    }

    pub fn adjust_range(self, start: u32, end: u32) -> Result<(u32, u32), NoHandle>
        ensures { ranged_of result ≡ range self.entry.map.now start end }
    {
        adjust_range(self.map, start, end)
    }
}

// The reader's methods for a caller that has a slice and holds no reader; docs/REVIEW.md names all three forms.
pub fn get_in(words: &[u32], handle: u32) -> u32
    ensures { result ≡ lookup words.now handle }
{
    HandleMap { map: words }.get(handle)
}

pub fn adjust_in(words: &[u32], handle: u32) -> Result<u32, NoHandle>
    ensures { adjusted_of result ≡ adjust words.now handle }
{
    HandleMap { map: words }.adjust(handle)
}

pub fn adjust_range_in(words: &[u32], start: u32, end: u32) -> Result<(u32, u32), NoHandle>
    ensures { ranged_of result ≡ range words.now start end }
{
    HandleMap { map: words }.adjust_range(start, end)
}
