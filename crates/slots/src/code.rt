// What a shape holds: a code of four bits for each word of a body, the first word's lowest; 0 for an unused word.
// Numbers, as a shape packs them; the enum for them is `Slot`.
use arena::{Expression, TAIL};

pub const BITS: usize = 4;

pub const BASE: u64 = 1 << BITS;

// The words of the longest body: all of an expression's before its tail.
pub const WORDS: usize = Expression::WIDTH - TAIL;

// Any word.
pub const FREE: u64 = 1;

// A handle of that arena.
pub const TYPE: u64 = 2;

pub const CONSTANT: u64 = 3;

pub const OVERRIDE: u64 = 4;

pub const EXPRESSION: u64 = 5;

// An expression's handle, or N.
pub const MAYBE: u64 = 6;

// A run of the arena's pool.
pub const START: u64 = 7;

pub const COUNT: u64 = 8;

// A flag, a kind or a form: a word below that number.
pub const BELOW_2: u64 = 9;

pub const BELOW_4: u64 = 10;

pub const BELOW_5: u64 = 11;

pub const BELOW_34: u64 = 12;
