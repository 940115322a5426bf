// The shapes of records, and which of them a type or an expression has: word k's code stands at bit k * BITS.
ghost use Rattle.std.specs.Prelude.{◌≡◌};
ghost use Rattle.definitions.specs.Slots.{type_body, expr_body};
ghost use Rattle.slots.specs.Codes.{packed};

use crate::code;
use crate::code::BITS;
use arena::{Constant, Expression, Global, Override, Type};

// Where a type or an expression with a run has its start and its count.
pub const RUN_START: usize = Type::A;

pub const RUN_COUNT: usize = Type::B;

// Where an `ImageSample` and an `ImageQuery` have their form.
pub const LEVEL_FORM: usize = 6;

pub const QUERY_FORM: usize = 2;

pub const CONSTANT: u64 = code::BELOW_2 << Constant::NAMED * BITS
    | code::TYPE << Constant::TYPE * BITS
    | code::EXPRESSION << Constant::INIT * BITS;

pub const OVERRIDE: u64 = code::BELOW_2 << Override::NAMED * BITS
    | code::TYPE << Override::TYPE * BITS
    | code::MAYBE << Override::INIT * BITS;

pub const GLOBAL: u64 = code::TYPE << Global::TYPE * BITS | code::MAYBE << Global::INIT * BITS;

// A type's kind and flags, then a and b.
const LEAF: u64 = code::BELOW_4 << Type::KIND * BITS | code::BELOW_4 << Type::FLAGS * BITS;

const BASED: u64 = LEAF | code::TYPE << Type::A * BITS;

const SIZED: u64 = BASED | code::OVERRIDE << Type::B * BITS;

const OF_MEMBERS: u64 = LEAF | code::START << RUN_START * BITS | code::COUNT << RUN_COUNT * BITS;

// An expression's kind, then its slots.
const NO_SLOT: u64 = code::BELOW_34 << Expression::KIND * BITS;

const OF_CONSTANT: u64 = NO_SLOT | code::CONSTANT << BITS;

const OF_OVERRIDE: u64 = NO_SLOT | code::OVERRIDE << BITS;

const OF_TYPE: u64 = NO_SLOT | code::TYPE << BITS;

const COMPOSE: u64 = OF_TYPE | code::START << RUN_START * BITS | code::COUNT << RUN_COUNT * BITS;

const ONE: u64 = NO_SLOT | code::EXPRESSION << BITS;

const TWO: u64 = ONE | code::EXPRESSION << 2 * BITS;

const THREE: u64 = TWO | code::EXPRESSION << 3 * BITS;

const SAMPLE: u64 = THREE
    | code::MAYBE << 4 * BITS
    | code::MAYBE << 5 * BITS
    | code::BELOW_5 << LEVEL_FORM * BITS
    | code::MAYBE << 9 * BITS;

const SAMPLE_X: u64 = SAMPLE | code::EXPRESSION << 7 * BITS;

const SAMPLE_X_Y: u64 = SAMPLE_X | code::EXPRESSION << 8 * BITS;

const LOAD: u64 = TWO | code::MAYBE << 3 * BITS | code::MAYBE << 4 * BITS | code::MAYBE << 5 * BITS;

const QUERY: u64 = ONE | code::BELOW_4 << QUERY_FORM * BITS;

const QUERY_SIZE: u64 = QUERY | code::MAYBE << 3 * BITS;

const MATH: u64 = ONE | code::MAYBE << 2 * BITS | code::MAYBE << 3 * BITS | code::MAYBE << 4 * BITS;

const UNREAD: u64 = NO_SLOT
    | code::FREE << BITS
    | code::FREE << 2 * BITS
    | code::FREE << 3 * BITS
    | code::FREE << 4 * BITS
    | code::FREE << 5 * BITS
    | code::FREE << 6 * BITS
    | code::FREE << 7 * BITS
    | code::FREE << 8 * BITS
    | code::FREE << 9 * BITS;

// By an expression's kind and its level or query form. One expression: 10 to 12, 14, 18, 19, 22, 23, 25, 26 and 31.
#[tactic(auto, unfolding(crate::proofs::Tables::shapes))]
pub fn expression_shape(kind: u32, form: u32) -> u64
    ensures { result ≡ packed (expr_body kind form) }
{
    match kind {
        0..=4 | 34.. => NO_SLOT,
        5 => OF_CONSTANT,
        6 => OF_OVERRIDE,
        7 | 28..=30 => OF_TYPE,
        8 => COMPOSE,
        9 | 20 | 32 => TWO,
        13 | 27 => UNREAD,
        15 => sample_shape(form),
        16 => LOAD,
        17 => query_shape(form),
        21 | 33 => THREE,
        24 => MATH,
        _ => ONE,
    }
}

// `ImageSample`: x and y by the level form.
#[tactic(auto, unfolding(crate::proofs::Tables::shapes))]
fn sample_shape(form: u32) -> u64
    ensures { result ≡ packed (expr_body 15 form) }
{
    match form {
        2 | 3 => SAMPLE_X,
        4 => SAMPLE_X_Y,
        _ => SAMPLE,
    }
}

// `ImageQuery`: the level by the query form.
#[tactic(auto, unfolding(crate::proofs::Tables::shapes))]
fn query_shape(form: u32) -> u64
    ensures { result ≡ packed (expr_body 17 form) }
{
    match form {
        0 => QUERY_SIZE,
        _ => QUERY,
    }
}

// By a type's kind.
#[tactic(auto, unfolding(crate::proofs::Tables::shapes))]
pub fn type_shape(kind: u32) -> u64
    ensures { result ≡ packed (type_body kind) }
{
    match kind {
        1 => BASED,
        2 => SIZED,
        3 => OF_MEMBERS,
        _ => LEAF,
    }
}
