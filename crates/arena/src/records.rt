// The areas' records. Each kind carries its width, its limit, its words' places, its empty record and its readers.
#![tactic(auto, unfolding(definitions::specs::Areas::width, definitions::specs::Areas::words, definitions::specs::Areas::mention_word, definitions::specs::Areas::mention_count))]

ghost use Rattle.std.specs.Prelude.{◌≡◌, ℕ, ◌+◌, ◌<◌, min, get_or, replicate, refl};
ghost use Rattle.definitions.specs.Areas.{N, Arena, width, widths, limits, length_of};
ghost use Rattle.definitions.specs.Areas.{size, words, word, mention_count, mention_word};
ghost use Rattle.definitions.specs.Areas.{at};
ghost use Rattle.arena.specs.Lent.{areas_in};
ghost use Rattle.arena.specs.Elements.{element_of};

use crate::{
    AREAS, CONSTANTS, ConstantHandle, EXPRESSIONS, Element, ExpressionHandle, GLOBALS,
    GlobalHandle, MENTIONS, Module, OVERRIDES, OverrideHandle, TYPES, TypeHandle,
};

// "no handle"
pub const N: u32 = 4294967295;

// The words that end each arena's record, after those that its kind rules: the span's start and length, the tag.
pub const SPAN_START: usize = 0;

pub const SPAN_LENGTH: usize = 1;

pub const TAG: usize = 2;

// How many they are.
pub const TAIL: usize = 3;

// A pool's record is one handle.
const POOL_WIDTH: usize = 1;

// The most records of each area but the pools.
const RECORD_LIMIT: usize = 65536;

const POOL_LIMIT: usize = 262144;

// Areas 0 to 7.
const WIDTHS: [usize; AREAS as usize] = [
    Type::WIDTH,
    Constant::WIDTH,
    Override::WIDTH,
    Global::WIDTH,
    Expression::WIDTH,
    POOL_WIDTH,
    POOL_WIDTH,
    Mention::WIDTH,
];

const LIMITS: [usize; AREAS as usize] = [
    Type::LIMIT,
    Constant::LIMIT,
    Override::LIMIT,
    Global::LIMIT,
    Expression::LIMIT,
    POOL_LIMIT,
    POOL_LIMIT,
    Mention::LIMIT,
];

// The width of an area's records, by the area's number; 1 past the last.
pub fn width(area: usize) -> usize
    ensures { result ≡ get_or widths area 1 }
{
    WIDTHS.get(area).copied().unwrap_or(1)
}

// The most records that an area may have, by its number; 0 past the last.
pub fn limit(area: usize) -> usize
    ensures { result ≡ get_or limits area 0 }
{
    LIMITS.get(area).copied().unwrap_or(0)
}

// The length in words of an area, by its number; 0 past the last.
// By a test: of the slice that `get` finds in an array of slices the proof did not close.
pub fn length(m: &Module, area: usize) -> usize
    ensures { result ≡ length_of (areas_in m.now) area }
{
    if area < AREAS as usize {
        return m[area].len();
    }
    0
}

// The smaller of two.
pub fn least(a: usize, b: usize) -> usize
    ensures { result ≡ min a b }
{
    a.min(b)
}

// A sum of words, as far as a word goes.
pub fn capped(a: u32, b: u32) -> u32
    ensures { result ≡ min (a + b) N }
{
    a.saturating_add(b)
}

// Word i of an area; 0 past its end.
fn word(area: &[u32], i: usize) -> u32
    ensures { result ≡ get_or area.now i 0 }
{
    area.get(i).copied().unwrap_or(0)
}

// A kind of record that has handles: an arena's.
pub trait Record {
    type Handle;

    // Whose records they are.
    ghost arena: { Arena };

    // A handle's word, and a record's width, as clauses have them.
    ghost index: { Self.Handle → ℕ };

    ghost WIDTH: { ℕ };

    const WIDTH: usize;

    // The handle of a word.
    fn handle(word: u32) -> Self::Handle
        ensures { index result ≡ word };

    // The element of a handle.
    fn element(h: Self::Handle) -> Element
        ensures { element_of result ≡ at arena (index h) };

    // A handle's word.
    fn index(h: Self::Handle) -> u32
        ensures { result ≡ index h }
    {
        Self::element(h).word()
    }

    // The arena's words.
    fn words<'a>(m: &Module<'a>) -> &'a [u32]
        ensures { result.now ≡ words (areas_in m.now) arena };

    // How many there are.
    fn count(m: &Module) -> usize
        ensures { result ≡ size (areas_in m.now) arena }
    {
        Self::words(m).len() / Self::WIDTH
    }

    // The width is the definition's.
    ghost is_wide: { WIDTH ≡ width arena };
}

// Word k of record h.
fn record_word<R: Record>(m: &Module, h: R::Handle, k: usize) -> u32
    requires { k < 4294967296 }
    ensures { result ≡ word (areas_in m.now) R.arena (R.index h) k }
{
    word(R::words(m), R::index(h) as usize * R::WIDTH + k)
}

// A type: kind, flags, a, b, tail.
#[derive(Clone, Copy)]
pub struct Type;

impl Record for Type {
    type Handle = TypeHandle;

    ghost index = { λ h. h.0 };

    ghost arena = { Arena.types };

    ghost WIDTH = { width Arena.types };

    const WIDTH: usize = Type::WIDTH;

    ghost is_wide = { refl };

    fn words<'a>(m: &Module<'a>) -> &'a [u32] {
        m[TYPES as usize]
    }

    fn handle(word: u32) -> TypeHandle {
        TypeHandle(word)
    }

    fn element(h: TypeHandle) -> Element {
        Element::Type(h)
    }
}

impl Type {
    pub const WIDTH: usize = 4 + TAIL;

    pub const LIMIT: usize = RECORD_LIMIT;

    pub const KIND: usize = 0;

    pub const FLAGS: usize = 1;

    pub const A: usize = 2;

    pub const B: usize = 3;

    // Each kind has its own, the form that document 01 asks for.
    pub fn empty() -> [u32; Type::WIDTH]
        ensures { result ≡ replicate (width Arena.types) N }
    {
        [N; Type::WIDTH]
    }

    pub fn kind(m: &Module, h: TypeHandle) -> u32
        ensures { result ≡ word (areas_in m.now) Arena.types h.0 0 }
    {
        record_word::<Type>(m, h, Type::KIND)
    }

    pub fn flags(m: &Module, h: TypeHandle) -> u32
        ensures { result ≡ word (areas_in m.now) Arena.types h.0 1 }
    {
        record_word::<Type>(m, h, Type::FLAGS)
    }

    pub fn a(m: &Module, h: TypeHandle) -> u32
        ensures { result ≡ word (areas_in m.now) Arena.types h.0 2 }
    {
        record_word::<Type>(m, h, Type::A)
    }

    pub fn b(m: &Module, h: TypeHandle) -> u32
        ensures { result ≡ word (areas_in m.now) Arena.types h.0 3 }
    {
        record_word::<Type>(m, h, Type::B)
    }
}

// A constant: named, type, init, tail.
#[derive(Clone, Copy)]
pub struct Constant;

impl Record for Constant {
    type Handle = ConstantHandle;

    ghost index = { λ h. h.0 };

    ghost arena = { Arena.constants };

    ghost WIDTH = { width Arena.constants };

    const WIDTH: usize = Constant::WIDTH;

    ghost is_wide = { refl };

    fn words<'a>(m: &Module<'a>) -> &'a [u32] {
        m[CONSTANTS as usize]
    }

    fn handle(word: u32) -> ConstantHandle {
        ConstantHandle(word)
    }

    fn element(h: ConstantHandle) -> Element {
        Element::Constant(h)
    }
}

impl Constant {
    pub const WIDTH: usize = 3 + TAIL;

    pub const LIMIT: usize = RECORD_LIMIT;

    pub const NAMED: usize = 0;

    pub const TYPE: usize = 1;

    pub const INIT: usize = 2;

    pub fn empty() -> [u32; Constant::WIDTH]
        ensures { result ≡ replicate (width Arena.constants) N }
    {
        [N; Constant::WIDTH]
    }

    pub fn named(m: &Module, h: ConstantHandle) -> u32
        ensures { result ≡ word (areas_in m.now) Arena.constants h.0 0 }
    {
        record_word::<Constant>(m, h, Constant::NAMED)
    }

    // A line for each kind that has a type, and so for inits: a trait over the three is longer.
    pub fn ty(m: &Module, h: ConstantHandle) -> TypeHandle
        ensures { result.0 ≡ word (areas_in m.now) Arena.constants h.0 1 }
    {
        TypeHandle(record_word::<Constant>(m, h, Constant::TYPE))
    }

    pub fn init(m: &Module, h: ConstantHandle) -> ExpressionHandle
        ensures { result.0 ≡ word (areas_in m.now) Arena.constants h.0 2 }
    {
        ExpressionHandle(record_word::<Constant>(m, h, Constant::INIT))
    }
}

// An override: named, type, init or N, tail.
#[derive(Clone, Copy)]
pub struct Override;

impl Record for Override {
    type Handle = OverrideHandle;

    ghost index = { λ h. h.0 };

    ghost arena = { Arena.overrides };

    ghost WIDTH = { width Arena.overrides };

    const WIDTH: usize = Override::WIDTH;

    ghost is_wide = { refl };

    fn words<'a>(m: &Module<'a>) -> &'a [u32] {
        m[OVERRIDES as usize]
    }

    fn handle(word: u32) -> OverrideHandle {
        OverrideHandle(word)
    }

    fn element(h: OverrideHandle) -> Element {
        Element::Override(h)
    }
}

impl Override {
    pub const WIDTH: usize = 3 + TAIL;

    pub const LIMIT: usize = RECORD_LIMIT;

    pub const NAMED: usize = 0;

    pub const TYPE: usize = 1;

    pub const INIT: usize = 2;

    pub fn empty() -> [u32; Override::WIDTH]
        ensures { result ≡ replicate (width Arena.overrides) N }
    {
        [N; Override::WIDTH]
    }

    pub fn named(m: &Module, h: OverrideHandle) -> u32
        ensures { result ≡ word (areas_in m.now) Arena.overrides h.0 0 }
    {
        record_word::<Override>(m, h, Override::NAMED)
    }

    pub fn ty(m: &Module, h: OverrideHandle) -> TypeHandle
        ensures { result.0 ≡ word (areas_in m.now) Arena.overrides h.0 1 }
    {
        TypeHandle(record_word::<Override>(m, h, Override::TYPE))
    }

    pub fn init(m: &Module, h: OverrideHandle) -> ExpressionHandle
        ensures { result.0 ≡ word (areas_in m.now) Arena.overrides h.0 2 }
    {
        ExpressionHandle(record_word::<Override>(m, h, Override::INIT))
    }
}

// A global: type, init or N, tail.
#[derive(Clone, Copy)]
pub struct Global;

impl Record for Global {
    type Handle = GlobalHandle;

    ghost index = { λ h. h.0 };

    ghost arena = { Arena.globals };

    ghost WIDTH = { width Arena.globals };

    const WIDTH: usize = Global::WIDTH;

    ghost is_wide = { refl };

    fn words<'a>(m: &Module<'a>) -> &'a [u32] {
        m[GLOBALS as usize]
    }

    fn handle(word: u32) -> GlobalHandle {
        GlobalHandle(word)
    }

    fn element(h: GlobalHandle) -> Element {
        Element::Global(h)
    }
}

impl Global {
    pub const WIDTH: usize = 2 + TAIL;

    pub const LIMIT: usize = RECORD_LIMIT;

    pub const TYPE: usize = 0;

    pub const INIT: usize = 1;

    pub fn empty() -> [u32; Global::WIDTH]
        ensures { result ≡ replicate (width Arena.globals) N }
    {
        [N; Global::WIDTH]
    }

    pub fn ty(m: &Module, h: GlobalHandle) -> TypeHandle
        ensures { result.0 ≡ word (areas_in m.now) Arena.globals h.0 0 }
    {
        TypeHandle(record_word::<Global>(m, h, Global::TYPE))
    }

    pub fn init(m: &Module, h: GlobalHandle) -> ExpressionHandle
        ensures { result.0 ≡ word (areas_in m.now) Arena.globals h.0 1 }
    {
        ExpressionHandle(record_word::<Global>(m, h, Global::INIT))
    }
}

// An expression: kind, nine slots, tail.
#[derive(Clone, Copy)]
pub struct Expression;

impl Record for Expression {
    type Handle = ExpressionHandle;

    ghost index = { λ h. h.0 };

    ghost arena = { Arena.expressions };

    ghost WIDTH = { width Arena.expressions };

    const WIDTH: usize = Expression::WIDTH;

    ghost is_wide = { refl };

    fn words<'a>(m: &Module<'a>) -> &'a [u32] {
        m[EXPRESSIONS as usize]
    }

    fn handle(word: u32) -> ExpressionHandle {
        ExpressionHandle(word)
    }

    fn element(h: ExpressionHandle) -> Element {
        Element::Expression(h)
    }
}

impl Expression {
    pub const WIDTH: usize = 10 + TAIL;

    pub const LIMIT: usize = RECORD_LIMIT;

    pub const KIND: usize = 0;

    pub fn empty() -> [u32; Expression::WIDTH]
        ensures { result ≡ replicate (width Arena.expressions) N }
    {
        [N; Expression::WIDTH]
    }

    pub fn kind(m: &Module, h: ExpressionHandle) -> u32
        ensures { result ≡ word (areas_in m.now) Arena.expressions h.0 0 }
    {
        record_word::<Expression>(m, h, Expression::KIND)
    }

    // Slot k from 1 to 9 is word k.
    pub fn slot(m: &Module, h: ExpressionHandle, k: u32) -> u32
        ensures { result ≡ word (areas_in m.now) Arena.expressions h.0 k }
    {
        record_word::<Expression>(m, h, k as usize)
    }
}

// A mention: area 0 to 4, handle.
#[derive(Clone, Copy)]
pub struct Mention;

impl Mention {
    pub const WIDTH: usize = 2;

    pub const LIMIT: usize = RECORD_LIMIT;

    pub const AREA: usize = 0;

    pub const HANDLE: usize = 1;

    pub fn count(m: &Module) -> usize
        ensures { result ≡ mention_count (areas_in m.now) }
    {
        m[MENTIONS as usize].len() / Mention::WIDTH
    }

    pub fn area(m: &Module, h: u32) -> u32
        ensures { result ≡ mention_word (areas_in m.now) h 0 }
    {
        word(
            m[MENTIONS as usize],
            h as usize * Mention::WIDTH + Mention::AREA,
        )
    }

    pub fn handle(m: &Module, h: u32) -> u32
        ensures { result ≡ mention_word (areas_in m.now) h 1 }
    {
        word(
            m[MENTIONS as usize],
            h as usize * Mention::WIDTH + Mention::HANDLE,
        )
    }
}
