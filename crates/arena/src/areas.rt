// The areas by their numbers: five arenas, two pools, the mentions.
// No enum: functions over them promise their answer for every number.
pub const TYPES: u32 = 0;

pub const CONSTANTS: u32 = 1;

pub const OVERRIDES: u32 = 2;

pub const GLOBALS: u32 = 3;

pub const EXPRESSIONS: u32 = 4;

pub const MEMBERS: u32 = 5;

pub const COMPONENTS: u32 = 6;

pub const MENTIONS: u32 = 7;

// How many arenas there are: an area below is one.
pub const ARENAS: u32 = 5;

pub const AREAS: u32 = 8;

// A module that is only read: its areas, by their numbers.
pub type Module<'a> = [&'a [u32]; AREAS as usize];

// The eight areas, lent for writing.
#[derive(Drop)]
pub struct ModuleMut<'a> {
    pub types: &'a mut [u32],
    pub constants: &'a mut [u32],
    pub overrides: &'a mut [u32],
    pub globals: &'a mut [u32],
    pub expressions: &'a mut [u32],
    pub members: &'a mut [u32],
    pub components: &'a mut [u32],
    pub mentions: &'a mut [u32],
}

// The five maps, lent for writing.
#[derive(Drop)]
pub struct ModuleMapMut<'a> {
    pub types: &'a mut [u32],
    pub constants: &'a mut [u32],
    pub overrides: &'a mut [u32],
    pub globals: &'a mut [u32],
    pub expressions: &'a mut [u32],
}

// The five maps, only read. As the Rust's `ModuleMap`.
#[derive(Clone, Copy)]
pub struct ModuleMap<'a> {
    pub types: &'a [u32],
    pub constants: &'a [u32],
    pub overrides: &'a [u32],
    pub globals: &'a [u32],
    pub expressions: &'a [u32],
}
