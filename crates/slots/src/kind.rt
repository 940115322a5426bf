// Kinds that are asked about by name: of a type, then of an expression.

// An array whose size an override gives.
pub const SIZED_ARRAY: u32 = 2;

pub const STRUCT: u32 = 3;

pub const COMPOSE: u32 = 8;

pub const IMAGE_SAMPLE: u32 = 15;

pub const IMAGE_QUERY: u32 = 17;
