//! The statuses of the calls: those of the program, and two of their own.

/// Done.
pub const DONE: u32 = 0;

/// The parameters are those of no archive, or an array has not the length that they tell.
pub const USAGE: u32 = 2;

/// There was no memory.
pub const MEMORY: u32 = 3;

/// The properties have a fault.
pub const BAD_PROPERTIES: u32 = 8;

/// The archive has a fault.
pub const BAD_ARCHIVE: u32 = 9;

/// There is no such page.
pub const NO_PAGE: u32 = 10;

/// The weights have a fault.
pub const BAD_WEIGHTS: u32 = 12;

/// The bounds do not hold.
pub const BAD_BOUNDS: u32 = 16;

/// There is not enough room for what is written.
pub const NO_ROOM: u32 = 17;

/// A place is below the one before it.
pub const BAD_PLACES: u32 = 18;
