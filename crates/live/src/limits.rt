// How much a dialogue takes.
use report::{NAMES, SLOTS};

// Lines.
pub const LINES: usize = 1000000;

// The longest line, and the space for it and the byte that ends it.
pub const LONGEST_LINE: usize = 1023;

pub const LINE_SPACE: usize = LONGEST_LINE + 1;

// The sheet of 64 parts with no link.
pub const PARTS_SPACE: usize = 8 + NAMES;

// A family has 16 bytes, and k slots, two or more, that no other has.
pub const LISTING_SPACE: usize = 8 * SLOTS;
