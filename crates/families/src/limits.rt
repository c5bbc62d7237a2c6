// How much the program takes: bytes of a sheet, of a dump and of a text, and the space for its answers.
use report::{LINKS, NAMES, SLOTS};

// Any answer: a tree of n slots has at most 2 * (n / k) - 1 lines of 26 bytes, so for k 2 one line less than there are slots; a community has 16 bytes, and
// there are no more of them than slots.
pub const SPACE: usize = 26 * (SLOTS - 1);

// Input is read a byte further than it may be long, to see whether it is longer.
pub const LONGEST_SHEET: usize = 65536;

pub const SHEET_SPACE: usize = LONGEST_SHEET + 1;

// The longest dump that its own counts can claim: 255 parts and 65,535 rows.
pub const LONGEST_DUMP: usize = 8 + 8 * 255 + 8 * 65535;

pub const DUMP_SPACE: usize = LONGEST_DUMP + 1;

pub const LONGEST_TEXT: usize = 262144;

pub const TEXT_SPACE: usize = LONGEST_TEXT + 1;

// The sheet of 64 parts with all pairs linked.
pub const LARGEST_SHEET: usize = 8 + NAMES + 4 * LINKS;

// A page of so many rows of 73 bytes: enough at K 2 and 3, where a tree has at most 1,343 lines of 11 rows.
pub const ROWS: usize = 16384;

pub const PAGE_SPACE: usize = 73 * ROWS;
