// How much the programs take: slots, and a network's names and links.

// Enough for every sheet at k 2 to 4: C(64, 3) is 41,664.
pub const SLOTS: usize = 65536;

// The names of 64 parts, and the pairs of 64 parts.
pub const NAMES: usize = 8 * 64;

pub const LINKS: usize = 2016;
