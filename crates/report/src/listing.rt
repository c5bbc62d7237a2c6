// The families of a listing, of a sheet at a threshold or of the links so far.
use crate::heads::{FAMILY, Head};
use crate::names::Names;
use console::tell_full;
use sets::Set;
use std::{fmt, io};

// The families of a sheet at clique size k: each has 16 bytes, its smallest clique from byte 0 and its parts from byte 8.
#[derive(Clone, Copy)]
pub struct Listing<'a> {
    pub sheet: &'a [u8],
    pub k: usize,
    pub families: &'a [[u8; 16]],
}

impl<'a> Listing<'a> {
    // The first n families of an answer.
    pub fn new(sheet: &'a [u8], k: usize, out: &'a [u8], n: usize) -> Listing<'a> {
        let (families, _) = out.as_chunks::<16>();
        Listing {
            sheet,
            k,
            families: &families[..n.min(families.len())],
        }
    }

    pub fn head(&self) -> Head {
        Head(self.families.len(), FAMILY, self.k)
    }
}

// A line for each family; the parts of all of them. Where standard output takes no more that is told, and the parts are those of the lines before.
fn lines(rt: &impl Print, listing: Listing<'_>) -> Set {
    let mut seen = sets::empty();
    for (number, family) in (1..=listing.families.len()).zip(listing.families) {
        let union = sets::from_bytes(family, 8);
        if let Err(e) = println!(rt; "family {number}:{}", Names(listing.sheet, union)) {
            tell_full(e);
            return seen;
        }
        seen = sets::union(seen, union);
    }
    seen
}

// The parts of the sheet that are not among those seen.
pub fn others(rt: &impl Print, s: &[u8], seen: Set) -> io::Result<()> {
    let rest = sets::minus(sets::upto(sheet::part_count(s)), seen);
    if sets::is_empty(rest) {
        return Ok(());
    }
    println!(rt; "in no family:{}", Names(s, rest))
}

// The families by number and the parts in none. Behind their count the head says by what they were listed, if by anything.
pub fn families(
    rt: &impl Print,
    listing: Listing<'_>,
    by: impl fmt::Display + Drop,
) -> io::Result<()> {
    println!(rt; "{}{by}", listing.head())?;
    let seen = lines(rt, listing);
    others(rt, listing.sheet, seen)
}
