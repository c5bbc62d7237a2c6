// Names of parts, as a sheet has them that was checked before: visible characters, then spaces.
use sets::Set;
use std::fmt;

// The name of part q without its spaces; none where the sheet has no such part.
pub fn name(s: &[u8], q: usize) -> &str {
    let eight = str::from_utf8(sheet::name_in(s, q)).unwrap_or("");
    eight.trim_end_matches(' ')
}

// The names of a set's parts, each after a space.
#[derive(Clone, Copy)]
pub struct Names<'a>(pub &'a [u8], pub Set);

impl fmt::Display for Names<'_> {
    fn fmt<W: fmt::Write>(&self, f: &mut fmt::Formatter<W>) -> fmt::Result {
        let Names(s, set) = *self;
        for q in set.parts() {
            let name = name(s, q);
            write!(f, " {name}")?;
        }
        Ok(())
    }
}

// The part with this name. No two have the same.
pub fn find(s: &[u8], word: &[u8]) -> Option<usize> {
    (0..sheet::part_count(s)).find(|q| name(s, *q).as_bytes() == word)
}
