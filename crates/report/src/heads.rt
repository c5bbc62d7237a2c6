// The first words of an answer with several lines.
use std::fmt;

// What is counted, in the singular and the plural.
// Not `Counted`: the plural of family has no plain s.
#[derive(Clone, Copy)]
pub struct Noun {
    one: &'static str,
    many: &'static str,
}

pub const FAMILY: Noun = Noun {
    one: "family",
    many: "families",
};

pub const LINE: Noun = Noun {
    one: "line",
    many: "lines",
};

// How many there are at k.
#[derive(Clone, Copy)]
pub struct Head(pub usize, pub Noun, pub usize);

impl fmt::Display for Head {
    fn fmt<W: fmt::Write>(&self, f: &mut fmt::Formatter<W>) -> fmt::Result {
        let Head(n, noun, k) = *self;
        let Noun { one, many } = noun;
        match n {
            0 => write!(f, "no {one} at k {k}"),
            1 => write!(f, "1 {one} at k {k}"),
            _ => write!(f, "{n} {many} at k {k}"),
        }
    }
}
