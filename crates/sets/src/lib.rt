#![tactic(auto)]

// Sets of parts 0 to 63, held by value, and tables of them. The number of a set is `num` of specs/Value.antt; each contract gives the
// number of the answer by a function of specs/Sets.antt, and a table by the functions of specs/Value.antt.
ghost use Rattle.std.specs.Prelude.{◌≡◌, cond, ltb, leb, eqb, length, replicate, min, ◌+◌};
ghost use Rattle.sets.specs.Sets.{has, one, meet, union, minus, into, out, size, sub, before, lesser, lowest, lows, members, full};
ghost use Rattle.sets.specs.Value.{width, num, rows, row, store, sized, number_at, no_rows, set_length, with_set, set_at};
ghost use Rattle.sets.specs.Rest.{left_of, rest};

mod walk;

pub use walk::{Iter, WithRest};

// Its word is nobody else's to see: a wider set changes this crate alone.
#[derive(Clone, Copy, Debug, PartialEq, Eq, PartialOrd, Ord)]
pub struct Set {
    word: u64,
}

pub fn empty() -> Set
    ensures { num result ≡ 0 }
{
    Set { word: 0 }
}

// The set of q alone; the empty set where q is no part, 64 or more.
pub fn single(q: usize) -> Set
    ensures { num result ≡ cond (ltb q width) (one q) 0 }
{
    if q < 64 {
        let bit: u64 = 1 << q;
        Set { word: bit }
    } else {
        Set { word: 0 }
    }
}

// All parts below p; all that a set can hold where p is more.
pub fn upto(p: usize) -> Set
    ensures { num result ≡ full (min p width) }
{
    if p < 64 {
        let bit: u64 = 1 << p;
        let word: u64 = bit - 1;
        Set { word }
    } else {
        Set { word: !0 }
    }
}

// Whether q is a part of s.
pub fn has(s: Set, q: usize) -> bool
    ensures { result ≡ has q (num s) }
{
    q < 64 && (s.word >> q) & 1 == 1
}

pub fn union(s: Set, t: Set) -> Set
    ensures { num result ≡ union (num s) (num t) }
{
    Set {
        word: s.word | t.word,
    }
}

// The parts that both have.
pub fn meet(s: Set, t: Set) -> Set
    ensures { num result ≡ meet (num s) (num t) }
{
    Set {
        word: s.word & t.word,
    }
}

// The parts of s that t lacks.
pub fn minus(s: Set, t: Set) -> Set
    ensures { num result ≡ minus (num s) (num t) }
{
    Set {
        word: s.word & !t.word,
    }
}

// s and q; s alone where q is no part.
pub fn with(s: Set, q: usize) -> Set
    ensures { num result ≡ cond (ltb q width) (into q (num s)) (num s) }
{
    union(s, single(q))
}

// s less q.
pub fn without(s: Set, q: usize) -> Set
    ensures { num result ≡ out q (num s) }
{
    minus(s, single(q))
}

// How many parts s has.
pub fn count(s: Set) -> usize
    ensures { result ≡ size (num s) }
{
    // `as`, here and below: from u32 to usize there is no From.
    s.word.count_ones() as usize
}

// Whether each part of s is one of t.
pub fn subset(s: Set, t: Set) -> bool
    ensures { result ≡ sub (num s) (num t) }
{
    s.word & t.word == s.word
}

// Whether s comes before t: sets stand in the order of their numbers. Beside `<`: `before` is said here, docs/ARCHITECTURE.md and
// the edit of another order name it.
pub fn less(s: Set, t: Set) -> bool
    ensures { result ≡ before (num s) (num t) }
{
    s < t
}

// Beside `==`: docs/ARCHITECTURE.md names it.
pub fn same(s: Set, t: Set) -> bool
    ensures { result ≡ eqb (num s) (num t) }
{
    s == t
}

// The lesser of two sets. Beside `min` for the same reason.
pub fn lesser(s: Set, t: Set) -> Set
    ensures { num result ≡ lesser (num s) (num t) }
{
    s.min(t)
}

// The lowest part, and 64 for the empty set.
// 64 and no Option: this promise is named in docs/ARCHITECTURE.md and stays.
pub fn lowest(s: Set) -> usize
    ensures { result ≡ cond (eqb (num s) 0) width (lowest (num s)) }
{
    s.word.trailing_zeros() as usize
}

pub fn is_empty(s: Set) -> bool
    ensures { result ≡ eqb (num s) 0 }
{
    s.word == 0
}

// The k lowest parts of s, or all of them where s has no more.
pub fn lows(s: Set, k: usize) -> Set
    ensures { num result ≡ lows k (num s) }
{
    let mut taken = empty();
    for q in s.parts().take(k) {
        taken = with(taken, q);
    }
    taken
}

impl Set {
    // The parts, the lowest first.
    pub fn parts(self) -> Iter
        ensures left { left_of result ≡ num self }
        ensures gives { rest result ≡ members width (num self) }
    {
        Iter { set: self }
    }

    // The parts, each with the set of those behind it, the lowest first.
    pub fn parts_with_rest(self) -> WithRest
        ensures left { left_of result.parts ≡ num self }
        ensures gives { rest result.parts ≡ members width (num self) }
    {
        WithRest {
            parts: self.parts(),
        }
    }
}

// The set of one word, and the word of a set, for the C interface. A wider set will take more words.
pub fn from_word(word: u64) -> Set
    ensures { num result ≡ word }
{
    Set { word }
}

pub fn word(s: Set) -> u64
    ensures { result ≡ num s }
{
    s.word
}

// How many parts a set can hold. No const: that has no contract to say `width`.
pub fn most() -> usize
    ensures { result ≡ width }
{
    64
}

// A table with a row for each part.
pub type Rows = [u64; 64];

// Such a table, all its rows empty.
pub fn no_rows() -> Rows
    ensures { result ≡ no_rows }
{
    [0u64; 64]
}

// How many sets a table holds.
pub fn rows(table: &[u64]) -> usize
    ensures { result ≡ rows table.now }
{
    table.len()
}

// Whether a table holds n sets and no word more.
pub fn sized(table: &[u64], n: usize) -> bool
    ensures { result ≡ sized table.now n }
{
    table.len() == n
}

// The set at i of a table; the empty set past its end.
pub fn at(table: &[u64], i: usize) -> Set
    ensures { num result ≡ row table.now i }
{
    Set {
        word: table.get(i).copied().unwrap_or(0),
    }
}

// s at i of a table; past its end nothing changes.
// By an index: of a slice's get_mut a proof knows the length, and not what was written.
pub fn put(table: &mut [u64], i: usize, s: Set)
    ensures { table.new ≡ store table.old i (num s) }
{
    if i < table.len() {
        table[i] = s.word;
    }
}

// A number below 2 ^ 64 in a row that holds no set: what stands at i, and n put there. Past the table's end 0, and nothing changes.
pub fn number_at(table: &[u64], i: usize) -> u64
    ensures { result ≡ number_at table.now i }
{
    word(at(table, i))
}

pub fn put_number(table: &mut [u64], i: usize, n: u64)
    ensures { table.new ≡ store table.old i n }
{
    put(table, i, from_word(n))
}

// Every word of a table becomes zero: each of its sets is the empty set.
pub fn clear(table: &mut [u64])
    ensures { table.new ≡ replicate (length table.old) 0 }
{
    table.fill(0);
}

// How many bytes a set has.
pub fn byte_count() -> usize
    ensures { result ≡ set_length }
{
    8
}

// Whether n bytes have room for a set's from `at` on.
fn has_room(n: usize, at: usize) -> bool
    ensures { result ≡ leb (at + set_length) n }
{
    8 <= n.saturating_sub(at)
}

// The bytes of s from `at` on, high byte first; where they do not fit nothing changes.
pub fn put_bytes(out: &mut [u8], at: usize, s: Set)
    ensures { out.new ≡ with_set out.old at (num s) }
{
    if !has_room(out.len(), at) {
        return;
    }
    copying::copy(&s.word.to_be_bytes(), &mut out[at..at + 8]);
}

// The set whose bytes stand from `at` on; the empty set where there are too few.
pub fn from_bytes(src: &[u8], at: usize) -> Set
    ensures { num result ≡ set_at src.now at }
{
    if !has_room(src.len(), at) {
        return empty();
    }
    let mut bytes = [0u8; 8];
    copying::copy(&src[at..at + 8], &mut bytes);
    Set {
        word: u64::from_be_bytes(bytes),
    }
}
