#![tactic(auto)]

// What several calls test of their numbers: the part count, k, a link against the links before it, whose neighbours stand in rows, and a set of parts.
ghost use Rattle.std.specs.Prelude.{◌≡◌, true, List, ◌≤◌, eqb};
ghost use Rattle.sets.specs.Lists.{any};
ghost use Rattle.sets.specs.Value.{width, num};
ghost use Rattle.percolation.specs.Links.{Link as PlainLink, link, inside, cliques};
ghost use Rattle.percolation.specs.Ranges.{good_count, narrow_count, good_k};
ghost use Rattle.percolation.specs.Steps.{good_parts, legal};
ghost use Rattle.checks.specs.Neighbours.{Neighbours};
ghost use Rattle.answers.specs.Model.{fault_number};
ghost use Rattle.checks.specs.Model.{as_link, link_number, with_neighbour, marked};

pub mod pairs;

use answers::Fault;
use sets::Set;

// A link: its lower part, its higher part and its weight. Part numbers are u16 in lent lists of links.
#[derive(Clone, Copy, Debug, PartialEq, Eq)]
pub struct Link<P = usize> {
    pub low: P,
    pub high: P,
    pub weight: u16,
}

impl From<Link<u16>> for Link {
    ghost from_gives = { λ l r. as_link r ≡ as_link l };

    fn from(link: Link<u16>) -> Link {
        Link {
            low: usize::from(link.low),
            high: usize::from(link.high),
            weight: link.weight,
        }
    }
}

// A part count is 1 to as many parts as a set can hold.
pub fn good_count(p: usize) -> bool
    ensures { result ≡ good_count p }
{
    1 <= p && p <= sets::most()
}

// The part count of version 1 of a sheet is 1 to 64.
// Not `good_count`: 64 is the sheet's version 1, not what a set can hold.
pub fn narrow_count(p: usize) -> bool
    ensures { result ≡ narrow_count p }
{
    1 <= p && p <= 64
}

// k is 2 to 6.
pub fn good_k(k: usize) -> bool
    ensures { result ≡ good_k k }
{
    2 <= k && k <= 6
}

// Part numbers below p, the lower first.
pub fn good_parts(p: usize, link: Link) -> bool
    ensures { result ≡ good_parts p (as_link link) }
{
    link.low < p && (link.high < p && link.low < link.high)
}

// The first of 6 to 9 that applies to a link, of any weight; `before` is the weight of the link before it, the largest weight where there is none.
// The weight before the first is 65,535 and no Option: so has it the state, which C holds. No `require` here: it is a bare fault, the place is the
// caller's. No `Link`: one has a weight of two bytes.
pub fn link_number(
    rows: &[u64],
    p: usize,
    low: usize,
    high: usize,
    weight: usize,
    before: usize,
) -> Result<(), Fault>
    ensures { fault_number result ≡ link_number p rows.now before (link low high weight) }
{
    let ends = Link {
        low,
        high,
        weight: 0,
    };
    if !good_parts(p, ends) {
        return Err(Fault::LinkParts);
    }
    if weight == 0 {
        return Err(Fault::NoWeight);
    }
    if before < weight {
        return Err(Fault::Rising);
    }
    if sets::has(sets::at(rows, low), high) {
        return Err(Fault::LinkAgain);
    }
    Ok(())
}

// The same of a link as a sheet or a step has it.
pub fn check_link(rows: &[u64], p: usize, link: Link, before: usize) -> Result<(), Fault>
    ensures { fault_number result ≡ link_number p rows.now before (as_link link) }
{
    link_number(
        rows,
        p,
        link.low,
        link.high,
        usize::from(link.weight),
        before,
    )
}

// b becomes a neighbour of a.
fn mark(rows: &mut [u64], a: usize, b: usize)
    ensures { rows.new ≡ with_neighbour rows.old a b }
{
    let near = sets::with(sets::at(rows, a), b);
    sets::put(rows, a, near);
}

// A link more: each end becomes a neighbour of the other.
pub fn add_link(rows: &mut [u64], link: Link)
    ensures { rows.new ≡ marked rows.old link.low link.high }
{
    mark(rows, link.low, link.high);
    mark(rows, link.high, link.low);
}

// Whether s is a k-clique of parts below p, by the rows of neighbours.
pub fn is_clique(rows: &[u64], p: usize, k: usize, s: Set) -> bool
    ensures { (L : List PlainLink) → Neighbours L rows.now → legal p L ≡ true → p ≤ width → result ≡ any (eqb (num s)) (cliques L p k) }
{
    if sets::count(s) != k {
        return false;
    }
    if !sets::subset(s, sets::upto(p)) {
        return false;
    }
    s.parts()
        .all(|q| sets::subset(sets::without(s, q), sets::at(rows, q)))
}

// Whether both ends of a link are parts of s.
pub fn has_both(s: Set, link: Link) -> bool
    ensures { result ≡ inside (num s) (as_link link) }
{
    sets::has(s, link.low) && sets::has(s, link.high)
}
