#![tactic(auto)]

// The journal of the steps: an entry for each link that remains, and the tables made again from the entries. For sister crates. The journal is lent by C, and
// how many links remain stands in the state beside it, which C holds too. Numbers are widened and narrowed by `as` where no From is: usize and u64, and the
// parts of an entry.
ghost use Rattle.std.specs.Prelude.{◌≡◌, [], ◌∷◌, map, suc, ◌-◌, ◌≤◌, ◌<◌, min, length, get_or, set, take};
ghost use Rattle.sets.specs.Value.{width, no_rows};
ghost use Rattle.checks.specs.Model.{as_link};
ghost use Rattle.checks.specs.Neighbours.{last_weight};
ghost use Rattle.slots.specs.Lent.{tables_of, SameLent};
ghost use Rattle.slots.specs.List.{slots_of, SameSlots};
ghost use Rattle.runs.specs.Model.{rows_with, took_links};
ghost use Rattle.journal.specs.Journal.{journal_length, whole, journal_entry};
ghost use Rattle.journal.specs.Model.{entry_link, readable, makes_none, refilled};

use checks::Link;
use sets::Rows;
use slots::{Lent, SlotList};

// The link of an entry. No From: neither type is of this crate.
pub fn link_of(e: u64) -> Link
    ensures { as_link result ≡ entry_link e }
{
    Link {
        low: (e / 4294967296) as usize,
        high: (e / 65536 % 65536) as usize,
        weight: (e % 65536) as u16,
    }
}

// Whether a journal has an entry for each possible link.
pub fn whole(journal: &[u64]) -> bool
    ensures { result ≡ whole journal.now }
{
    journal.len() == 2016
}

// The entry of a link. Check 6 shows what is required.
fn entry(link: Link) -> u64
    requires { (link.low < width) × (link.high < width) }
    ensures { result ≡ journal_entry (as_link link) }
{
    link.low as u64 * 4294967296 + link.high as u64 * 65536 + u64::from(link.weight)
}

// How many links remain with one more, and with one less, for any number of them: at most as many as the journal has entries.
fn one_more(links: usize) -> usize
    ensures { result ≡ min (suc links) journal_length }
{
    links.min(2015) + 1
}

pub fn one_less(links: usize) -> usize
    ensures { result ≡ min links journal_length - 1 }
{
    links.min(2016).saturating_sub(1)
}

// The journal with an entry written; past its end nothing is.
pub fn put(journal: &mut [u64], i: usize, e: u64)
    ensures { journal.new ≡ set journal.old i e }
{
    // An index: of a slice's get_mut a proof knows the length, and not what was written.
    if i < journal.len() {
        journal[i] = e;
    }
}

// A link behind the first n. Gives how many there are then. For sister crates: check 6 shows what is required of its parts.
pub fn add(journal: &mut [u64], n: usize, link: Link) -> usize
    requires { (link.low < width) × (link.high < width) }
    ensures { (journal.new ≡ set journal.old n (journal_entry (as_link link))) × (result ≡ min (suc n) journal_length) }
{
    put(journal, n, entry(link));
    one_more(n)
}

// The weight of the last link of these entries; 65,535 with none, as the state that C holds has it.
pub fn last_weight(entries: &[u64]) -> usize
    ensures { result ≡ last_weight (map entry_link entries.now) }
{
    let Some(last) = entries.last() else {
        return 65535;
    };
    usize::from(link_of(*last).weight)
}

// The entry at i, 0 past the end.
pub fn at(journal: &[u64], i: usize) -> u64
    ensures { result ≡ get_or journal.now i 0 }
{
    journal.get(i).copied().unwrap_or(0)
}

// The ends of an entry become neighbours of each other, where its parts are good.
fn mark(e: u64, p: usize, rows: &mut [u64])
    ensures { rows.new ≡ rows_with rows.old (readable p (e ∷ [])) }
{
    let link = link_of(e);
    if checks::good_parts(p, link) {
        checks::add_link(rows, link);
    }
}

// The rows of neighbours of the links of these entries.
pub fn rows_of(entries: &[u64], p: usize) -> Rows
    ensures { result ≡ rows_with no_rows (readable p entries.now) }
{
    let mut rows = sets::no_rows();
    for e in entries {
        mark(*e, p, &mut rows);
    }
    rows
}

// Whether the link of an entry makes no k-clique with the links of these rows.
fn makes_none(e: u64, rows: &[u64], k: usize) -> bool
    requires { 2 ≤ k }
    ensures { result ≡ makes_none rows.now k e }
{
    let link = link_of(e);
    let both = sets::meet(sets::at(rows, link.low), sets::at(rows, link.high));
    let none = sets::empty();
    let n = search::count(rows, false, k - 2, both, none);
    n == 0
}

// One entry more in the rows and the tables, none where its parts are not good.
fn retake(e: u64, p: usize, k: usize, rows: &mut [u64], slots: &mut SlotList)
    requires { (p ≤ width) × (2 ≤ k) }
    ensures same { SameSlots slots.old slots.new }
    ensures slots_after { slots_of slots.new ≡ took_links k rows.old (slots_of slots.old) (readable p (e ∷ [])) }
    ensures rows_after { rows.new ≡ rows_with rows.old (readable p (e ∷ [])) }
{
    let link = link_of(e);
    if checks::good_parts(p, link) {
        runs::take_link(rows, slots, k, link);
    }
}

// The links of these entries, one after the other.
fn replay(entries: &[u64], p: usize, k: usize, rows: &mut [u64], slots: &mut SlotList)
    requires { (p ≤ width) × (2 ≤ k) }
    ensures same { SameSlots slots.old slots.new }
    ensures slots_after { slots_of slots.new ≡ took_links k rows.old (slots_of slots.old) (readable p entries.now) }
{
    for next in entries {
        retake(*next, p, k, rows, slots);
    }
}

// The tables without the link of entry n, where the rows are those of the entries before it: as they are where it made no k-clique, else made again from
// these entries. Gives how many slots are used then. For sister crates: 20 shows what is required of n, 12 of p and k.
pub fn refill(
    journal: &[u64],
    n: usize,
    p: usize,
    k: usize,
    used: usize,
    rows: &[u64],
    tables: &mut Lent,
) -> usize
    requires { (n ≤ length journal.now) × (p ≤ width) × (2 ≤ k) }
    ensures lent { SameLent tables.old tables.new }
    ensures tables_after { tables_of tables.new result ≡ refilled p k rows.now (tables_of tables.old used) journal.now n }
{
    let e = at(journal, n);
    if makes_none(e, rows, k) {
        return used;
    }
    runs::clear(tables);
    let mut seen = sets::no_rows();
    let slots = &mut SlotList { tables, used: 0 };
    replay(&journal[..n], p, k, &mut seen, slots);
    slots.used
}
