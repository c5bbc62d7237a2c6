// Tables of a program's own, and what became of them.
ghost use Rattle.std.specs.Prelude.{◌≡◌, true, take, replicate};
ghost use Rattle.trial.specs.Outputs.{Alike};

use slots::{Lent, View};
use std::fmt;

// Four tables of N slots.
#[derive(Clone, Copy)]
pub struct Tables<const N: usize> {
    pub sets: [u64; N],
    pub entries: [u32; N],
    pub smallest: [u64; N],
    pub unions: [u64; N],
}

// How many slots of each table a call is lent.
#[derive(Clone, Copy)]
pub struct Lengths {
    pub sets: usize,
    pub entries: usize,
    pub smallest: usize,
    pub unions: usize,
}

impl Lengths {
    // Three tables of so many slots, and the last one of its own length.
    pub fn with_last(slots: usize, last: usize) -> Lengths
        ensures { (result.sets ≡ slots) × (result.entries ≡ slots) × (result.smallest ≡ slots) × (result.unions ≡ last) }
    {
        Lengths {
            sets: slots,
            entries: slots,
            smallest: slots,
            unions: last,
        }
    }
}

impl<const N: usize> Tables<N> {
    // Every slot holds x.
    pub fn filled(x: u32) -> Tables<N>
        ensures { (result.sets ≡ replicate N x) × (result.entries ≡ replicate N x) × (result.smallest ≡ replicate N x) × (result.unions ≡ replicate N x) }
    {
        Tables {
            sets: [u64::from(x); N],
            entries: [x; N],
            smallest: [u64::from(x); N],
            unions: [u64::from(x); N],
        }
    }

    // The first slots of each, as many as are asked for and there are.
    pub fn lend(&mut self, lengths: Lengths) -> Lent<'_>
        ensures { (result.sets.now ≡ take lengths.sets self.old.sets) × (result.entries.now ≡ take lengths.entries self.old.entries)
            × (result.smallest.now ≡ take lengths.smallest self.old.smallest) × (result.unions.now ≡ take lengths.unions self.old.unions) }
    {
        Lent {
            sets: &mut self.sets[..lengths.sets.min(N)],
            entries: &mut self.entries[..lengths.entries.min(N)],
            smallest: &mut self.smallest[..lengths.smallest.min(N)],
            unions: &mut self.unions[..lengths.unions.min(N)],
        }
    }
}

// The slots of a table, as far as both go.
fn copy<T: Copy>(to: &mut [u64], table: &[T])
where
    u64: From<T>,
{
    for (slot, n) in to.iter_mut().zip(table) {
        *slot = u64::from(*n);
    }
}

// The first 1,000 slots of the four tables, one table behind the other; x for a slot that is not there.
pub fn copied(x: u64, tables: View) -> [u64; 4000] {
    let mut all = [x; 4000];
    let (low, high) = all.split_at_mut(2000);
    let (sets, entries) = low.split_at_mut(1000);
    let (smallest, unions) = high.split_at_mut(1000);
    copy(sets, tables.sets);
    copy(entries, tables.entries);
    copy(smallest, tables.smallest);
    copy(unions, tables.unions);
    all
}

// Whether two copies hold the same.
// A function for its clause: slot by slot alike.
pub fn same(a: &[u64; 4000], b: &[u64; 4000]) -> bool
    ensures { (result ≡ true → Alike a.now b.now 4000) × (Alike a.now b.now 4000 → result ≡ true) }
{
    a == b
}

// Whether each of the first 1,000 slots of a table holds x. On the table itself: a copy of all four would cost more than the call that is told of.
fn holds<T: Copy>(table: &[T], x: u64) -> bool
where
    u64: From<T>,
{
    table.iter().take(1000).all(|n| u64::from(*n) == x)
}

// Whether every slot holds x.
fn are_all(x: u64, tables: View) -> bool {
    holds(tables.sets, x)
        && holds(tables.entries, x)
        && holds(tables.smallest, x)
        && holds(tables.unions, x)
}

// What became of tables that held nothing but 9: the end of a row.
#[derive(Clone, Copy)]
pub struct Left<'a>(pub View<'a>);

impl fmt::Display for Left<'_> {
    fn fmt<W: fmt::Write>(&self, f: &mut fmt::Formatter<W>) -> fmt::Result {
        let tables = self.0;
        if are_all(0, tables) {
            f.write_str(", tables zero")
        } else if are_all(9, tables) {
            f.write_str(", tables as before")
        } else {
            f.write_str(", tables written")
        }
    }
}
