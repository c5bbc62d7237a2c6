#![tactic(auto)]

// The classes of sets that share k - 1 parts or more, by the frontier method, in place in a lent table: it stands in the order done, frontier, not
// yet visited.
ghost use Rattle.std.specs.Prelude.{◌≡◌, ◌-◌, ◌≤◌, ◌<◌};
ghost use Rattle.sets.specs.Value.{num};
ghost use Rattle.overlaps.specs.Model.{swapped, swept, swept_from, grown, class_at, classed, classed_all};

use sets::Set;

// A class in the table: where it ends, its smallest clique and its union.
#[derive(Clone, Copy, Debug)]
pub struct Class {
    pub end: usize,
    small: Set,
    whole: Set,
}

// Rows i and j change places.
pub fn swap(table: &mut [u64], i: usize, j: usize)
    ensures { table.new ≡ swapped table.old i j }
{
    let s = sets::at(table, i);
    let t = sets::at(table, j);
    sets::put(table, i, t);
    sets::put(table, j, s);
}

// Compares s with the rows from end on and below n: each that shares k - 1 parts or more with it moves up to the end of the frontier. Gives
// where the frontier ends then.
fn sweep(table: &mut [u64], k: usize, s: Set, end: usize, n: usize) -> usize
    requires { end ≤ n }
    ensures result_after { swept table.new result ≡ swept_from (n - end) k (num s) table.old end end }
    ensures lower_bound { (end ≤ result) × (result ≤ n) }
{
    let mut e = end;
    // By index: rows of one table change places.
    for j in end..n {
        if k <= sets::count(sets::meet(s, sets::at(table, j))) + 1 {
            swap(table, e, j);
            e += 1;
        }
    }
    e
}

// The class of row i, where the rows before it are done: its rows stand from i on. For sister crates: that i is one of the n is theirs to show.
pub fn class_at(table: &mut [u64], k: usize, n: usize, i: usize) -> Class
    requires { i < n }
    ensures whole_after { grown table.new result.end (num result.small) (num result.whole) ≡ class_at k n table.old i }
    ensures i_lt_end { (i < result.end) × (result.end ≤ n) }
{
    let mut e = i + 1;
    let mut f = i;
    let first = sets::at(table, i);
    let mut small = sets::lows(first, k);
    let mut whole = first;
    // The frontier's end moves while its rows are taken.
    while f < e {
        let s = sets::at(table, f);
        small = small.min(sets::lows(s, k));
        whole = sets::union(whole, s);
        e = sweep(table, k, s, e, n);
        f += 1;
    }
    Class {
        end: e,
        small,
        whole,
    }
}

// All classes of the first n sets: smallest clique and union of class number c stand in row c. Gives their number. Past
// the end of a table a row is empty and nothing is written, so that nothing is required. Joining entries take no part: the other three tables come alone.
pub fn classes(
    sets: &mut [u64],
    smallest: &mut [u64],
    unions: &mut [u64],
    k: usize,
    n: usize,
) -> usize
    ensures { classed sets.new smallest.new unions.new result ≡ classed_all k n sets.old smallest.old unions.old }
{
    let mut i = 0;
    let mut c = 0;
    // Each class moves i on to its end.
    while i < n {
        let class = class_at(sets, k, n, i);
        sets::put(smallest, c, class.small);
        sets::put(unions, c, class.whole);
        c += 1;
        i = class.end;
    }
    c
}
