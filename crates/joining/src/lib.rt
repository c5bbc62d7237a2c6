#![tactic(auto)]

// Joining entries, a union-find over lent numbers: where following them ends, ways made shorter, and whether none points up.
ghost use Rattle.std.specs.Prelude.{◌≡◌, MatchOption, leb, eqb, length, get_or, replicate, ◌≤◌, ◌<◌};
ghost use Rattle.sets.specs.Lists.{all, below};
ghost use Rattle.joining.specs.Entries.{root_of};
ghost use Rattle.joining.specs.Model.{halved};

// The joining entry of slot i; i itself past the table's end. By `as`: usize has no From<u32>.
fn entry(entries: &[u32], i: usize) -> usize
    ensures { result ≡ get_or entries.now i i }
{
    entries.get(i).map_or(i, |e| *e as usize)
}

// The joining entry of slot i, if it is below the slot: only such an entry is followed.
fn next(entries: &[u32], i: usize) -> Option<usize>
    ensures { MatchOption result (i ≤ get_or entries.now i i) (λ e. (e ≡ get_or entries.now i i) × (e < i)) }
{
    let e = entry(entries, i);
    (e < i).then_some(e)
}

// Where following joining entries (the union-find parents) from slot i ends.
pub fn root(entries: &[u32], i: usize) -> usize
    ensures { (result ≡ root_of entries.now i) × (result ≤ i) }
{
    let mut r = i;
    // No `for`: each slot comes from the entry of the one before it.
    while let Some(e) = next(entries, r) {
        r = e;
    }
    r
}

// Whether slot i is its own end.
pub fn is_root(entries: &[u32], i: usize) -> bool
    ensures { result ≡ eqb (root_of entries.now i) i }
{
    i <= entry(entries, i)
}

// As root, and makes the way shorter: each other slot on it gets its entry's entry.
pub fn halve(entries: &mut [u32], i: usize) -> usize
    ensures value { (result ≡ root_of entries.old i) × (result ≤ i) }
    ensures entries_after { entries.new ≡ halved entries.old i }
{
    let mut r = i;
    // As in root; and the entries are written on the way.
    while let Some(f) = next(entries, r) {
        let Some(g) = next(entries, f) else {
            return f;
        };
        entries[r] = entries[f];
        r = g;
    }
    r
}

// Every entry becomes zero.
// One for each width of entry, here, in sets and in clique_list: docs/ARCHITECTURE.md names the three.
pub fn clear_entries(entries: &mut [u32])
    ensures { entries.new ≡ replicate (length entries.old) 0 }
{
    entries.fill(0);
}

// Whether no used entry is above its slot number.
pub fn steady(entries: &[u32], used: usize) -> bool
    ensures { result ≡ all (λ i. leb (get_or entries.now i 0) i) (below used) }
{
    (0..used).all(|i| entry(entries, i) <= i)
}
