#![tactic(auto)]

// The four lent tables of the sequential run: slots found, placed and joined.
ghost use Rattle.std.specs.Prelude.{◌≡◌, length, ℕ, ◌+◌, ◌<◌, ◌^◌};
ghost use Rattle.sets.specs.declared.Set.{Set};
ghost use Rattle.sets.specs.Sets.{out, lowest};
ghost use Rattle.sets.specs.Value.{num, row, store, number_at};
ghost use Rattle.percolation.specs.Ranges.{most_slots};
ghost use Rattle.slots.specs.Tables.{room};
ghost use Rattle.slots.specs.Lent.{tables_of, tables_in, SameLent};
ghost use Rattle.slots.specs.List.{Finds};
ghost use Rattle.slots.specs.Model.{joined, appended, placed};

mod list;

pub use list::SlotList;
use sets::Set;

// The four lent tables: a set, a joining entry, a smallest clique and a union for each slot.
#[derive(Drop)]
pub struct Lent<'a> {
    pub sets: &'a mut [u64],
    pub entries: &'a mut [u32],
    pub smallest: &'a mut [u64],
    pub unions: &'a mut [u64],
}

// The same, only to be read.
// Two types, since no parameter of a type says whether its fields are lent to be written. Four lists, as C lends them.
#[derive(Clone, Copy)]
pub struct View<'a> {
    pub sets: &'a [u64],
    pub entries: &'a [u32],
    pub smallest: &'a [u64],
    pub unions: &'a [u64],
}

impl Lent<'_> {
    pub fn view(&self) -> View<'_>
        ensures { (used : ℕ) → tables_in result used ≡ tables_of self.now used }
    {
        View {
            sets: self.sets,
            entries: self.entries,
            smallest: self.smallest,
            unions: self.unions,
        }
    }

    // As room, of the lent entries.
    pub fn room(&self) -> usize
        ensures { result ≡ room self.now.entries.now }
    {
        room(self.entries)
    }
}

// The used slot that holds s. Slots stand in the order in which they came: nothing to search by halves.
pub fn find(sets: &[u64], used: usize, s: Set) -> Option<usize>
    ensures { Finds result sets.now used (num s) }
{
    for slot in 0..used {
        if sets::same(sets::at(sets, slot), s) {
            return Some(slot);
        }
    }
    None
}

// The slot of s less its lowest part.
pub fn slot_of(sets: &[u64], used: usize, s: Set) -> Option<usize>
    ensures { Finds result sets.now used (out (lowest (num s)) (num s)) }
{
    find(sets, used, sets::without(s, sets::lowest(s)))
}

// Row r becomes f of itself and s.
pub fn merge<F: Fn(Set, Set) -> Set>(table: &mut [u64], r: usize, s: Set, f: F)
    requires { F.IsAlwaysCallable f }
    ensures { (g : ℕ → ℕ → ℕ) → ((s t u : Set) → F.post f s t u → num u ≡ g (num s) (num t)) → table.new ≡ store table.old r (g (row table.old r) (num s)) }
{
    let merged = f(sets::at(table, r), s);
    sets::put(table, r, merged);
}

// Makes the classes of slots i and j one, whatever the slots hold: the lower root stays one, and gets the lesser smallest clique and the union of
// both. For sister crates: both slots are used.
pub fn join(tables: &mut Lent, i: usize, j: usize)
    requires { (i < length tables.old.entries.now) × (j < length tables.old.entries.now) × (i < 2 ^ 32) }
    ensures lent { SameLent tables.old tables.new }
    ensures tables_after { (used : ℕ) → tables_of tables.new used ≡ joined (tables_of tables.old used) i j }
{
    let a = joining::halve(tables.entries, i);
    let b = joining::halve(tables.entries, j);
    let lo = a.min(b);
    let hi = a.max(b);
    // `as`: slot numbers lie below the room, which is proved to fit an entry; u32 has no From<usize>.
    tables.entries[hi] = lo as u32;
    let smallest = &mut *tables.smallest;
    let s = sets::at(smallest, hi);
    merge(smallest, lo, s, sets::lesser);
    let unions = &mut *tables.unions;
    let s = sets::at(unions, hi);
    merge(unions, lo, s, sets::union);
}

// Slot i, the first that is not used, holds s, a part of the clique q, and is a class of its own.
// Its cast as in `join`.
fn append(tables: &mut Lent, i: usize, s: Set, q: Set)
    requires { i < room tables.old.entries.now }
    ensures lent { SameLent tables.old tables.new }
    ensures tables_after { tables_of tables.new (i + 1) ≡ appended (tables_of tables.old i) (num s) (num q) }
{
    sets::put(tables.sets, i, s);
    tables.entries[i] = i as u32;
    sets::put(tables.smallest, i, q);
    sets::put(tables.unions, i, q);
}

// A slot for s, a part of the clique q, where `held` is what find says of s: the one that holds it, else a new one, of a class of its own, where there is
// room. Gives how many slots are used then. For sister crates: the slot of s is looked for first.
pub fn place(tables: &mut Lent, used: usize, held: Option<usize>, s: Set, q: Set) -> usize
    requires { Finds held tables.old.sets.now used (num s) }
    ensures lent { SameLent tables.old tables.new }
    ensures tables_after { tables_of tables.new result ≡ placed (tables_of tables.old used) (num s) (num q) }
{
    if let Some(_) = held {
        return used;
    }
    if tables.room() <= used {
        return used;
    }
    append(tables, used, s, q);
    used + 1
}

// However long the tables are, no more slots are used.
pub fn most_slots() -> usize
    ensures { result ≡ most_slots }
{
    16777216
}

// How many slots may be used.
pub fn room(entries: &[u32]) -> usize
    ensures { result ≡ room entries.now }
{
    entries.len().min(most_slots())
}

// ---- free rows
//
// Smallest and union of a used slot that is no end: no step reads or writes them (`free_kept` of slots_theory), and what the tables show does not turn
// on them (`free_shown`). So a number may stand there. Whose they are:
// - `unions`: the merge tree's. At the end of a level the slot after an end gets how many lines its class joins, and a slot that was an end at the level
//   before and is none now still has its union, which is its mark; then all become 0.
// - `smallest` at the slot after an end, and after a slot that was one when a line started there: the merge tree's, the number of that line. The slot after
//   an end is used and no end (`Paired`).
// - `smallest` at the rest: nobody's yet, for an index of slots.

// The number that stands in the free row i of `smallest` or `unions`, and n put there.
// Named apart from `number_at` of sets: which rows are free is known here.
pub fn note_at(table: &[u64], i: usize) -> u64
    ensures { result ≡ number_at table.now i }
{
    sets::number_at(table, i)
}

pub fn put_note(table: &mut [u64], i: usize, n: u64)
    ensures { table.new ≡ store table.old i n }
{
    sets::put_number(table, i, n)
}
