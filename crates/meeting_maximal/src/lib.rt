#![tactic(auto)]

// The meeting weight of two k-cliques of a sheet by the maximal-clique run.
ghost use Rattle.std.specs.Prelude.{◌≡◌, true, false, List, length, take, ℕ, ◌≤◌, ◌<◌, IfSome, MatchOption};
ghost use Rattle.sets.specs.Sets.{size, sub};
ghost use Rattle.sets.specs.Value.{num, rows, row};
ghost use Rattle.percolation.specs.Percolate.{joined};
ghost use Rattle.percolation.specs.Ranges.{most_slots};
ghost use Rattle.percolation.specs.Links.{Link, cliques, maximals};
ghost use Rattle.sheet.specs.Sheet.{parts, links, links_of};
ghost use Rattle.slots.specs.Lent.{tables_of, SameLent};
ghost use Rattle.maximal_search.specs.Model.{told};
ghost use Rattle.meeting.specs.Answers.{meeting_of, MeetingRuns, MeetingMeets};
ghost use Rattle.meeting_maximal.specs.Fits.{levels_fit};
ghost use Rattle.meeting_maximal.specs.Model.{Stands, Filled};

use answers::{Fault, Refusal};
use meeting::{Met, Pair};
use sets::Set;
use sheet::Checked;
use slots::Lent;

// The first of the n rows that holds s.
fn holder(table: &[u64], n: usize, s: Set) -> Option<usize>
    ensures { MatchOption result ((i : ℕ) → i < n → sub (num s) (row table.now i) ≡ false)
        (λ j. (j < n) × ((i : ℕ) → i < j → sub (num s) (row table.now i) ≡ false) × (sub (num s) (row table.now j) ≡ true)) }
{
    (0..n).find(|i| sets::subset(s, sets::at(table, *i)))
}

// Whether two k-cliques lie in maximal cliques of one class, where the first n rows are the maximal cliques: the class of one that holds a is
// searched for one that holds b.
fn joined_in(table: &mut [u64], k: usize, n: usize, pair: Pair) -> bool
    ensures { (L : List Link) (p : ℕ) → Stands (maximals L p k) n table.old → 1 ≤ k → size (num pair.a) ≡ k → size (num pair.b) ≡ k
        → result ≡ joined k (cliques L p k) (num pair.a) (num pair.b) }
{
    let Some(i) = holder(table, n, pair.a) else {
        return false;
    };
    overlaps::swap(table, 0, i);
    let class = overlaps::class_at(table, k, n, 0);
    holder(table, class.end, pair.b).is_some()
}

// The maximal cliques of the first n links of a checked sheet into the table: their number, or none where there is one more than there is room for.
fn take_level(sheet: Checked, n: usize, k: usize, sets: &mut [u64], room: usize) -> Option<usize>
    requires { (n ≤ links sheet.bytes.now) × (room ≤ most_slots) × (room ≤ rows sets.old) }
    ensures fits { IfSome result (λ m. m ≤ room) }
    ensures filled { Filled (maximals (take n (links_of sheet.entry.bytes.now)) (parts sheet.entry.bytes.now) k) room (told room result) sets.new }
{
    let rows = runs::rows_of(sheet, n);
    maximal_search::take_maximal(&rows, sets, room, sheet.counts.parts, k)
}

// The meeting weight of two k-cliques of a checked sheet, level by level. The number of maximal cliques may fall as links come, so that 15 is counted at
// each level, below the meeting too.
fn over_levels(sheet: Checked, k: usize, pair: Pair, tables: &mut Lent) -> Met
    requires { (2 ≤ k) × (rows tables.old.sets.now ≡ length tables.old.entries.now) × (size (num pair.a) ≡ k) × (size (num pair.b) ≡ k) }
    ensures lent { SameLent tables.old tables.new }
    ensures run { MeetingRuns (levels_fit sheet.entry.bytes.now k (length tables.old.entries.now))
        (meeting_of sheet.entry.bytes.now k (num pair.a) (num pair.b)) result }
{
    let full = Refusal::from(Fault::Slots);
    let room = tables.room();
    let mut met = None;
    let mut n = 0;
    // From level to level, by where each ends: no plain index.
    while n < sheet.counts.links {
        let l = sheet.link(n);
        let w = l.weight;
        let end = runs::heavy(sheet, w);
        let Some(found) = take_level(sheet, end, k, tables.sets, room) else {
            return Err(full);
        };
        if met.is_none() && joined_in(tables.sets, k, found, pair) {
            met = Some(w);
        }
        n = end;
    }
    Ok(met)
}

// The meeting weight: the sheet's checks, 10, 11, 13, 15. The tables are zeroed whenever it came as far as 15.
// Two cliques apart and no `Pair`: the promise of this call, which C makes too, speaks of a and b.
pub fn meet(sheet: &[u8], k: usize, a: Set, b: Set, tables: &mut Lent) -> Met
    ensures lent { SameLent tables.old tables.new }
    ensures meets { MeetingMeets sheet.now k (num a) (num b) (tables_of tables.old 0) (levels_fit sheet.now k (length tables.old.entries.now)) result
        (tables_of tables.new 0) }
{
    let pair = Pair { a, b };
    let checked = meeting::admit(sheet, k, pair, tables.view())?;
    let met = over_levels(checked, k, pair, tables);
    runs::clear(tables);
    met
}
