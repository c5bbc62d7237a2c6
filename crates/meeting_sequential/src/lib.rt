#![tactic(auto)]

// The meeting weight of two k-cliques of a sheet by the sequential run.
ghost use Rattle.std.specs.Prelude.{◌≡◌, length, ◌≤◌, eqb};
ghost use Rattle.answers.specs.Verdict.{accepted};
ghost use Rattle.sets.specs.Value.{num};
ghost use Rattle.percolation.specs.Steps.{enough};
ghost use Rattle.sheet.specs.Sheet.{links, links_of};
ghost use Rattle.slots.specs.Tables.{root_of};
ghost use Rattle.slots.specs.Lent.{tables_of, SameLent};
ghost use Rattle.slots.specs.List.{slots_of as list_of, SameSlots};
ghost use Rattle.runs.specs.OnSheet.{slots_of};
ghost use Rattle.meeting.specs.Answers.{tells, meet_weight, meeting_of, check_pair, MeetingRuns, MeetingMeets};
ghost use Rattle.meeting_sequential.specs.Model.{Complete, Taken};

use answers::Fault;
use meeting::{Met, Pair};
use sets::Set;
use sheet::Checked;
use slots::{Lent, SlotList};

// How many first links of a checked sheet hold all its links with both ends in s. A `for` and no `find`: the library has no law of it for a range turned round.
fn complete(sheet: Checked, s: Set) -> usize
    ensures { Complete (links_of sheet.entry.bytes.now) (num s) result }
{
    for j in (0..sheet.counts.links).rev() {
        let l = sheet.link(j);
        if checks::has_both(s, l) {
            return j + 1;
        }
    }
    0
}

// Whether slots i and j end at the same one.
fn joined(slots: &SlotList, i: usize, j: usize) -> bool
    ensures { result ≡ eqb (root_of (list_of slots.now).entries i) (root_of (list_of slots.now).entries j) }
{
    let tables = &*slots.tables;
    joining::root(tables.entries, i) == joining::root(tables.entries, j)
}

// The meeting weight of a and b where the links below `from` are in, by which both are complete: one link more until slots of both end at the same one.
fn meet_after(
    sheet: Checked,
    k: usize,
    pair: Pair,
    rows: &mut [u64],
    slots: &mut SlotList,
    from: usize,
) -> Option<u16>
    requires { (2 ≤ k) × Taken sheet.bytes.now k (num pair.a) (num pair.b) from rows.old (list_of slots.old) }
    ensures same { SameSlots slots.old slots.new }
    ensures value { meet_weight result ≡ meeting_of sheet.entry.bytes.now k (num pair.a) (num pair.b) }
{
    let i = slots.slot_of(pair.a).unwrap();
    let j = slots.slot_of(pair.b).unwrap();
    let m = sheet.counts.links;
    for n in from..m {
        if joined(slots, i, j) {
            return Some(sheet.link(n - 1).weight);
        }
        runs::take_links(sheet, rows, slots, k, n, n + 1);
    }
    if joined(slots, i, j) {
        Some(sheet.link(m - 1).weight)
    } else {
        None
    }
}

// The meeting weight in an admitted sheet: 15, by the rows of all links alone, then the first links by which both are complete, then one more until they
// are joined. Leaves the tables anyhow.
fn run(sheet: Checked, k: usize, pair: Pair, tables: &mut Lent) -> Met
    requires { check_pair sheet.bytes.now k (num pair.a) (num pair.b) (tables_of tables.old 0) ≡ accepted }
    ensures lent { SameLent tables.old tables.new }
    ensures run { MeetingRuns (enough (length tables.old.entries.now) (slots_of sheet.entry.bytes.now k))
        (meeting_of sheet.entry.bytes.now k (num pair.a) (num pair.b)) result }
{
    let view = tables.view();
    let fits = runs::has_slots(sheet, sheet.counts.links, k, view.entries);
    answers::require(fits, Fault::Slots, 0)?;
    runs::clear(tables);
    let n = complete(sheet, pair.a).max(complete(sheet, pair.b));
    let mut rows = sets::no_rows();
    let slots = &mut SlotList { tables, used: 0 };
    runs::take_links(sheet, &mut rows, slots, k, 0, n);
    Ok(meet_after(sheet, k, pair, &mut rows, slots, n))
}

// The meeting weight: the sheet's checks, 10, 11, 13, 15, then the run. The tables are zeroed whenever it came as far as 15.
// Two cliques apart and no `Pair`: the promise of this call, which C makes too, speaks of a and b.
pub fn meet(sheet: &[u8], k: usize, a: Set, b: Set, tables: &mut Lent) -> Met
    ensures lent { SameLent tables.old tables.new }
    ensures meets { MeetingMeets sheet.now k (num a) (num b) (tables_of tables.old 0)
        (enough (length tables.old.entries.now) (slots_of sheet.now k)) result (tables_of tables.new 0) }
{
    let pair = Pair { a, b };
    let checked = meeting::admit(sheet, k, pair, tables.view())?;
    let met = run(checked, k, pair, tables);
    runs::clear(tables);
    met
}
