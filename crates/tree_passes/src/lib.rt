#![tactic(auto)]

// The two passes over the levels of an admitted sheet: how many lines its merge tree has, and the lines written.
ghost use Rattle.std.specs.Prelude.{◌≡◌, ◌+◌, ◌^◌, ◌<◌, ◌≤◌, MatchOption, length, take};
ghost use Rattle.answers.specs.Verdict.{accepted, written};
ghost use Rattle.percolation.specs.Links.{heavy, cliques, slots};
ghost use Rattle.percolation.specs.Tree.{tree, tree_bytes};
ghost use Rattle.sheet.specs.Sheet.{parts, links, link_of, links_of};
ghost use Rattle.slots.specs.Tables.{room};
ghost use Rattle.slots.specs.Lent.{tables_of, SameLent};
ghost use Rattle.slots.specs.List.{slots_of, SameSlots};
ghost use Rattle.runs.specs.Lent.{check_call};
ghost use Rattle.tree_levels.specs.Kept.{KeepsList, counted, starting, with_unions};
ghost use Rattle.tree_levels.specs.LevelModel.{wiped, WritesLevel};
ghost use Rattle.tree_passes.specs.Taken.{TakesLevel};

use sheet::Checked;
use slots::{Lent, SlotList};
use tree_levels::Level;

// The link after the last one of the level of link j: the links of its weight or more are those before.
fn level_end(sheet: Checked, j: usize) -> usize
    requires { j < links sheet.bytes.now }
    ensures { (j < result) × (result ≤ links sheet.entry.bytes.now)
        × (take result (links_of sheet.entry.bytes.now) ≡ heavy (link_of sheet.entry.bytes.now j).weight (links_of sheet.entry.bytes.now)) }
{
    let l = sheet.link(j);
    runs::heavy(sheet, l.weight)
}

// A walk over the levels of a checked sheet, the heaviest first: the rows of neighbours of the links that were taken, and the first link that was not.
#[derive(Drop)]
struct Walk<'a, 'r> {
    sheet: Checked<'a>,
    k: usize,
    rows: &'r mut [u64],
    start: usize,
}

impl Walk<'_, '_> {
    // The next level, if there is one: its links go into the slots. No iterator, since these are written between two levels.
    fn next(&mut self, slots: &mut SlotList) -> Option<Level>
        requires { (2 ≤ self.old.k) × (self.old.start ≤ links self.old.sheet.bytes.now) }
        ensures same { SameSlots slots.old slots.new }
        ensures walk { (self.new.sheet ≡ self.old.sheet) × (self.new.k ≡ self.old.k) }
        ensures level { MatchOption result (links self.old.sheet.bytes.now ≤ self.old.start)
            (λ l. TakesLevel self.old.sheet.bytes.now self.old.k self.old.start self.new.start l.weight self.old.rows.now self.new.rows.now
            (slots_of slots.old) (slots_of slots.new) × (l.before ≡ slots.old.used)) }
    {
        if self.sheet.counts.links <= self.start {
            return None;
        }
        let level = Level {
            weight: usize::from(self.sheet.link(self.start).weight),
            before: slots.used,
        };
        let end = level_end(self.sheet, self.start);
        runs::take_links(self.sheet, self.rows, slots, self.k, self.start, end);
        self.start = end;
        Some(level)
    }
}

// The end of a level of either pass, in the list of slots.
fn count_end(slots: &mut SlotList, before: usize) -> usize
    ensures kept { KeepsList slots.old slots.new }
    ensures value { (result ≡ length (starting (slots_of slots.old) before)) × (result ≤ slots.old.used) }
    ensures slots_after { slots_of slots.new ≡ with_unions (slots_of slots.old)
        (wiped (slots_of slots.old).entries (counted (slots_of slots.old) before) slots.old.used) }
{
    let used = slots.used;
    let tables = &mut *slots.tables;
    let (entries, unions) = (&mut *tables.entries, &mut *tables.unions);
    tree_levels::count_level(entries, unions, before, used)
}

fn write_end(slots: &mut SlotList, level: Level, out: &mut [u8], n: usize) -> usize
    requires { n + slots.old.used < 2 ^ 64 }
    ensures kept { KeepsList slots.old slots.new }
    ensures value { result ≡ n + length (starting (slots_of slots.old) level.before) }
    ensures writes_level { WritesLevel level.before slots.old.used level.weight n (slots_of slots.old).entries (slots_of slots.old).smallest
        (counted (slots_of slots.old) level.before) out.old (slots_of slots.new).smallest (slots_of slots.new).unions out.new }
{
    let used = slots.used;
    let tables = &mut *slots.tables;
    let (entries, smallest, unions) = (
        &mut *tables.entries,
        &mut *tables.smallest,
        &mut *tables.unions,
    );
    tree_levels::write_level(entries, smallest, unions, level, used, out, n)
}

// How many lines the tree of an admitted sheet has, in tables that it leaves anyhow. For sister crates: that the slots suffice is what 15 shows.
pub fn count_tree(sheet: Checked, k: usize, tables: &mut Lent) -> usize
    requires { (check_call sheet.bytes.now k (tables_of tables.old 0) ≡ accepted)
        × (slots (parts sheet.bytes.now) k (cliques (links_of sheet.bytes.now) (parts sheet.bytes.now) k) ≤ room tables.old.entries.now) }
    ensures lent { SameLent tables.old tables.new }
    ensures value { result ≡ length (tree (links_of sheet.entry.bytes.now) (parts sheet.entry.bytes.now) k) }
{
    runs::clear(tables);
    let mut rows = sets::no_rows();
    let mut slots = SlotList { tables, used: 0 };
    let mut walk = Walk {
        sheet,
        k,
        rows: &mut rows,
        start: 0,
    };
    let mut n = 0;
    while let Some(level) = walk.next(&mut slots) {
        n += count_end(&mut slots, level.before);
    }
    n
}

// Writes the lines of the tree of an admitted sheet, for which there is room. For sister crates: that is what 16 shows.
// The loop of `count_tree` again: as one, with a closure for the end of a level, it could not be shown that the closure's sum fits.
pub fn write_tree(sheet: Checked, k: usize, tables: &mut Lent, out: &mut [u8])
    requires { (check_call sheet.bytes.now k (tables_of tables.old 0) ≡ accepted)
        × (slots (parts sheet.bytes.now) k (cliques (links_of sheet.bytes.now) (parts sheet.bytes.now) k) ≤ room tables.old.entries.now)
        × (length (tree_bytes (tree (links_of sheet.bytes.now) (parts sheet.bytes.now) k)) ≤ length out.old) }
    ensures lent { SameLent tables.old tables.new }
    ensures output { out.new ≡ written accepted (tree_bytes (tree (links_of sheet.entry.bytes.now) (parts sheet.entry.bytes.now) k)) out.old }
{
    runs::clear(tables);
    let mut rows = sets::no_rows();
    let mut slots = SlotList { tables, used: 0 };
    let mut walk = Walk {
        sheet,
        k,
        rows: &mut rows,
        start: 0,
    };
    let mut n = 0;
    while let Some(level) = walk.next(&mut slots) {
        n = write_end(&mut slots, level, out, n);
    }
}
