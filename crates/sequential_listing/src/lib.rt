#![tactic(auto)]

// The listing of a sheet's links by the sequential run.
ghost use Rattle.std.specs.Prelude.{◌≡◌, ◌≤◌, length, take};
ghost use Rattle.answers.specs.Verdict.{accepted};
ghost use Rattle.percolation.specs.Links.{cliques, slots};
ghost use Rattle.percolation.specs.Steps.{enough};
ghost use Rattle.sheet.specs.Sheet.{parts, links, links_of};
ghost use Rattle.slots.specs.Lent.{tables_of, SameLent};
ghost use Rattle.runs.specs.Lent.{check_call};
ghost use Rattle.runs.specs.OnSheet.{RunLists};

use answers::{Answer, Fault};
use sheet::Checked;
use slots::{Lent, SlotList};

// The listing of the first n links of an admitted sheet, in tables that it leaves anyhow: 15, by the rows of the links alone, then the links, then 16. For
// sister crates: 10 and the link count show what is required.
pub fn list(sheet: Checked, n: usize, k: usize, tables: &mut Lent, out: &mut [u8]) -> Answer
    requires { (check_call sheet.bytes.now k (tables_of tables.old 0) ≡ accepted) × (n ≤ links sheet.bytes.now) }
    ensures lent { SameLent tables.old tables.new }
    ensures lists { RunLists (enough (length tables.old.entries.now)
        (slots (parts sheet.entry.bytes.now) k (cliques (take n (links_of sheet.entry.bytes.now)) (parts sheet.entry.bytes.now) k)))
        (take n (links_of sheet.entry.bytes.now)) (parts sheet.entry.bytes.now) k out.old result out.new }
{
    let free = runs::has_slots(sheet, n, k, tables.view().entries);
    answers::require(free, Fault::Slots, 0)?;
    runs::clear(tables);
    let mut rows = sets::no_rows();
    let mut slots = SlotList { tables, used: 0 };
    runs::take_links(sheet, &mut rows, &mut slots, k, 0, n);
    let used = slots.used;
    listings::list_roots(tables.view(), used, out)
}
