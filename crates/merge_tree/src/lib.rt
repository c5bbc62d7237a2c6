#![tactic(auto)]

// The merge tree of a sheet: its lines, level by level, by the sequential run.
ghost use Rattle.std.specs.Prelude.{◌≡◌, length};
ghost use Rattle.answers.specs.Verdict.{accepted};
ghost use Rattle.percolation.specs.Steps.{enough};
ghost use Rattle.percolation.specs.Tree.{tree_bytes};
ghost use Rattle.slots.specs.Lent.{tables_of, SameLent};
ghost use Rattle.runs.specs.Lent.{check_call};
ghost use Rattle.runs.specs.OnSheet.{RunMeets, slots_of};
ghost use Rattle.merge_tree.specs.OnSheet.{tree_of, TreeMeets};

use answers::{Answer, Fault};
use sheet::Checked;
use slots::Lent;

// The lines of an admitted sheet: 15, by the rows of the links alone, then 16, by a pass that only counts, then the lines. Leaves the tables anyhow.
fn run(sheet: Checked, k: usize, tables: &mut Lent, out: &mut [u8]) -> Answer
    requires { check_call sheet.bytes.now k (tables_of tables.old 0) ≡ accepted }
    ensures lent { SameLent tables.old tables.new }
    ensures run { RunMeets (enough (length tables.old.entries.now) (slots_of sheet.entry.bytes.now k)) (length (tree_of sheet.entry.bytes.now k))
        (tree_bytes (tree_of sheet.entry.bytes.now k)) out.old result out.new }
{
    let view = tables.view();
    let fits = runs::has_slots(sheet, sheet.counts.links, k, view.entries);
    answers::require(fits, Fault::Slots, 0)?;
    let n = tree_passes::count_tree(sheet, k, tables);
    answers::require(n <= tree_lines::line_count(out), Fault::Space, 0)?;
    tree_passes::write_tree(sheet, k, tables, out);
    Ok(n)
}

// The merge tree of a sheet: its checks, 10, 11, 15, 16, then the lines. The tables are zeroed whenever it came as far as 15.
pub fn lines(sheet: &[u8], k: usize, tables: &mut Lent, out: &mut [u8]) -> Answer
    ensures lent { SameLent tables.old tables.new }
    ensures meets { TreeMeets sheet.now k (tables_of tables.old 0) out.old result (tables_of tables.new 0) out.new }
{
    let checked = runs::admit(sheet, k, tables.view())?;
    let answer = run(checked, k, tables, out);
    runs::clear(tables);
    answer
}
