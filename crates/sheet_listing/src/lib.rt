#![tactic(auto)]

// The listing of a sheet, by the run that the caller names.
ghost use Rattle.std.specs.Prelude.{◌≡◌, ℕ, ◌≤◌, length, take};
ghost use Rattle.answers.specs.Verdict.{accepted};
ghost use Rattle.percolation.specs.Links.{heavy};
ghost use Rattle.sheet.specs.Sheet.{links, links_of};
ghost use Rattle.slots.specs.Lent.{tables_of, SameLent};
ghost use Rattle.runs.specs.Lent.{check_call};
ghost use Rattle.runs.specs.OnSheet.{count_for, MethodMeets, ListingMeets};

use answers::Answer;
use runs::Method;
use sheet::Checked;
use slots::Lent;

// The listing of the first n links of an admitted sheet by the method's run, for each threshold t whose links these are, in tables that it leaves anyhow:
// 15, 16.
fn run(
    method: Method,
    sheet: Checked,
    n: usize,
    k: usize,
    tables: &mut Lent,
    out: &mut [u8],
) -> Answer
    requires { (check_call sheet.bytes.now k (tables_of tables.old 0) ≡ accepted) × (n ≤ links sheet.bytes.now) }
    ensures lent { SameLent tables.old tables.new }
    ensures runs { (t : ℕ) → take n (links_of sheet.entry.bytes.now) ≡ heavy t (links_of sheet.entry.bytes.now)
        → MethodMeets method sheet.entry.bytes.now k t (length tables.old.entries.now) out.old result out.new }
{
    match method {
        Method::Sequential => sequential_listing::list(sheet, n, k, tables, out),
        Method::Maximal => {
            let rows = runs::rows_of(sheet, n);
            let room = tables.room();
            maximal::list(&rows, sheet.counts.parts, k, tables, room, out)
        }
    }
}

// The listing of a sheet at threshold t: the sheet's checks, 10 and 11, then 15 and 16 by the method's run. The tables are zeroed whenever it came as far as 15.
pub fn listing(
    method: Method,
    sheet: &[u8],
    k: usize,
    t: u16,
    tables: &mut Lent,
    out: &mut [u8],
) -> Answer
    ensures lent { SameLent tables.old tables.new }
    ensures meets { ListingMeets (count_for method sheet.now k t) sheet.now k t (tables_of tables.old 0) out.old result (tables_of tables.new 0) out.new }
{
    let checked = runs::admit(sheet, k, tables.view())?;
    let n = runs::heavy(checked, t);
    let answer = run(method, checked, n, k, tables, out);
    runs::clear(tables);
    answer
}
