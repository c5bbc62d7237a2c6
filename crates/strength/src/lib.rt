#![tactic(auto)]

// The listing of a sheet by clique strength: the communities of the k-cliques whose weakest link or product is at or above a threshold.
ghost use Rattle.std.specs.Prelude.{◌≡◌, length};
ghost use Rattle.answers.specs.Verdict.{accepted};
ghost use Rattle.slots.specs.Lent.{tables_of, SameLent};
ghost use Rattle.clique_list.specs.Lent.{SameList};
ghost use Rattle.strong_checks.specs.OnSheet.{list_of, level_all, check_strength, StrengthRuns, StrengthMeets};

use answers::{Answer, Fault};
use clique_list::CliqueList;
use products::Measure;
use sheet::Checked;
use slots::Lent;

// The k-cliques of an admitted sheet into the clique list, their products, and the listing of the strong ones, in a list and tables that it leaves anyhow:
// 15, 16.
fn run(
    sheet: Checked,
    k: usize,
    measure: Measure,
    list: &mut CliqueList,
    tables: &mut Lent,
    out: &mut [u8],
) -> Answer
    requires { check_strength sheet.bytes.now k measure (level_all (list_of list.old) (tables_of tables.old 0)) ≡ accepted }
    ensures lent { SameLent tables.old tables.new }
    ensures list { SameList list.old list.new }
    ensures runs { StrengthRuns sheet.entry.bytes.now k measure (length list.old.products.now) (length tables.old.entries.now) out.old result out.new }
{
    let rows = runs::rows_of(sheet, sheet.counts.links);
    let room = list.products.len();
    let n = clique_list::store_cliques(&rows, list.cliques, room, sheet.counts.parts, k).ok_or(
        Fault::Slots,
    )?;
    let mut table = [0u16; 4096];
    weights::fill(sheet, &mut table);
    let (cliques, products) = (&mut *list.cliques, &mut *list.products);
    clique_list::score_cliques(&table, cliques, n, products);
    let sure = strong_checks::is_sure(sheet, k, measure, tables.view().entries);
    strong_listing::list(measure, &table, list.view(), n, sure, tables, out)
}

// The listing of a sheet by clique strength: the sheet's checks, 10, 22, 23, 11, then 15 for the clique list and for the slots of the strong cliques, and 16.
// The clique list and the tables are zeroed whenever it came as far as 15.
pub fn listing(
    sheet: &[u8],
    k: usize,
    measure: Measure,
    list: &mut CliqueList,
    tables: &mut Lent,
    out: &mut [u8],
) -> Answer
    ensures lent { SameLent tables.old tables.new }
    ensures list { SameList list.old list.new }
    ensures meets { StrengthMeets sheet.now k measure (list_of list.old) (tables_of tables.old 0)
        out.old result (list_of list.new) (tables_of tables.new 0) out.new }
{
    let level = strong_checks::level(list.view(), tables.view());
    let checked = strong_checks::admit(sheet, k, measure, level)?;
    let answer = run(checked, k, measure, list, tables, out);
    strong_checks::clear_list(list);
    runs::clear(tables);
    answer
}
