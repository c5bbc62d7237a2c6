#![tactic(auto)]

// What the listing of a sheet by clique strength tests before it stores a clique, and its lent clique list.
ghost use Rattle.std.specs.Prelude.{◌≡◌, ◌≤◌, length, take, IfOk};
ghost use Rattle.answers.specs.Verdict.{unless, ◌then◌};
ghost use Rattle.answers.specs.Model.{verdict};
ghost use Rattle.percolation.specs.Links.{cliques, slots};
ghost use Rattle.percolation.specs.Ranges.{good_k};
ghost use Rattle.percolation.specs.Steps.{enough};
ghost use Rattle.sheet.specs.Answers.{checked_says, sheet_say};
ghost use Rattle.sheet.specs.Sheet.{parts, links, links_of};
ghost use Rattle.slots.specs.Lent.{tables_in};
ghost use Rattle.clique_list.specs.Lent.{SameList};
ghost use Rattle.strong_checks.specs.Model.{bearing};
ghost use Rattle.strong_checks.specs.OnSheet.{list_of, list_in, level_all, check_measure, check_strength, cleared_list};

use answers::{Fault, Refusal};
use clique_list::{CliqueList, CliqueView};
use products::Measure;
use sheet::Checked;
use slots::View;

// ---- the checks before 15

// Whether the clique list has as many sets as products, and the tables of sets have as many sets as there are joining entries.
pub fn level(list: CliqueView, tables: View) -> bool
    ensures { result ≡ level_all (list_in list.entry) (tables_in tables.entry 0) }
{
    sets::sized(list.cliques, list.products.len()) && runs::level(tables)
}

// 22 and 23.
fn check_measure(k: usize, measure: Measure) -> Result<(), Refusal>
    ensures { verdict result ≡ check_measure k measure }
{
    match measure {
        Measure::Weakest(_) => Ok(()),
        Measure::Product(t) => {
            answers::require(k <= 4, Fault::ProductSize, 0)?;
            answers::require(!t.is_nan(), Fault::NotANumber, 0)
        }
    }
}

// The sheet's checks, 10, 22, 23, 11. Where they pass, the sheet with its counts.
// Whether the lengths are level comes as an answer: `check_strength` takes it so.
pub fn admit(sheet: &[u8], k: usize, measure: Measure, level: bool) -> Result<Checked<'_>, Refusal>
    ensures answer { checked_says result ≡ sheet_say (check_strength sheet.now k measure level) sheet.now }
    ensures same { IfOk result (λ c. c.bytes ≡ sheet.entry) }
{
    let checked = sheet::checked(sheet)?;
    answers::require(checks::good_k(k), Fault::CliqueSize, 0)?;
    check_measure(k, measure)?;
    answers::require(level, Fault::Tables, 0)?;
    Ok(checked)
}

// ---- the slots

// How many links of a checked sheet a strong clique may have: its first ones, since weights never rise.
fn bearing(sheet: Checked, measure: Measure) -> usize
    ensures { (take result (links_of sheet.entry.bytes.now) ≡ bearing measure (links_of sheet.entry.bytes.now)) × (result ≤ links sheet.entry.bytes.now) }
{
    match measure {
        Measure::Weakest(t) => runs::heavy(sheet, t),
        Measure::Product(_) => sheet.counts.links,
    }
}

// Whether there are slots enough for all cliques of those links, and so for the strong ones: 15 then needs no search beside the one that takes them in. For
// sister crates: 10 shows what is required.
pub fn is_sure(sheet: Checked, k: usize, measure: Measure, entries: &[u32]) -> bool
    requires { 2 ≤ k }
    ensures { result ≡ enough (length entries.now)
        (slots (parts sheet.entry.bytes.now) k (cliques (bearing measure (links_of sheet.entry.bytes.now)) (parts sheet.entry.bytes.now) k)) }
{
    let n = bearing(sheet, measure);
    runs::has_slots(sheet, n, k, entries)
}

// ---- the clique list

// Every word of the clique list becomes zero.
pub fn clear_list(list: &mut CliqueList)
    ensures lent { SameList list.old list.new }
    ensures list_after { list_of list.new ≡ cleared_list (list_of list.old) }
{
    sets::clear(list.cliques);
    clique_list::clear_products(list.products);
}
