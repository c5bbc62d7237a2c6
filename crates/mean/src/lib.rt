#![tactic(auto)]

// The mean link weight of a family of a sheet, by the tables of the sequential run.
ghost use Rattle.std.specs.Prelude.{◌≡◌, true, ◌≤◌, length, take, IfOk};
ghost use Rattle.answers.specs.Verdict.{accepted};
ghost use Rattle.sets.specs.Lists.{◌∈◌, keep};
ghost use Rattle.sets.specs.Value.{num};
ghost use Rattle.checks.specs.Model.{as_link};
ghost use Rattle.percolation.specs.Links.{cliques, slots};
ghost use Rattle.percolation.specs.Steps.{enough};
ghost use Rattle.percolation.specs.Mean.{in_family};
ghost use Rattle.sheet.specs.Answers.{checked_says, sheet_say};
ghost use Rattle.sheet.specs.Sheet.{parts, links, links_of};
ghost use Rattle.slots.specs.Lent.{tables_of, tables_in, SameLent};
ghost use Rattle.runs.specs.Lent.{check_call};
ghost use Rattle.runs.specs.OnSheet.{slots_for};
ghost use Rattle.mean.specs.Answers.{is_clique_at, check_clique, mean_at, MeanRuns, MeanMeets};
ghost use Rattle.mean.specs.Model.{Gained, Covered, counts, Adds};

use answers::{Fault, Refusal};
use checks::Link;
use sets::{Rows, Set};
use sheet::Checked;
use slots::{Lent, SlotList, View};

// The sum of the weights of a family's links, their number, the whole quotient and the remainder. Sum and number stand beside the others and not in a
// `Tally`: `mean_says` names each of the four.
#[derive(Clone, Copy, Debug, PartialEq, Eq)]
pub struct FamilyMean {
    pub sum: usize,
    pub links: usize,
    pub quotient: usize,
    pub remainder: usize,
}

// Weights of links added up, and how many links they are.
// Not ranking's `Mean`, whose numbers have 32 bits, so that products of two fit a u64.
#[derive(Clone, Copy, Debug, PartialEq, Eq)]
pub struct Tally {
    pub sum: usize,
    pub links: usize,
}

// ---- the checks before 15

// Whether a set is a k-clique of the links of a checked sheet that weigh t or more.
fn is_clique_at(sheet: Checked, k: usize, t: u16, clique: Set) -> bool
    ensures { result ≡ is_clique_at sheet.entry.bytes.now k t (num clique) }
{
    let first = runs::heavy(sheet, t);
    let rows = runs::rows_of(sheet, first);
    checks::is_clique(&rows, sheet.counts.parts, k, clique)
}

// The sheet's checks, 10 and 11, then 13, at t. Where they pass, the sheet with its counts.
fn admit<'a>(
    sheet: &'a [u8],
    k: usize,
    t: u16,
    clique: Set,
    tables: View,
) -> Result<Checked<'a>, Refusal>
    ensures answer { checked_says result ≡ sheet_say (check_clique sheet.now k t (num clique) (tables_in tables.entry 0)) sheet.now }
    ensures same { IfOk result (λ c. c.bytes ≡ sheet.entry) }
{
    let checked = runs::admit(sheet, k, tables)?;
    answers::require(is_clique_at(checked, k, t, clique), Fault::NoClique, 0)?;
    Ok(checked)
}

// ---- the links of a family

// s more in the row of each of its parts.
fn gain(covered: &mut [u64], s: Set)
    ensures { Gained covered.old (num s) covered.new }
{
    for q in s.parts() {
        let row = sets::union(sets::at(covered, q), s);
        sets::put(covered, q, row);
    }
}

// For each part, the parts that stand with it in one of the used slots that end at r.
fn cover(tables: View, used: usize, r: usize) -> Rows
    ensures { Covered tables.entry.sets.now tables.entry.entries.now used r result }
{
    let mut covered = sets::no_rows();
    for i in 0..used {
        if joining::root(tables.entries, i) == r {
            gain(&mut covered, sets::at(tables.sets, i));
        }
    }
    covered
}

// Whether a link is counted: both its ends stand in one slot. For k 2 a slot has one part and a link is a clique, so that its lower end tells.
fn is_counted(covered: &[u64], k: usize, link: Link) -> bool
    ensures { result ≡ counts k covered.now (as_link link) }
{
    let row = sets::at(covered, link.low);
    if k == 2 {
        sets::has(row, link.low)
    } else {
        sets::has(row, link.high)
    }
}

// The counted links among the first n of a checked sheet. Two sums in one pass, and so no `sum` of a chain.
fn count_links(sheet: Checked, n: usize, k: usize, covered: &[u64]) -> Tally
    requires { n ≤ links sheet.bytes.now }
    ensures { Adds result (keep (counts k covered.now) (take n (links_of sheet.entry.bytes.now))) }
{
    let mut all = Tally { sum: 0, links: 0 };
    for j in 0..n {
        let l = sheet.link(j);
        if is_counted(covered, k, l) {
            all.sum += usize::from(l.weight);
            all.links += 1;
        }
    }
    all
}

// The links in the family of a k-clique of the first n links of an admitted sheet, in tables that it leaves anyhow: the first links into the tables, the
// slots of the family, then the links.
fn family_links(sheet: Checked, n: usize, k: usize, clique: Set, tables: &mut Lent) -> Tally
    requires { (check_call sheet.bytes.now k (tables_of tables.old 0) ≡ accepted) × (n ≤ links sheet.bytes.now)
        × (enough (length tables.old.entries.now) (slots (parts sheet.bytes.now) k (cliques (take n (links_of sheet.bytes.now)) (parts sheet.bytes.now) k)) ≡ true)
        × (num clique ∈ cliques (take n (links_of sheet.bytes.now)) (parts sheet.bytes.now) k) }
    ensures lent { SameLent tables.old tables.new }
    ensures tally { Adds result (keep (in_family k (cliques (take n (links_of sheet.entry.bytes.now)) (parts sheet.entry.bytes.now) k) (num clique))
        (take n (links_of sheet.entry.bytes.now))) }
{
    runs::clear(tables);
    let mut rows = sets::no_rows();
    let slots = &mut SlotList { tables, used: 0 };
    runs::take_links(sheet, &mut rows, slots, k, 0, n);
    let i = slots.slot_of(clique).unwrap();
    let view = slots.tables.view();
    let r = joining::root(view.entries, i);
    let covered = cover(view, slots.used, r);
    count_links(sheet, n, k, &covered)
}

// The mean in an admitted sheet: 15, by the rows of the links alone, then the links of the family. Leaves the tables anyhow.
fn run(
    sheet: Checked,
    k: usize,
    t: u16,
    clique: Set,
    tables: &mut Lent,
) -> Result<FamilyMean, Refusal>
    requires { check_clique sheet.bytes.now k t (num clique) (tables_of tables.old 0) ≡ accepted }
    ensures lent { SameLent tables.old tables.new }
    ensures run { MeanRuns (enough (length tables.old.entries.now) (slots_for sheet.entry.bytes.now k t))
        (mean_at sheet.entry.bytes.now k t (num clique)) result }
{
    let n = runs::heavy(sheet, t);
    let view = tables.view();
    let fits = runs::has_slots(sheet, n, k, view.entries);
    answers::require(fits, Fault::Slots, 0)?;
    let all = family_links(sheet, n, k, clique, tables);
    Ok(FamilyMean {
        sum: all.sum,
        links: all.links,
        quotient: all.sum / all.links,
        remainder: all.sum % all.links,
    })
}

// The mean link weight of the family of a k-clique of a sheet at t: the sheet's checks, 10, 11, 13, 15, then the links of that family. The tables are
// zeroed whenever it came as far as 15.
pub fn of_family(
    sheet: &[u8],
    k: usize,
    t: u16,
    clique: Set,
    tables: &mut Lent,
) -> Result<FamilyMean, Refusal>
    ensures lent { SameLent tables.old tables.new }
    ensures meets { MeanMeets sheet.now k t (num clique) (tables_of tables.old 0) result (tables_of tables.new 0) }
{
    let checked = admit(sheet, k, t, clique, tables.view())?;
    let mean = run(checked, k, t, clique, tables);
    runs::clear(tables);
    mean
}
