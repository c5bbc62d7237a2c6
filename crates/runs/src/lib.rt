#![tactic(auto)]

// What the calls on a sheet share: the checks before 15, the tables zeroed, and the links of a checked sheet as rows of neighbours and in the tables.
ghost use Rattle.std.specs.Prelude.{◌≡◌, ◌<◌, ◌≤◌, length, take, drop, IfOk};
ghost use Rattle.sets.specs.Value.{width, no_rows};
ghost use Rattle.checks.specs.Model.{marked};
ghost use Rattle.search.specs.Model.{new_cliques};
ghost use Rattle.clique_taking.specs.Model.{took_all};
ghost use Rattle.percolation.specs.Links.{cliques, heavy, slots};
ghost use Rattle.percolation.specs.Steps.{enough};
ghost use Rattle.slots.specs.Lent.{tables_of, tables_in, SameLent};
ghost use Rattle.slots.specs.List.{slots_of, SameSlots};
ghost use Rattle.sheet.specs.Sheet.{parts, links, links_of};
ghost use Rattle.sheet.specs.Answers.{checked_says, sheet_say};
ghost use Rattle.runs.specs.Lent.{level, check_call, cleared};
ghost use Rattle.runs.specs.Model.{rows_with, took_links};

use answers::{Fault, Refusal};
use checks::Link;
use sets::Rows;
use sheet::Checked;
use slots::{Lent, SlotList, View};

// Which run makes a listing. No closure in its place: what 15 counts differs by the case (`count_for`), which each caller would have to say of its closure.
#[derive(Clone, Copy, Debug, PartialEq, Eq)]
pub enum Method {
    Sequential,
    Maximal,
}

// Whether the tables of sets have as many sets as there are joining entries, and no word more.
pub fn level(tables: View) -> bool
    ensures { result ≡ level (tables_in tables.entry 0) }
{
    let n = tables.entries.len();
    sets::sized(tables.sets, n)
        && (sets::sized(tables.smallest, n) && sets::sized(tables.unions, n))
}

// The checks of a call on a sheet before 15, or 13: the sheet's own, then 10 and 11. Where they pass, the sheet with its counts.
pub fn admit<'a>(sheet: &'a [u8], k: usize, tables: View) -> Result<Checked<'a>, Refusal>
    ensures answer { checked_says result ≡ sheet_say (check_call sheet.now k (tables_in tables.entry 0)) sheet.now }
    ensures same { IfOk result (λ c. c.bytes ≡ sheet.entry) }
{
    let checked = sheet::checked(sheet)?;
    answers::require(checks::good_k(k), Fault::CliqueSize, 0)?;
    answers::require(level(tables), Fault::Tables, 0)?;
    Ok(checked)
}

// Every word of the four tables becomes zero. A call on a sheet is admit, run and this: the run as a closure would be no plainer, since what it promises would
// have to be said at the closure again.
pub fn clear(tables: &mut Lent)
    ensures lent { SameLent tables.old tables.new }
    ensures tables_after { tables_of tables.new 0 ≡ cleared (tables_of tables.old 0) }
{
    sets::clear(tables.sets);
    joining::clear_entries(tables.entries);
    sets::clear(tables.smallest);
    sets::clear(tables.unions);
}

// How many links of a checked sheet weigh t or more: they are its first ones, since weights never rise.
// No halving: the sheet has no slice of weights.
pub fn heavy(sheet: Checked, t: u16) -> usize
    ensures { (take result (links_of sheet.entry.bytes.now) ≡ heavy t (links_of sheet.entry.bytes.now)) × (result ≤ links sheet.entry.bytes.now) }
{
    let m = sheet.counts.links;
    // By a loop: with `find` and a closure a tree of many levels takes up to half more.
    for j in 0..m {
        if sheet.link(j).weight < t {
            return j;
        }
    }
    m
}

// The rows of neighbours of the first n links of a checked sheet. For sister crates: `heavy` and the link count show what is required.
pub fn rows_of(sheet: Checked, n: usize) -> Rows
    requires { n ≤ links sheet.bytes.now }
    ensures { result ≡ rows_with no_rows (take n (links_of sheet.entry.bytes.now)) }
{
    let mut rows = sets::no_rows();
    for j in 0..n {
        let l = sheet.link(j);
        checks::add_link(&mut rows, l);
    }
    rows
}

// Whether there are slots enough for the first n links of a checked sheet: 15, by their rows of neighbours alone, before a table is written. For sister
// crates: `heavy` and the link count show what is required of n, 10 of k.
pub fn has_slots(sheet: Checked, n: usize, k: usize, entries: &[u32]) -> bool
    requires { (n ≤ links sheet.bytes.now) × (2 ≤ k) }
    ensures { result ≡ enough (length entries.now)
        (slots (parts sheet.entry.bytes.now) k (cliques (take n (links_of sheet.entry.bytes.now)) (parts sheet.entry.bytes.now) k)) }
{
    let rows = rows_of(sheet, n);
    let need = search::needed(&rows, sheet.counts.parts, k);
    let room = slots::room(entries);
    need <= room
}

// One link more: its new k-cliques into the tables, then its ends into the rows. For sister crates: check 6 shows what is required of the parts, 10 of k.
pub fn take_link(rows: &mut [u64], slots: &mut SlotList, k: usize, link: Link)
    requires { (2 ≤ k) × (link.low < width) × (link.high < width) }
    ensures same { SameSlots slots.old slots.new }
    ensures slots_after { slots_of slots.new ≡ took_all (slots_of slots.old) (new_cliques rows.old k link.low link.high) }
    ensures rows_after { rows.new ≡ marked rows.old link.low link.high }
{
    clique_taking::take_cliques(rows, slots, k, link.low, link.high);
    checks::add_link(rows, link);
}

// The links from `from` on and below `to` of a checked sheet, one after the other. For sister crates: the sheet's counts show what is required of them,
// 10 of k.
pub fn take_links(
    sheet: Checked,
    rows: &mut [u64],
    slots: &mut SlotList,
    k: usize,
    from: usize,
    to: usize,
)
    requires { (from ≤ to) × (to ≤ links sheet.bytes.now) × (2 ≤ k) }
    ensures same { SameSlots slots.old slots.new }
    ensures slots_after { slots_of slots.new ≡ took_links k rows.old (slots_of slots.old) (drop from (take to (links_of sheet.entry.bytes.now))) }
    ensures rows_after { rows.new ≡ rows_with rows.old (drop from (take to (links_of sheet.entry.bytes.now))) }
{
    for j in from..to {
        take_link(rows, slots, k, sheet.link(j));
    }
}
