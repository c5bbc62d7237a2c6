#![tactic(auto)]

// Sheets made from the sensor dump: its check, its rows counted pair by pair, and the sheet of these counts written.
ghost use Rattle.std.specs.Prelude.{◌≡◌, [], map, ℕ, ◌*◌, ◌^◌, ◌<◌, ◌≤◌, length};
ghost use Rattle.answers.specs.Verdict.{in_order};
ghost use Rattle.part_names.specs.Names.{check_names};
ghost use Rattle.sheet.specs.Sheet.{links_of};
ghost use Rattle.answers.specs.Model.{verdict};
ghost use Rattle.percolation.specs.Weights.{sum, weight_sum};
ghost use Rattle.dump_theory.specs.Rows.{pairs_in};
ghost use Rattle.dump_theory.specs.Model.{Counts};
ghost use Rattle.dump.specs.Dump.{
  dump_parts,
  rows_in,
  dump_name_at,
  dump_name,
  row_at,
  row_of,
  tripped,
  check_front,
  check_row,
  check_dump,
  MakeMeets,
};

use answers::{Answer, Fault, Refusal};

// How many pairs of parts a row holds.
pub fn pairs_in(row: u64) -> usize
    ensures { (result ≡ pairs_in row) × (result ≤ 2016) }
{
    // No From between u32 and usize: `as` widens, here and in `row`.
    let b = row.count_ones() as usize;
    b * b.saturating_sub(1) / 2
}

// ---- where things stand

// The part count; 0 where the dump ends before it.
fn part_count(d: &[u8]) -> usize
    ensures { (result ≡ dump_parts d.now) × (result < 256) }
{
    records::byte_at(d, 5)
}

fn row_count(d: &[u8]) -> usize
    ensures { (result ≡ rows_in d.now) × (result < 65536) }
{
    records::two_at(d, 6)
}

// Where row i starts.
fn row_at(d: &[u8], i: usize) -> usize
    requires { i < 65536 }
    ensures { (result ≡ row_at d.now i) × (result < 1048576) }
{
    8 + 8 * part_count(d) + 8 * i
}

// Row i: 64 bits, whatever a set of the library has.
fn row(d: &[u8], i: usize) -> u64
    requires { i < 65536 }
    ensures { (result ≡ row_of d.now i) × (result < 2 ^ 64) }
{
    let at = row_at(d, i);
    records::four_at(d, at) as u64 * 4294967296 + records::four_at(d, at + 4) as u64
}

// The row that starts at a place.
pub fn row_of(d: &[u8], place: usize) -> usize
    ensures { (8 * result ≤ place) × ((i : ℕ) → place ≡ row_at d.now i → result ≡ i) }
{
    records::number_at(place, row_at(d, 0), 8)
}

// ---- two sums, equal for a dump and its sheet by dump_sum

// The pairs of parts of every row, added up.
pub fn pair_sum(d: &[u8]) -> usize
    ensures { result ≡ sum (map pairs_in (tripped d.now)) }
{
    (0..row_count(d)).map(|i| pairs_in(row(d, i))).sum()
}

// The weights of a sheet's links, added up.
pub fn weight_sum(s: &[u8]) -> usize
    ensures { result ≡ weight_sum (links_of s.now) }
{
    (0..sheet::link_count(s))
        .map(|j| usize::from(sheet::link(s, j).weight))
        .sum()
}

// ---- what a dump is refused for

// 17 at 0, at 3 and at the length, then 4.
// The sheet's `head` and `names` with other marks and places: one for both would take all of these as parameters, and its clause could cite neither
// definition.
#[tactic(auto, using(sheet::proofs::Said::in_turn), unfolding(crate::specs::Dump::check_front))]
fn front(d: &[u8]) -> Result<(), Refusal>
    ensures { verdict result ≡ check_front d.now }
{
    let n = row_at(d, row_count(d));
    answers::require(sheet::has_mark(d, 80, 82, 68), Fault::Dump, 0)?;
    answers::require(sheet::has_version(d, 1), Fault::Dump, 3)?;
    answers::require(sheet::has_length(d, n), Fault::Dump, d.len())?;
    answers::require(checks::narrow_count(part_count(d)), Fault::PartCount, 5)
}

// 5, then 21, names in order.
fn names(d: &[u8], p: usize) -> Result<(), Refusal>
    requires { (p < 256) × (dump_name_at p ≤ length d.now) }
    ensures { verdict result ≡ check_names (dump_name d.now) dump_name_at p }
{
    let end = 8 + 8 * p;
    part_names::test(&d[8..end], p, 8, 8)
}

// 18, rows in order: those of the first n.
fn rows_within(d: &[u8], p: usize, n: usize) -> Result<(), Refusal>
    requires { (p ≡ dump_parts d.now) × (p ≤ 64) × (n ≡ rows_in d.now) × (n < 65536) }
    ensures { verdict result ≡ in_order (check_row d.now) n }
{
    let all = sets::upto(p);
    for i in 0..n {
        let s = sets::from_word(row(d, i));
        answers::require(sets::subset(s, all), Fault::DumpRow, row_at(d, i))?;
    }
    Ok(())
}

// All that a dump is refused for.
#[tactic(auto, using(crate::proofs::Accepted::checked_front), unfolding(crate::specs::Dump::check_dump))]
fn check(d: &[u8]) -> Result<(), Refusal>
    ensures { verdict result ≡ check_dump d.now }
{
    front(d)?;
    let p = part_count(d);
    names(d, p)?;
    rows_within(d, p, row_count(d))
}

// ---- the sheet

// Every row counted in, into a table of zeros.
fn count_rows(d: &[u8], counts: &mut [u16])
    requires { Counts [] counts.old }
    ensures { Counts (tripped d.now) counts.new }
{
    for i in 0..row_count(d) {
        row_counts::count_row(counts, row(d, i));
    }
}

// Writes the sheet made from a dump to the start of out: 17, 4, 5, 21, 18, then 16. The count is that of the bytes.
pub fn sheet(dump: &[u8], out: &mut [u8]) -> Answer
    ensures { MakeMeets dump.now out.old result out.new }
{
    check(dump)?;
    let p = part_count(dump);
    let mut counts = [0u16; 4096];
    count_rows(dump, &mut counts);
    let end = 8 + 8 * p;
    made::write_weighed(&dump[8..end], p, &counts, out)
}
