#![tactic(auto)]

// The tree on a page of 72 columns: its rows counted, and written.
ghost use Rattle.std.specs.Prelude.{◌≡◌, ◌*◌, ◌%◌, ◌<◌, ◌≤◌, eqb, length};
ghost use mathlib.Core.List.{flatten};
ghost use Rattle.std.proofs.lemmas.List.Edits.{sets};
ghost use Rattle.answers.specs.Model.{verdict};
ghost use Rattle.sets.specs.Lists.{all, below};
ghost use Rattle.sets.specs.Rest.{left_of};
ghost use Rattle.sets.specs.Sets.{size};
ghost use Rattle.sets.specs.Value.{num, width};
ghost use Rattle.percolation.specs.Tree.{line_length};
ghost use Rattle.page.specs.Page.{
  column,
  six_columns,
  cell,
  cells,
  blanks,
  page_row,
  blank_rows,
  rows_for,
  line_rows,
  line_count,
  line_union,
  page_of,
  known,
  good_lines,
  check_page,
  RowsMeets,
  PageMeets,
};
ghost use Rattle.page.specs.Model.{Named, Leaves, Fits, parts_in, rows_from};

use answers::{Answer, Fault, Refusal};
use sets::{Iter, Set};
use tree_lines::Line;

// ---- columns

// The column of n for a unit. A digit is no u8 by From: hence `as`.
fn column(n: usize, unit: usize) -> u8
    requires { 0 < unit }
    ensures { result ≡ column n unit }
{
    if n < unit && 1 < unit {
        b' '
    } else {
        (48 + n / unit % 10) as u8
    }
}

// n in the first six columns. One by one: a loop over the units would have to show of each that it is not 0.
fn put_number(out: &mut [u8], n: usize)
    requires { 6 ≤ length out.old }
    ensures { out.new ≡ sets out.old 0 (six_columns n) }
{
    out[0] = column(n, 100000);
    out[1] = column(n, 10000);
    out[2] = column(n, 1000);
    out[3] = column(n, 100);
    out[4] = column(n, 10);
    out[5] = column(n, 1);
}

// ---- names

// The name of the next part in ten columns, which are blank where there is none.
fn put_cell(sheet: &[u8], parts: &mut Iter, out: &mut [u8])
    requires { Named sheet.now (left_of parts.old) × (length out.old ≡ 10) }
    ensures out_after { out.new ≡ cell sheet.now (parts_in sheet.now (left_of parts.old)) }
    ensures leaves { Leaves sheet.now (left_of parts.old) 1 (left_of parts.new) }
{
    out.fill(b' ');
    if let Some(q) = parts.next() {
        let a = sheet::name_at(sheet, q);
        copying::copy(&sheet[a..a + 8], &mut out[0..8]);
    }
}

// The names of the next six parts, in 60 columns. Parts of a page are lent by index, here and below: of what chunks_exact_mut lends, no proof knows the
// elements afterwards.
fn put_names(sheet: &[u8], parts: &mut Iter, out: &mut [u8])
    requires { Named sheet.now (left_of parts.old) × (length out.old ≡ 60) }
    ensures out_after { out.new ≡ cells sheet.now 6 (parts_in sheet.now (left_of parts.old)) }
    ensures leaves { Leaves sheet.now (left_of parts.old) 6 (left_of parts.new) }
{
    for i in 0..6 {
        put_cell(sheet, parts, &mut out[10 * i..10 * i + 10]);
    }
}

// A row whose first twelve columns are blank.
fn put_row(sheet: &[u8], parts: &mut Iter, out: &mut [u8])
    requires { Named sheet.now (left_of parts.old) × (length out.old ≡ 73) }
    ensures out_after { out.new ≡ page_row sheet.now (blanks 12) (parts_in sheet.now (left_of parts.old)) }
    ensures leaves { Leaves sheet.now (left_of parts.old) 6 (left_of parts.new) }
{
    out[0..12].fill(b' ');
    put_names(sheet, parts, &mut out[12..72]);
    out[72] = b'\n';
}

// n such rows.
fn put_rows(sheet: &[u8], whole: Set, n: usize, out: &mut [u8])
    requires { Named sheet.now (num whole) × (length out.old ≡ 73 * n) }
    ensures { out.new ≡ flatten (blank_rows sheet.now n (parts_in sheet.now (num whole))) }
{
    let mut parts = whole.parts();
    for i in 0..n {
        put_row(sheet, &mut parts, &mut out[73 * i..73 * i + 73]);
    }
}

// The rows of a line: its names, then both numbers in the first row.
fn put_line(sheet: &[u8], number: usize, line: Line, n: usize, out: &mut [u8])
    requires { Named sheet.now (num line.whole) × (n ≡ rows_for (length (parts_in sheet.now (num line.whole)))) × (length out.old ≡ 73 * n) }
    ensures { out.new ≡ flatten (line_rows sheet.now number line.weight (parts_in sheet.now (num line.whole))) }
{
    put_rows(sheet, line.whole, n, out);
    put_number(&mut out[0..6], number);
    put_number(&mut out[6..12], line.weight);
}

// ---- lines

// The union of line j.
fn union_of(lines: &[u8], j: usize) -> Set
    requires { j < line_count lines.now }
    ensures { num result ≡ line_union lines.now j }
{
    tree_lines::line_at(lines, j).whole
}

// Whether the unions of n lines have parts below p only.
fn all_known(lines: &[u8], p: usize, n: usize) -> bool
    requires { (p ≤ width) × (n ≡ line_count lines.now) }
    ensures { result ≡ all (known p lines.now) (below n) }
{
    let parts = sets::upto(p);
    (0..n).all(|j| sets::subset(union_of(lines, j), parts))
}

fn good_lines(lines: &[u8], p: usize) -> bool
    requires { p ≤ width }
    ensures { result ≡ good_lines p lines.now }
{
    let n = tree_lines::line_count(lines);
    let few = n <= 999999;
    tree_lines::is_whole(lines) && (few && all_known(lines, p, n))
}

// ---- rows

// How many rows the names of a set take.
fn rows_of(whole: Set) -> usize
    ensures { (result ≡ rows_for (size (num whole))) × (result ≤ width) }
{
    let n = sets::count(whole);
    n.div_ceil(6).max(1)
}

// How many rows line j takes.
fn rows_at(lines: &[u8], j: usize) -> usize
    requires { j < line_count lines.now }
    ensures { (result ≡ rows_for (size (line_union lines.now j))) × (result ≤ width) }
{
    rows_of(union_of(lines, j))
}

// How many rows n lines take.
fn row_count(lines: &[u8], n: usize) -> usize
    requires { (n ≡ line_count lines.now) × (n < 1000000) }
    ensures { (result ≡ rows_from lines.now 0 n) × (result ≤ width * n) }
{
    (0..n).map(|j| rows_at(lines, j)).sum()
}

// The sheet's own checks, then 24.
fn admit(sheet: &[u8], lines: &[u8]) -> Result<(), Refusal>
    ensures { verdict result ≡ check_page sheet.now lines.now }
{
    let counts = sheet::check(sheet)?;
    answers::require(good_lines(lines, counts.parts), Fault::TreeLines, 0)
}

// Writes the rows of all n lines. Those of a line begin where those before it end, so that no plain index tells where.
fn put_page(sheet: &[u8], lines: &[u8], n: usize, out: &mut [u8])
    requires { Fits sheet.now lines.now n (length out.old) }
    ensures { out.new ≡ page_of sheet.now lines.now }
{
    let mut at = 0;
    for j in 0..n {
        let line = tree_lines::line_at(lines, j);
        let rows = rows_of(line.whole);
        let end = at + 73 * rows;
        put_line(sheet, j + 1, line, rows, &mut out[at..end]);
        at = end;
    }
}

// How many rows the tree lines take on the page: the sheet's own checks, then 24. Nothing is written.
pub fn rows(sheet: &[u8], lines: &[u8]) -> Answer
    ensures { RowsMeets sheet.now lines.now result }
{
    admit(sheet, lines)?;
    Ok(row_count(lines, tree_lines::line_count(lines)))
}

// Writes the page of the tree lines to the start of out: the sheet's own checks, 24, then 16. The count is that of the rows.
pub fn write(sheet: &[u8], lines: &[u8], out: &mut [u8]) -> Answer
    ensures { PageMeets sheet.now lines.now out.old result out.new }
{
    admit(sheet, lines)?;
    let n = tree_lines::line_count(lines);
    let count = row_count(lines, n);
    let end = 73 * count;
    answers::require(end <= out.len(), Fault::Space, 0)?;
    put_page(sheet, lines, n, &mut out[0..end]);
    Ok(count)
}
