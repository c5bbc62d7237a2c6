#![tactic(auto)]

// Lines in the output of the merge tree: a line of a tree in bytes, in its place among others, the field for the line that it goes into, and its
// union.
ghost use Rattle.std.specs.Prelude.{◌≡◌, true, false, Some, MatchOption, List, ℕ, ◌+◌, ◌-◌, ◌*◌, ◌%◌, ◌^◌, ◌<◌, ◌≤◌, eqb, length, drop};
ghost use Rattle.std.proofs.lemmas.List.Edits.{sets};
ghost use Rattle.sets.specs.Value.{num};
ghost use Rattle.percolation.specs.Tree.{Start, whole_place};
ghost use Rattle.tree_lines.specs.LineModel.{
  line_in,
  line_length,
  line_count,
  line_bytes,
  line_of,
  changed,
  holding,
  has_line,
  PlacesLine,
  Redirects,
  Regrows,
};

use sets::Set;

// A line: the weight of its level, how many lines it joins, the line that it goes into, its smallest clique and its union.
// 0 joins, and into 0, say none, as the bytes that C gets have it.
#[derive(Clone, Copy, Debug)]
pub struct Line {
    pub weight: usize,
    pub joins: usize,
    pub into: usize,
    pub small: Set,
    pub whole: Set,
}

// How many bytes a line has.
pub fn line_length() -> usize
    ensures { result ≡ line_length }
{
    10 + sets::byte_count() + sets::byte_count()
}

// Where its union stands among them.
pub fn whole_place() -> usize
    ensures { result ≡ whole_place }
{
    10 + sets::byte_count()
}

// How many lines the bytes hold, and whether they are whole lines.
pub fn line_count(lines: &[u8]) -> usize
    ensures { result ≡ line_count lines.now }
{
    lines.len() / line_length()
}

pub fn is_whole(lines: &[u8]) -> bool
    ensures { result ≡ eqb (length lines.now % line_length) 0 }
{
    lines.len() % line_length() == 0
}

// ---- read

// The line of its bytes, which stand first.
impl From<&[u8]> for Line {
    ghost from_gives = { λ bytes l. line_in l ≡ line_of bytes.now };

    fn from(bytes: &[u8]) -> Line {
        Line {
            weight: records::two_at(bytes, 0),
            joins: records::four_at(bytes, 2),
            into: records::four_at(bytes, 6),
            small: sets::from_bytes(bytes, 10),
            whole: sets::from_bytes(bytes, whole_place()),
        }
    }
}

// Line j of those, counted from 0.
pub fn line_at(lines: &[u8], j: usize) -> Line
    requires { j < line_count lines.now }
    ensures { line_in result ≡ line_of (drop (j * line_length) lines.now) }
{
    Line::from(&lines[j * line_length()..])
}

// ---- written

// Writes a line from the byte `start` on.
fn put_fields(out: &mut [u8], start: usize, line: Line)
    requires { start + line_length ≤ length out.old }
    ensures { out.new ≡ sets out.old start (line_bytes (line_in line)) }
{
    records::put::<2>(out, start, line.weight);
    records::put::<4>(out, start + 2, line.joins);
    records::put::<4>(out, start + 6, line.into);
    sets::put_bytes(out, start + 10, line.small);
    sets::put_bytes(out, start + whole_place(), line.whole);
}

// Puts a line among those from `from` on and below `to`, where its smallest clique belongs; those behind it move up. Nothing changes where there is no room.
// For sister crates: `from` is not behind `to`.
pub fn put_line(out: &mut [u8], from: usize, to: usize, line: Line)
    requires { from ≤ to }
    ensures { PlacesLine out.old out.new from to (line_in line) }
{
    let size = line_length();
    if out.len() / size <= to {
        return;
    }
    let start = records::gap(out, from, to, size, 10, line.small);
    put_fields(out, start, line);
}

// ---- lines by their numbers, from 1

// Where line m starts, if it is there.
fn line_start(lines: &[u8], m: usize) -> Option<usize>
    ensures { MatchOption result (has_line (length lines.now) (line_count lines.now) m ≡ false)
        (λ k. (has_line (length lines.now) (line_count lines.now) m ≡ true) × (k ≡ (m - 1) * line_length) × (k + line_length ≤ length lines.now)) }
{
    if m < 1 || line_count(lines) < m {
        return None;
    }
    Some((m - 1) * line_length())
}

// The number in the field for the line that line m goes into, if line m is there.
pub fn into_at(lines: &[u8], m: usize) -> Option<usize>
    ensures by_index { (f u : ℕ → ℕ) (X : List Start) (rest : List ℕ) → lines.now ≡ holding f u X rest → length X ≡ line_count lines.now
        → 1 ≤ m → m ≤ line_count lines.now → result ≡ Some (f m % 2 ^ 32) }
    ensures upper_bound { MatchOption result (has_line (length lines.now) (line_count lines.now) m ≡ false) (λ r. r < 2 ^ 32) }
{
    let start = line_start(lines, m)?;
    Some(records::four_at(lines, start + 6))
}

// Line m goes into line v; nothing changes where there is no line m.
pub fn put_into(lines: &mut [u8], m: usize, v: usize)
    ensures { Redirects (λ f. changed f m v) lines.old (line_count lines.old) lines.new }
{
    if let Some(start) = line_start(lines, m) {
        records::put::<4>(lines, start + 6, v);
    }
}

// Line m has the union `whole`; nothing changes where there is no line m.
pub fn put_whole(lines: &mut [u8], m: usize, whole: Set)
    ensures { Regrows (λ u. changed u m (num whole)) lines.old (line_count lines.old) lines.new }
{
    if let Some(start) = line_start(lines, m) {
        sets::put_bytes(lines, start + whole_place(), whole);
    }
}
