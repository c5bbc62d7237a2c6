#![tactic(auto)]

// The end of a level of the merge tree, in the tables of the sequential run: the lines that start, their numbers, the lines that go into them, and
// what each line grew to.
//
// Each step takes how many slots it goes through: those before the level, or all. It goes by their numbers, since a slot's number tells what stands at it
// in three tables, and the tables are written meanwhile. They are read as `&Ends`, as a level holds them: a struct to read would be made anew for each slot.
// A number in a free row is a u64 and that of a line or a slot a usize, between which no From stands: hence `as`.
ghost use Rattle.std.specs.Prelude.{◌≡◌, cond, ◌&&◌, suc, ◌+◌, ◌-◌, ◌^◌, ◌<◌, ◌≤◌, eqb, ltb, length};
ghost use Rattle.sets.specs.Value.{store, number_at};
ghost use Rattle.slots.specs.Tables.{root_of};
ghost use Rattle.tree_lines.specs.LineModel.{line_count, changed, Redirects};
ghost use Rattle.tree_levels.specs.Kept.{KeepsEnds};
ghost use Rattle.tree_levels.specs.LevelModel.{
  absorbed,
  more_joins,
  join_counts,
  joins_at,
  starts_at,
  start_slots,
  wiped,
  WentTo,
  GrewTo,
  FilledTo,
  NumbersOne,
  NumbersTo,
  WritesLevel,
};

use tree_lines::Line;

// A level: the weight of its links, and how many slots were used before them.
#[derive(Clone, Copy, Debug, PartialEq, Eq)]
pub struct Level {
    pub weight: usize,
    pub before: usize,
}

// What the end of a level takes of the lent tables: a joining entry, only to be read, a smallest clique and a union for each slot.
#[derive(Drop)]
struct Ends<'a> {
    entries: &'a [u32],
    smallest: &'a mut [u64],
    unions: &'a mut [u64],
}

// The slot where the class of slot i ends.
fn end(tables: &Ends, i: usize) -> usize
    ensures { (result ≡ root_of tables.now.entries.now i) × (result ≤ i) }
{
    joining::root(tables.entries, i)
}

// Whether a class ends at slot i.
fn is_end(tables: &Ends, i: usize) -> bool
    ensures { result ≡ eqb (root_of tables.now.entries.now i) i }
{
    joining::is_root(tables.entries, i)
}

// Whether slot i ended a class at the end of the level before and ends none now.
#[tactic(auto, unfolding(crate::specs::LevelModel::absorbed))]
fn absorbed(tables: &Ends, i: usize) -> bool
    ensures { result ≡ absorbed tables.now.entries.now tables.now.unions.now i }
{
    !is_end(tables, i) && !sets::is_empty(sets::at(tables.unions, i))
}

// How many lines a class joins with one more class, where it joined n; 0 stands for its own line alone, in a free row as in the line's field (the C interface).
#[tactic(auto, unfolding(crate::specs::LevelModel::more_joins))]
fn more_joins(n: u64) -> u64
    ensures { result ≡ more_joins n }
{
    if n == 0 {
        2
    } else if n < u64::from(u32::MAX) {
        n + 1
    } else {
        n
    }
}

// Counts one more class into the class that ends at r.
fn count_join(unions: &mut [u64], r: usize)
    requires { r < 2 ^ 64 - 1 }
    ensures { unions.new ≡ store unions.old (suc r) (more_joins (number_at unions.old (suc r))) }
{
    let n = more_joins(slots::note_at(unions, r + 1));
    slots::put_note(unions, r + 1, n);
}

// For each class that two or more of the level before went into, at the slot after its end: how many lines it joins. `used` slots were used before.
#[tactic(auto, unfolding(crate::specs::LevelModel::swept))]
fn count_joins(tables: &mut Ends, used: usize)
    ensures kept { KeepsEnds tables.old tables.new }
    ensures smallest_after { tables.new.smallest.now ≡ tables.old.smallest.now }
    ensures unions_after { tables.new.unions.now ≡ join_counts tables.old.entries.now tables.old.unions.now used }
{
    for i in 0..used {
        if absorbed(tables, i) {
            let r = end(tables, i);
            count_join(tables.unions, r);
        }
    }
}

// How many lines the class that ends at r joins, as the line's field says it: 0 for none.
#[tactic(auto, unfolding(crate::specs::LevelModel::joins_at))]
fn joins_at(unions: &[u64], before: usize, r: usize) -> usize
    ensures { result ≡ joins_at unions.now before r }
{
    if before <= r {
        0
    } else {
        slots::note_at(unions, r + 1) as usize
    }
}

// Whether a class ends at r and starts a line: it holds no class of the level before, or two or more.
#[tactic(auto, unfolding(crate::specs::LevelModel::starts_at))]
fn starts(tables: &Ends, before: usize, r: usize) -> bool
    ensures { result ≡ eqb (root_of tables.now.entries.now r) r && starts_at tables.now.unions.now before r }
{
    is_end(tables, r) && (before <= r || slots::note_at(tables.unions, r + 1) != 0)
}

// How many lines start.
fn count_lines(tables: &Ends, before: usize, used: usize) -> usize
    ensures { (result ≡ length (start_slots tables.now.entries.now tables.now.unions.now before used)) × (result ≤ used) }
{
    (0..used).filter(|i| starts(tables, before, *i)).count()
}

// Empties the row of each used slot that is no end.
#[tactic(auto, unfolding(crate::specs::LevelModel::swept))]
fn wipe(tables: &mut Ends, used: usize)
    ensures kept { KeepsEnds tables.old tables.new }
    ensures smallest_after { tables.new.smallest.now ≡ tables.old.smallest.now }
    ensures unions_after { tables.new.unions.now ≡ wiped tables.old.entries.now tables.old.unions.now used }
{
    for i in 0..used {
        if !is_end(tables, i) {
            sets::put(tables.unions, i, sets::empty());
        }
    }
}

// Puts the lines that start behind the first n, by smallest clique, each with the slot where its class ends in place of the line that it goes into. Gives
// how many there are then. The output and n are no struct: a level needs the number of lines before it and that after it.
fn put_lines(tables: &Ends, level: Level, used: usize, out: &mut [u8], n: usize) -> usize
    requires { n + used < 2 ^ 64 }
    ensures value { result ≡ n + length (start_slots tables.now.entries.now tables.now.unions.now level.before used) }
    ensures filled_to { FilledTo level.weight tables.now.entries.now tables.now.smallest.now tables.now.unions.now level.before used
        out.old n used out.new }
{
    let mut m = n;
    for i in 0..used {
        if starts(tables, level.before, i) {
            let line = Line {
                weight: level.weight,
                joins: joins_at(tables.unions, level.before, i),
                into: i,
                small: sets::at(tables.smallest, i),
                whole: sets::at(tables.unions, i),
            };
            tree_lines::put_line(out, n, m, line);
            m += 1;
        }
    }
    m
}

// The line that the class of slot r had goes into line m, where r was used before.
fn end_line(tables: &Ends, before: usize, lines: &mut [u8], r: usize, m: usize)
    ensures { Redirects (λ f. cond (ltb r before) (changed f (number_at tables.now.smallest.now (suc r)) m) f) lines.old (line_count lines.old) lines.new }
{
    if r < before {
        let old = slots::note_at(tables.smallest, r + 1) as usize;
        tree_lines::put_into(lines, old, m);
    }
}

// Line m starts at the slot that stands in place of the line that it goes into: its number goes to the slot after that.
fn number_line(tables: &mut Ends, before: usize, lines: &mut [u8], m: usize)
    requires { (1 ≤ m) × (m ≤ line_count lines.old) }
    ensures kept { KeepsEnds tables.old tables.new }
    ensures numbers { NumbersOne before m tables.old.smallest.now tables.old.unions.now lines.old (line_count lines.old)
        tables.new.smallest.now tables.new.unions.now lines.new }
{
    if let Some(r) = tree_lines::into_at(lines, m) {
        end_line(tables, before, lines, r, m);
        tree_lines::put_into(lines, m, 0);
        slots::put_note(tables.smallest, r + 1, m as u64);
        slots::put_note(tables.unions, r + 1, 0);
    }
}

// The lines behind the first `from` get their numbers.
#[tactic(auto, unfolding(crate::specs::LevelModel::numbered))]
fn number_lines(tables: &mut Ends, before: usize, lines: &mut [u8], from: usize)
    ensures kept { KeepsEnds tables.old tables.new }
    ensures numbers { NumbersTo before from (line_count lines.old - from) tables.old.smallest.now tables.old.unions.now lines.old (line_count lines.old)
        tables.new.smallest.now tables.new.unions.now lines.new }
{
    for m in from..tree_lines::line_count(lines) {
        number_line(tables, before, lines, m + 1);
    }
}

// The line of each absorbed class, of `used` slots, goes into the line of the class where it ends now.
#[tactic(auto, unfolding(crate::specs::LevelModel::went_into))]
fn join_lines(tables: &Ends, used: usize, lines: &mut [u8])
    ensures { WentTo tables.now.entries.now tables.now.smallest.now tables.now.unions.now lines.old (line_count lines.old) used lines.new }
{
    for i in 0..used {
        if absorbed(tables, i) {
            let r = end(tables, i);
            let old = slots::note_at(tables.smallest, i + 1) as usize;
            let line = slots::note_at(tables.smallest, r + 1) as usize;
            tree_lines::put_into(lines, old, line);
        }
    }
}

// Each class that ends below `used` shows its union in its line. The line of a class that was absorbed keeps what the level before showed.
#[tactic(auto, unfolding(crate::specs::LevelModel::grew_to))]
fn show_growth(tables: &Ends, used: usize, lines: &mut [u8])
    ensures { GrewTo tables.now.entries.now tables.now.smallest.now tables.now.unions.now lines.old (line_count lines.old) used lines.new }
{
    for r in 0..used {
        let after = r + 1;
        if is_end(tables, r) {
            let line = slots::note_at(tables.smallest, after) as usize;
            tree_lines::put_whole(lines, line, sets::at(tables.unions, r));
        }
    }
}

// A level of the first pass, after its links: how many lines start, where `before` slots were used before them. It reads no smallest clique.
pub fn count_level(entries: &[u32], unions: &mut [u64], before: usize, used: usize) -> usize
    ensures value { (result ≡ length (start_slots entries.now (join_counts entries.now unions.old before) before used)) × (result ≤ used) }
    ensures unions_after { unions.new ≡ wiped entries.now (join_counts entries.now unions.old before) used }
{
    let tables = &mut Ends {
        entries,
        smallest: &mut [],
        unions,
    };
    count_joins(tables, before);
    let n = count_lines(tables, before, used);
    wipe(tables, used);
    n
}

// A level of the second pass, after its links: its lines behind the first n, with their numbers, the lines that they join go into them, and each line
// that goes on shows its union. Gives how many lines there are then. For sister crates: the slots of a table are few.
pub fn write_level(
    entries: &[u32],
    smallest: &mut [u64],
    unions: &mut [u64],
    level: Level,
    used: usize,
    out: &mut [u8],
    n: usize,
) -> usize
    requires { n + used < 2 ^ 64 }
    ensures value { result ≡ n + length (start_slots entries.now (join_counts entries.now unions.old level.before) level.before used) }
    ensures writes_level { WritesLevel level.before used level.weight n entries.now smallest.old (join_counts entries.now unions.old level.before)
        out.old smallest.new unions.new out.new }
{
    let tables = &mut Ends {
        entries,
        smallest,
        unions,
    };
    count_joins(tables, level.before);
    let m = put_lines(tables, level, used, out, n);
    let end = m.saturating_mul(tree_lines::line_length()).min(out.len());
    let lines = &mut out[..end];
    number_lines(tables, level.before, lines, n);
    join_lines(tables, level.before, lines);
    show_growth(tables, used, lines);
    wipe(tables, used);
    m
}
