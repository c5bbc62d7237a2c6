#![tactic(auto)]

// A row of a dump counted in: each two parts that it holds have one more in a table of counts, at lower * 64 + higher.
ghost use Rattle.std.specs.Prelude.{◌≡◌, ◌+◌, ◌*◌, ◌^◌, ◌<◌, length, get_or};
ghost use Rattle.sets.specs.Value.{num};
ghost use Rattle.dump_theory.specs.Model.{raised, counted_with, counted, RoomWith, Room};

use checks::pairs;
use sets::Set;

// One more at the pair of q and r.
fn raise(counts: &mut [u16], q: usize, r: usize)
    requires { (length counts.old ≡ 4096) × (q < 64) × (r < 64) × (get_or counts.old (q * 64 + r) 0 < 65535) }
    ensures { counts.new ≡ raised counts.old q r }
{
    counts[pairs::number(q, r)] += 1;
}

// One more at the pairs of q and each part of t.
fn count_with(counts: &mut [u16], q: usize, t: Set)
    requires { (length counts.old ≡ 4096) × (q < 64) × (num t < 2 ^ 64) × RoomWith 65535 counts.old q (num t) }
    ensures { counts.new ≡ counted_with counts.old q (num t) }
{
    for r in t.parts() {
        raise(counts, q, r);
    }
}

// One more at each pair of parts of a row. For sister crates: the number of rows before it shows the room.
pub fn count_row(counts: &mut [u16], row: u64)
    requires { (length counts.old ≡ 4096) × Room 65535 counts.old row }
    ensures { counts.new ≡ counted counts.old row }
{
    for (q, rest) in sets::from_word(row).parts_with_rest() {
        count_with(counts, q, rest);
    }
}
