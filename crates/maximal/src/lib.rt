#![tactic(auto)]

// The maximal-clique run: a listing from the maximal cliques, joined where they share k - 1 parts or more.
ghost use Rattle.std.specs.Prelude.{◌≡◌, true, List, ◌≤◌, leb, length};
ghost use Rattle.sets.specs.Value.{width, rows};
ghost use Rattle.percolation.specs.Links.{Link, maximals};
ghost use Rattle.percolation.specs.Steps.{legal};
ghost use Rattle.checks.specs.Neighbours.{Neighbours};
ghost use Rattle.percolation.specs.Ranges.{most_slots};
ghost use Rattle.slots.specs.Lent.{SameLent};
ghost use Rattle.runs.specs.OnSheet.{RunLists};

use answers::{Answer, Fault};
use sets::Rows;
use slots::{Lent, View};

// The listing of the links whose neighbours the rows hold, in tables that it leaves anyhow: the maximal cliques, 15 as soon as there is one more than
// room, their classes, 16. For sister crates: check 4 shows what is required of p, 10 of k, 11 of the room and the tables.
pub fn list(
    neighbours: &Rows,
    p: usize,
    k: usize,
    tables: &mut Lent,
    room: usize,
    out: &mut [u8],
) -> Answer
    requires ranges { (p ≤ width) × (1 ≤ k) × (room ≤ most_slots) }
    requires in_tables { (room ≤ rows tables.old.sets.now) × (room ≤ rows tables.old.smallest.now) × (room ≤ rows tables.old.unions.now) }
    ensures lent { SameLent tables.old tables.new }
    ensures lists { (L : List Link) → legal p L ≡ true → Neighbours L neighbours.now
        → RunLists (leb (length (maximals L p k)) room) L p k out.old result out.new }
    ensures entries_kept { tables.new.entries.now ≡ tables.old.entries.now }
{
    let count = maximal_search::take_maximal(neighbours, tables.sets, room, p, k).ok_or(
        Fault::Slots,
    )?;
    let classes = overlaps::classes(tables.sets, tables.smallest, tables.unions, k, count);
    // with no joining entries each row is its own end
    let ends = View {
        entries: &[],
        ..tables.view()
    };
    listings::list_roots(ends, classes, out)
}
