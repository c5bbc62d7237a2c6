#![tactic(auto)]

// The listing of the strong ones of the cliques in the clique list, by the tables of the sequential run.
ghost use Rattle.std.specs.Prelude.{◌≡◌, true, map, ◌≤◌, length};
ghost use Rattle.sets.specs.Lists.{keep, below};
ghost use Rattle.sets.specs.Value.{row};
ghost use Rattle.slots.specs.Lent.{tables_of, SameLent};
ghost use Rattle.runs.specs.Lent.{level};
ghost use Rattle.clique_list.specs.Model.{Scores};
ghost use Rattle.percolating.specs.Model.{strong_by};
ghost use Rattle.strong_listing.specs.Model.{ListsFamily};

use answers::{Answer, Fault};
use clique_list::CliqueView;
use products::Measure;
use slots::{Lent, SlotList};

// The listing of the strong ones of the first n cliques of the list, in tables that it leaves anyhow: 15 where one has no slots, unless it is sure that all
// have, then 16. For sister crates: 11 shows what is required of the tables and of n, and the products are those of the cliques beside them.
pub fn list(
    measure: Measure,
    weights: &[u16],
    list: CliqueView,
    n: usize,
    sure: bool,
    tables: &mut Lent,
    out: &mut [u8],
) -> Answer
    requires { (level (tables_of tables.old 0) ≡ true) × (n ≤ length list.products.now) × Scores weights.now list.cliques.now n list.products.now }
    ensures lent { SameLent tables.old tables.new }
    ensures lists { ListsFamily sure (keep (strong_by measure weights.now) (map (row list.entry.cliques.now) (below n)))
        (length tables.old.entries.now) out.old result out.new }
{
    runs::clear(tables);
    let mut slots = SlotList { tables, used: 0 };
    percolating::percolate(measure, weights, list, n, sure, &mut slots).ok_or(Fault::Slots)?;
    let used = slots.used;
    listings::list_roots(tables.view(), used, out)
}
