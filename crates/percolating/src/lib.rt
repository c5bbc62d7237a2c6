#![tactic(auto)]

// The strong cliques of the clique list taken into the tables one after the other, as long as there are slots for them.
ghost use Rattle.std.specs.Prelude.{◌≡◌, ◌||◌, map, ◌≤◌, ◌<◌, length, get_or};
ghost use Rattle.std.specs.Float.{nan};
ghost use Rattle.sets.specs.Lists.{keep, below};
ghost use Rattle.sets.specs.Value.{num, row};
ghost use Rattle.percolation.specs.Strength.{weakest_of};
ghost use Rattle.products.specs.Measures.{strong_enough};
ghost use Rattle.products.specs.Model.{table_weights};
ghost use Rattle.slots.specs.List.{slots_of, SameSlots};
ghost use Rattle.clique_list.specs.Model.{Scores};
ghost use Rattle.percolating.specs.Model.{lacks, has_room, took_fitting, took_each, strong_by};
ghost use Rattle.percolating.specs.Takes.{TakesIn};

use clique_list::CliqueView;
use products::{Measure, Scored};
use sets::Set;
use slots::SlotList;

// Whether the sub-clique of q without the part has no slot.
fn lacks(slots: &SlotList, q: Set, part: usize) -> bool
    ensures { result ≡ lacks slots.now.tables.now.sets.now slots.now.used (num q) part }
{
    slots.find(sets::without(q, part)).is_none()
}

// Whether the sub-cliques of q that have no slot are no more than the free slots.
fn has_room(slots: &SlotList, q: Set) -> bool
    ensures { result ≡ has_room (slots_of slots.now) (num q) }
{
    let free = slots.free();
    if sets::count(q) <= free {
        return true;
    }
    let lacking = q.parts().filter(|part| lacks(slots, q, *part)).count();
    lacking <= free
}

// The same, or sure beforehand: then no sub-clique is looked for. `sure` chooses no step, it spares a test: a closure in its place would be one of two, by the
// same flag.
fn may_take(slots: &SlotList, q: Set, sure: bool) -> bool
    ensures { result ≡ sure || has_room (slots_of slots.now) (num q) }
{
    sure || has_room(slots, q)
}

// One clique more, where there are slots for it, which may be sure beforehand; none where there are not.
fn take_fitting(slots: &mut SlotList, q: Set, sure: bool) -> Option<()>
    ensures same { SameSlots slots.old slots.new }
    ensures fits { TakesIn result slots.new (took_fitting sure (slots_of slots.old) (num q)) }
{
    if !may_take(slots, q, sure) {
        return None;
    }
    taking_in::take_in(slots, q);
    Some(())
}

// Whether clique i of the list, held with its product, is at or above the threshold.
fn is_strong(measure: Measure, weights: &[u16], list: CliqueView, i: usize) -> bool
    requires { i < length list.products.now }
    ensures { result ≡ strong_enough measure (weakest_of (table_weights weights.now (row list.entry.cliques.now i))) (get_or list.entry.products.now i nan) }
{
    let set = sets::at(list.cliques, i);
    let product = list.products[i];
    products::strong_enough(measure, weights, Scored { set, product })
}

// The strong ones of the first n cliques of the list, into the tables. None where the slots do not suffice, and then the tables have those before the first
// with no slots. Where it is sure that they suffice, no sub-clique is looked for twice. For sister crates: the products are those of the cliques beside them.
pub fn percolate(
    measure: Measure,
    weights: &[u16],
    list: CliqueView,
    n: usize,
    sure: bool,
    slots: &mut SlotList,
) -> Option<()>
    requires { (n ≤ length list.products.now) × Scores weights.now list.cliques.now n list.products.now }
    ensures same { SameSlots slots.old slots.new }
    ensures fits { TakesIn result slots.new
        (took_each sure (slots_of slots.old) (keep (strong_by measure weights.now) (map (row list.entry.cliques.now) (below n)))) }
{
    for i in 0..n {
        if is_strong(measure, weights, list, i) {
            take_fitting(slots, sets::at(list.cliques, i), sure)?;
        }
    }
    Some(())
}
