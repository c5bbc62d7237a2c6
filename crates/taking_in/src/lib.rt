#![tactic(auto)]

// The tables with one clique more: its sub-cliques in slots, those slots joined, and the clique among those of their class.
ghost use Rattle.std.specs.Prelude.{◌≡◌, ◌<◌};
ghost use Rattle.sets.specs.Sets.{members};
ghost use Rattle.sets.specs.Value.{width, num};
ghost use Rattle.slots.specs.List.{slots_of, SameSlots};
ghost use Rattle.slots.specs.Model.{took_part, took_parts, touched, took_in};

use sets::Set;
use slots::SlotList;

// The sub-clique of q without the part in a slot, and that slot joined to slot first.
fn take_part(slots: &mut SlotList, first: usize, q: Set, part: usize)
    requires { first < slots.old.used }
    ensures same { SameSlots slots.old slots.new }
    ensures slots_after { slots_of slots.new ≡ took_part first (num q) part (slots_of slots.old) }
{
    let s = sets::without(q, part);
    if let Some(i) = slots.place(s, q) {
        slots.join(first, i);
    }
}

// The same for each of these parts of q, the lowest first.
fn take_parts(slots: &mut SlotList, first: usize, q: Set, parts: Set)
    requires { first < slots.old.used }
    ensures same { SameSlots slots.old slots.new }
    ensures slots_after { slots_of slots.new ≡ took_parts first (num q) (members width (num parts)) (slots_of slots.old) }
{
    for part in parts.parts() {
        take_part(slots, first, q, part);
    }
}

// The community of slot first has the clique q; whatever the slots hold.
fn touch(slots: &mut SlotList, first: usize, q: Set)
    requires { first < slots.old.used }
    ensures same { SameSlots slots.old slots.new }
    ensures slots_after { slots_of slots.new ≡ touched (slots_of slots.old) first (num q) }
{
    let tables = &mut *slots.tables;
    let r = joining::root(tables.view().entries, first);
    slots::merge(tables.smallest, r, q, sets::lesser);
    slots::merge(tables.unions, r, q, sets::union);
}

// The tables with the clique q: its sub-cliques in slots, those slots one class, and q among the cliques of that class. Where there is no slot for its
// first sub-clique, nothing changes.
pub fn take_in(slots: &mut SlotList, q: Set)
    ensures same { SameSlots slots.old slots.new }
    ensures slots_after { slots_of slots.new ≡ took_in (slots_of slots.old) (num q) }
{
    let rest = sets::without(q, sets::lowest(q));
    if sets::is_empty(q) {
        if let Some(first) = slots.find(rest) {
            touch(slots, first, q);
        }
        return;
    }
    let Some(first) = slots.place(rest, q) else {
        return;
    };
    slots.join(first, first);
    take_parts(slots, first, q, rest);
    touch(slots, first, q);
}
