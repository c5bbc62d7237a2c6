// The lent tables with how many of their slots are used: a slot found, placed and joined.
ghost use Rattle.std.specs.Prelude.{◌≡◌, ◌≤◌, ◌<◌, ◌-◌};
ghost use Rattle.sets.specs.Sets.{out, lowest};
ghost use Rattle.sets.specs.Value.{num};
ghost use Rattle.slots.specs.Tables.{room};
ghost use Rattle.slots.specs.Model.{joined, placed};

use crate::Lent;
use sets::Set;

// The four lent tables, of whose slots the first `used` are in use: no more than there is room for.
#[derive(Drop)]
pub struct SlotList<'t, 'a> {
    pub tables: &'t mut Lent<'a>,
    pub used: usize,
    ghost fits: { used ≤ room tables.now.entries.now },
}

impl SlotList<'_, '_> {
    ghost use Rattle.slots.specs.List.{slots_of, SameSlots, Finds, Places};

    // How many slots are free.
    pub fn free(&self) -> usize
        ensures { result ≡ room self.now.tables.now.entries.now - self.now.used }
    {
        let tables = &*self.tables;
        tables.room() - self.used
    }

    // The used slot that holds s.
    pub fn find(&self, s: Set) -> Option<usize>
        ensures { Finds result self.now.tables.now.sets.now self.now.used (num s) }
    {
        let tables = &*self.tables;
        crate::find(tables.sets, self.used, s)
    }

    // The slot of s less its lowest part.
    pub fn slot_of(&self, s: Set) -> Option<usize>
        ensures { Finds result self.now.tables.now.sets.now self.now.used (out (lowest (num s)) (num s)) }
    {
        let tables = &*self.tables;
        crate::slot_of(tables.sets, self.used, s)
    }

    // A slot for s, a part of the clique q: the one that holds it, else a new one, of a class of its own; none where no slot is free for it.
    pub fn place(&mut self, s: Set, q: Set) -> Option<usize>
        ensures same { SameSlots self.old self.new }
        ensures slots_after { slots_of self.new ≡ placed (slots_of self.old) (num s) (num q) }
        ensures slot { Places result (slots_of self.old) (num s) self.new.used }
    {
        if let Some(i) = self.find(s) {
            return Some(i);
        }
        let i = self.used;
        let tables = &mut *self.tables;
        if tables.room() <= i {
            return None;
        }
        crate::append(tables, i, s, q);
        self.used = i + 1;
        Some(i)
    }

    // Makes the classes of slots i and j one. For sister crates: both slots are used.
    pub fn join(&mut self, i: usize, j: usize)
        requires { (i < self.old.used) × (j < self.old.used) }
        ensures same { SameSlots self.old self.new }
        ensures slots_after { slots_of self.new ≡ joined (slots_of self.old) i j }
    {
        crate::join(self.tables, i, j);
    }
}
