// The four tables of a run.
use crate::limits::SLOTS;
use slots::Lent;

// A run in tables of its own, of which it is lent the first `slots` of each, as far as there are so many: a run zeroes all that it is lent. Never inlined: the
// space of tables would lie under every command.
#[inline(never)]
pub fn in_slots<T, F: FnOnce(&mut Lent<'_>) -> T>(slots: usize, run: F) -> T
    requires { F.IsAlwaysCallable run }
{
    let slots = slots.min(SLOTS);
    let mut sets = [0u64; SLOTS];
    let mut entries = [0u32; SLOTS];
    let mut smallest = [0u64; SLOTS];
    let mut unions = [0u64; SLOTS];
    run(&mut Lent {
        sets: &mut sets[..slots],
        entries: &mut entries[..slots],
        smallest: &mut smallest[..slots],
        unions: &mut unions[..slots],
    })
}

// The same with all slots.
pub fn in_tables<T, F: FnOnce(&mut Lent<'_>) -> T>(run: F) -> T
    requires { F.IsAlwaysCallable run }
{
    in_slots(SLOTS, run)
}
