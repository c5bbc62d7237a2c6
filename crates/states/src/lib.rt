#![tactic(auto)]

// The state of a sequential run, and what its steps test before they write.
ghost use Rattle.std.specs.Prelude.{◌≡◌, ◌≤◌};
ghost use Rattle.answers.specs.Model.{fault_number};
ghost use Rattle.slots.specs.Tables.{room};
ghost use Rattle.slots.specs.Lent.{tables_in};
ghost use Rattle.checks.specs.Model.{as_link};
ghost use Rattle.states.specs.States.{good_state};
ghost use Rattle.states.specs.Model.{state_number, link_step, journal_number, insert_number, back_number};

use answers::Fault;
use checks::Link;
use sets::Rows;
use slots::View;

// What goes from step to step beside tables and journal: p, k, how many slots are used, the last weight (65,535 with no link), how many links remain, and
// the neighbours of each part.
// 65,535 and no Option, since C reads it.
#[repr(C)]
#[derive(Clone, Copy)]
pub struct State {
    pub p: usize,
    pub k: usize,
    pub used: usize,
    pub last: usize,
    pub links: usize,
    pub rows: Rows,
}

// Whether k, p and the used slots lie in their ranges, and no used entry is above its slot number.
fn good_state(state: State, entries: &[u32]) -> bool
    ensures { result ≡ good_state state entries.now }
{
    if !checks::good_k(state.k) {
        return false;
    }
    if !checks::good_count(state.p) {
        return false;
    }
    if slots::room(entries) < state.used {
        return false;
    }
    joining::steady(entries, state.used)
}

// The first of 11 and 12 that applies to a state and its tables.
pub fn check_state(state: State, tables: View) -> Result<(), Fault>
    ensures { fault_number result ≡ state_number state (tables_in tables.entry state.used) }
{
    if !runs::level(tables) {
        return Err(Fault::Tables);
    }
    if !good_state(state, tables.entries) {
        return Err(Fault::State);
    }
    Ok(())
}

// The first of 6 to 9 and 15 that applies to a link. 15 counts by the rows alone, before a table is written.
fn check_link(state: State, entries: &[u32], link: Link) -> Result<(), Fault>
    requires { (2 ≤ state.k) × (state.used ≤ room entries.now) }
    ensures { fault_number result ≡ link_step state entries.now (as_link link) }
{
    let rows = state.rows;
    checks::check_link(&rows, state.p, link, state.last)?;
    let more = search::new_slots(&rows, state.k, link.low, link.high);
    if slots::room(entries) - state.used < more {
        return Err(Fault::Slots);
    }
    Ok(())
}

// The first of 11, 12 and 20 that applies to a state, its tables and its journal.
fn check_journal(state: State, tables: View, journal: &[u64]) -> Result<(), Fault>
    ensures { fault_number result ≡ journal_number state (tables_in tables.entry state.used) journal.now }
{
    check_state(state, tables)?;
    if !journal::whole(journal) {
        return Err(Fault::Journal);
    }
    Ok(())
}

// The first of 11, 12, 20, 6 to 9 and 15 that applies to an insert.
pub fn check_insert(state: State, tables: View, journal: &[u64], link: Link) -> Result<(), Fault>
    ensures { fault_number result ≡ insert_number state (tables_in tables.entry state.used) journal.now (as_link link) }
{
    check_journal(state, tables, journal)?;
    check_link(state, tables.entries, link)
}

// The first of 11, 12, 20 and 19 that applies to a taking back.
pub fn check_back(state: State, tables: View, journal: &[u64]) -> Result<(), Fault>
    ensures { fault_number result ≡ back_number state (tables_in tables.entry state.used) journal.now }
{
    check_journal(state, tables, journal)?;
    if state.links == 0 {
        return Err(Fault::NoLink);
    }
    Ok(())
}
