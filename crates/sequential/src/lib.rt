#![tactic(auto)]

// The steps of the sequential run: start, insert, taking back, and the listing now.
ghost use Rattle.std.specs.Prelude.{◌≡◌};
ghost use Rattle.answers.specs.Answers.{refuses, says};
ghost use Rattle.answers.specs.Faults.{number_of};
ghost use Rattle.answers.specs.Model.{verdict};
ghost use Rattle.sets.specs.Value.{no_rows};
ghost use Rattle.slots.specs.Lent.{tables_of, tables_in, SameLent};
ghost use Rattle.checks.specs.Model.{as_link};
ghost use Rattle.sequential.specs.Steps.{state, check_start, StartMeets, InsertMeets, BackMeets, ListingNowMeets};

use answers::{Answer, Fault, Refusal};
pub use checks::Link;
use slots::{Lent, SlotList, View};
use states::State;

// What a step gives back: its answer, and the state for the next one.
// The state stands beside the answer and not in its Ok: that of a refusal is promised too, and C gets both.
#[derive(Clone, Copy)]
pub struct Stepped {
    pub answer: Answer,
    pub state: State,
}

// The checks of a start: 4, 10, 11, 20.
fn check_start(p: usize, k: usize, tables: View, journal: &[u64]) -> Result<(), Refusal>
    ensures { verdict result ≡ check_start p k (tables_in tables.entry 0) journal.now }
{
    answers::require(checks::good_count(p), Fault::PartCount, 0)?;
    answers::require(checks::good_k(k), Fault::CliqueSize, 0)?;
    answers::require(runs::level(tables), Fault::Tables, 0)?;
    answers::require(journal::whole(journal), Fault::Journal, 0)
}

// A refused start: a state of zeros, which 12 refuses.
fn not_started(refusal: Refusal) -> Stepped
    ensures { (says result.answer ≡ refuses (number_of refusal.fault) refusal.place) × (result.state ≡ state 0 0 0 0 0 no_rows) }
{
    Stepped {
        answer: Err(refusal),
        state: State {
            p: 0,
            k: 0,
            used: 0,
            last: 0,
            links: 0,
            rows: sets::no_rows(),
        },
    }
}

// A refused step: the state as it was.
fn refused(fault: Fault, state: State) -> Stepped
    ensures { (says result.answer ≡ refuses (number_of fault) 0) × (result.state ≡ state) }
{
    Stepped {
        answer: Err(fault.into()),
        state,
    }
}

// Begins with no links, tables and journal all zero: 4, 10, 11, 20.
pub fn start(p: usize, k: usize, tables: &mut Lent, journal: &mut [u64]) -> Stepped
    ensures lent { SameLent tables.old tables.new }
    ensures meets { StartMeets p k (tables_of tables.old 0) journal.old result (tables_of tables.new 0) journal.new }
{
    if let Err(refusal) = check_start(p, k, tables.view(), journal) {
        return not_started(refusal);
    }
    runs::clear(tables);
    sets::clear(journal);
    Stepped {
        answer: Ok(0),
        state: State {
            p,
            k,
            used: 0,
            last: 65535,
            links: 0,
            rows: sets::no_rows(),
        },
    }
}

// One link more: 11, 12, 20, 6 to 9, 15. A refused insert leaves state, tables and journal as they were.
pub fn insert(state: State, tables: &mut Lent, journal: &mut [u64], link: Link) -> Stepped
    ensures lent { SameLent tables.old tables.new }
    ensures meets { InsertMeets state (tables_of tables.old state.used) journal.old (as_link link) result (tables_of tables.new result.state.used) journal.new }
{
    if let Err(fault) = states::check_insert(state, tables.view(), journal, link) {
        return refused(fault, state);
    }
    let mut rows = state.rows;
    let mut slots = SlotList {
        tables,
        used: state.used,
    };
    runs::take_link(&mut rows, &mut slots, state.k, link);
    let used = slots.used;
    let links = journal::add(journal, state.links, link);
    let weight = usize::from(link.weight);
    Stepped {
        answer: Ok(0),
        state: State {
            used,
            last: weight,
            links,
            rows,
            ..state
        },
    }
}

// The last link taken back: 11, 12, 20, 19. The tables are made again from the journal where the link made a k-clique. A refused one leaves state, tables and
// journal as they were.
pub fn take_back(state: State, tables: &mut Lent, journal: &mut [u64]) -> Stepped
    ensures lent { SameLent tables.old tables.new }
    ensures meets { BackMeets state (tables_of tables.old state.used) journal.old result (tables_of tables.new result.state.used) journal.new }
{
    if let Err(fault) = states::check_back(state, tables.view(), journal) {
        return refused(fault, state);
    }
    let p = state.p;
    let links = journal::one_less(state.links);
    let before = &journal[..links];
    let last = journal::last_weight(before);
    let rows = journal::rows_of(before, p);
    let used = journal::refill(journal, links, p, state.k, state.used, &rows, tables);
    journal::put(journal, links, 0);
    Stepped {
        answer: Ok(0),
        state: State {
            used,
            last,
            links,
            rows,
            ..state
        },
    }
}

// The listing of the links that remain: 11, 12, 16. It writes no table.
pub fn listing_now(state: State, tables: View, out: &mut [u8]) -> Answer
    ensures { ListingNowMeets state (tables_in tables.entry state.used) out.old result out.new }
{
    states::check_state(state, tables)?;
    listings::list_roots(tables, state.used, out)
}
