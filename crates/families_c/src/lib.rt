#![tactic(auto)]

// The C interface: each call as the crates below have it, with numbers, slices and structs of numbers only. include/families.h declares it. Each call puts the
// four tables into a `Lent` itself: of slices that a function had handed on, no proof would know what they hold afterwards.
ghost use Rattle.std.specs.Prelude.{◌≡◌, length};
ghost use Rattle.answers.specs.Answers.{says, say_of};
ghost use Rattle.answers.specs.Verdict.{written};
ghost use Rattle.percolation.specs.Links.{link};
ghost use Rattle.percolation.specs.Steps.{enough};
ghost use Rattle.sheet.specs.Answers.{sheet_says, sheet_say, check_part};
ghost use Rattle.sheet.specs.Sheet.{name_at};
ghost use Rattle.sheet.specs.Network.{network, network_of};
ghost use Rattle.sheet_reader.specs.Reading.{check_read, written_network};
ghost use Rattle.sheet_writer.specs.Writing.{sheet_of, check_write};
ghost use Rattle.dump.specs.Dump.{MakeMeets};
ghost use Rattle.subsets.specs.Subsets.{table_count, slot_bound, check_bound};
ghost use Rattle.slots.specs.Tables.{tables};
ghost use Rattle.runs.specs.Lent.{lent};
ghost use Rattle.runs.specs.OnSheet.{slots_for, slots_of, maximals_for, ListingMeets};
ghost use Rattle.sequential.specs.Steps.{StartMeets, InsertMeets, BackMeets, ListingNowMeets};
ghost use Rattle.meeting.specs.Answers.{meet_says, MeetingMeets};
ghost use Rattle.mean.specs.Answers.{mean_says, MeanMeets};
ghost use Rattle.needs.specs.Needs.{need_says, NeedsMeets};
ghost use Rattle.fullest.specs.Fullest.{FullMeets};
ghost use Rattle.page.specs.Page.{RowsMeets, PageMeets};
ghost use Rattle.meeting_maximal.specs.Fits.{levels_fit};
ghost use Rattle.merge_tree.specs.OnSheet.{TreeMeets};
ghost use Rattle.products.specs.declared.Measure.TheVariants.{Weakest, Product};
ghost use Rattle.strong_checks.specs.OnSheet.{clique_list, StrengthMeets};
ghost use Rattle.outcomes.specs.Outcomes.{outcome, shown, sheet_shown, meet_shown, mean_shown, need_shown, Shows, ShowsMeeting, ShowsMean, ShowsNeed, ShowsStep};

use clique_list::CliqueList;
use link_order::Links;
use outcomes::{Mean, Need, Outcome, Started, counted};
use products::Measure;
use runs::Method;
use sequential::Link;
use sheet::Network;
use slots::{Lent, View};
use states::State;

// sheet_reader::read: count is the links, parts the parts.
#[unsafe(no_mangle)]
pub extern "C" fn families_read(
    sheet: &[u8],
    names: &mut [u8],
    lower: &mut [u16],
    higher: &mut [u16],
    weights: &mut [u16],
) -> Outcome
    ensures value { result ≡ sheet_shown (sheet_say (check_read sheet.now (network names.old lower.old higher.old weights.old)) sheet.now) }
    ensures weights_after { network names.new lower.new higher.new weights.new ≡ written_network (check_read sheet.now (network names.old lower.old higher.old weights.old)) (network_of sheet.now) (network names.old lower.old higher.old weights.old) }
{
    let mut links = Links {
        lower,
        higher,
        weights,
    };
    Outcome::from(sheet_reader::read(sheet, names, &mut links))
}

// sheet_writer::write: count is the bytes.
#[unsafe(no_mangle)]
pub extern "C" fn families_write(
    names: &[u8],
    lower: &[u16],
    higher: &[u16],
    weights: &[u16],
    out: &mut [u8],
) -> Outcome
    ensures value { result ≡ shown (say_of (check_write (network names.now lower.now higher.now weights.now) (length out.old)) (length (sheet_of (network names.now lower.now higher.now weights.now)))) }
    ensures out_after { out.new ≡ written (check_write (network names.now lower.now higher.now weights.now) (length out.old)) (sheet_of (network names.now lower.now higher.now weights.now)) out.old }
{
    let network = Network {
        names,
        lower,
        higher,
        weights,
    };
    Outcome::from(sheet_writer::write(network, out))
}

// dump::sheet: count is the bytes.
#[unsafe(no_mangle)]
pub extern "C" fn families_dump_sheet(dump: &[u8], out: &mut [u8]) -> Outcome
    ensures { Shows (λ a. MakeMeets dump.now out.old a out.new) result }
{
    Outcome::from(dump::sheet(dump, out))
}

// sheet::find_name: count is where the eight bytes of the part's name start in the sheet.
#[unsafe(no_mangle)]
pub extern "C" fn families_name(sheet: &[u8], part: usize) -> Outcome
    ensures { result ≡ shown (say_of (check_part sheet.now part) (name_at sheet.now part)) }
{
    Outcome::from(sheet::find_name(sheet, part))
}

// subsets::slot_bound: count is the bound.
#[unsafe(no_mangle)]
pub extern "C" fn families_slot_bound(p: usize, k: usize) -> Outcome
    ensures { result ≡ shown (say_of (check_bound p k) (slot_bound p k)) }
{
    Outcome::from(subsets::slot_bound(p, k))
}

// subsets::subset_count: count is C(n, r) for n 0 to 64 and r 0 to 6, 0 outside.
#[unsafe(no_mangle)]
pub extern "C" fn families_subset_count(n: usize, r: usize) -> Outcome
    ensures { result ≡ outcome 0 0 (table_count n r) 0 }
{
    counted(subsets::subset_count(n, r), 0)
}

// sequential::start: count is 0.
#[unsafe(no_mangle)]
pub extern "C" fn families_start(
    p: usize,
    k: usize,
    sets: &mut [u64],
    entries: &mut [u32],
    smallest: &mut [u64],
    unions: &mut [u64],
    journal: &mut [u64],
) -> Started
    ensures { ShowsStep (λ s. StartMeets p k (lent sets.old entries.old smallest.old unions.old) journal.old s (lent sets.new entries.new smallest.new unions.new) journal.new) result }
{
    let mut tables = Lent {
        sets,
        entries,
        smallest,
        unions,
    };
    Started::from(sequential::start(p, k, &mut tables, journal))
}

// sequential::insert: count is 0.
#[unsafe(no_mangle)]
pub extern "C" fn families_insert(
    state: State,
    sets: &mut [u64],
    entries: &mut [u32],
    smallest: &mut [u64],
    unions: &mut [u64],
    journal: &mut [u64],
    lower: usize,
    higher: usize,
    weight: u16,
) -> Started
    ensures { ShowsStep (λ s. InsertMeets state (tables sets.old entries.old smallest.old unions.old state.used) journal.old (link lower higher weight) s (tables sets.new entries.new smallest.new unions.new s.state.used) journal.new) result }
{
    let mut tables = Lent {
        sets,
        entries,
        smallest,
        unions,
    };
    let link = Link {
        low: lower,
        high: higher,
        weight,
    };
    Started::from(sequential::insert(state, &mut tables, journal, link))
}

// sequential::take_back: count is 0.
#[unsafe(no_mangle)]
pub extern "C" fn families_take_back(
    state: State,
    sets: &mut [u64],
    entries: &mut [u32],
    smallest: &mut [u64],
    unions: &mut [u64],
    journal: &mut [u64],
) -> Started
    ensures { ShowsStep (λ s. BackMeets state (tables sets.old entries.old smallest.old unions.old state.used) journal.old s (tables sets.new entries.new smallest.new unions.new s.state.used) journal.new) result }
{
    let mut tables = Lent {
        sets,
        entries,
        smallest,
        unions,
    };
    Started::from(sequential::take_back(state, &mut tables, journal))
}

// sequential::listing_now: count is the communities.
#[unsafe(no_mangle)]
pub extern "C" fn families_listing_now(
    state: State,
    sets: &[u64],
    entries: &[u32],
    smallest: &[u64],
    unions: &[u64],
    out: &mut [u8],
) -> Outcome
    ensures { Shows (λ a. ListingNowMeets state (tables sets.now entries.now smallest.now unions.now state.used) out.old a out.new) result }
{
    let tables = View {
        sets,
        entries,
        smallest,
        unions,
    };
    Outcome::from(sequential::listing_now(state, tables, out))
}

// sheet_listing::listing by the sequential run: count is the communities.
#[tactic(auto, unfolding(runs::specs::OnSheet::count_for))]
#[unsafe(no_mangle)]
pub extern "C" fn families_listing_sequential(
    sheet: &[u8],
    k: usize,
    t: u16,
    sets: &mut [u64],
    entries: &mut [u32],
    smallest: &mut [u64],
    unions: &mut [u64],
    out: &mut [u8],
) -> Outcome
    ensures { Shows (λ a. ListingMeets (slots_for sheet.now k t) sheet.now k t (lent sets.old entries.old smallest.old unions.old) out.old a (lent sets.new entries.new smallest.new unions.new) out.new) result }
{
    let mut tables = Lent {
        sets,
        entries,
        smallest,
        unions,
    };
    let answer = sheet_listing::listing(Method::Sequential, sheet, k, t, &mut tables, out);
    Outcome::from(answer)
}

// sheet_listing::listing by the maximal-clique run: count is the communities.
#[tactic(auto, unfolding(runs::specs::OnSheet::count_for))]
#[unsafe(no_mangle)]
pub extern "C" fn families_listing_maximal(
    sheet: &[u8],
    k: usize,
    t: u16,
    sets: &mut [u64],
    entries: &mut [u32],
    smallest: &mut [u64],
    unions: &mut [u64],
    out: &mut [u8],
) -> Outcome
    ensures { Shows (λ a. ListingMeets (maximals_for sheet.now k t) sheet.now k t (lent sets.old entries.old smallest.old unions.old) out.old a (lent sets.new entries.new smallest.new unions.new) out.new) result }
{
    let mut tables = Lent {
        sets,
        entries,
        smallest,
        unions,
    };
    let answer = sheet_listing::listing(Method::Maximal, sheet, k, t, &mut tables, out);
    Outcome::from(answer)
}

// strength::listing by the weakest link: count is the communities.
#[unsafe(no_mangle)]
pub extern "C" fn families_listing_weakest(
    sheet: &[u8],
    k: usize,
    t: u16,
    cliques: &mut [u64],
    products: &mut [f64],
    sets: &mut [u64],
    entries: &mut [u32],
    smallest: &mut [u64],
    unions: &mut [u64],
    out: &mut [u8],
) -> Outcome
    ensures { Shows (λ a. StrengthMeets sheet.now k (Weakest t) (clique_list cliques.old products.old) (lent sets.old entries.old smallest.old unions.old) out.old a (clique_list cliques.new products.new) (lent sets.new entries.new smallest.new unions.new) out.new) result }
{
    let measure = Measure::Weakest(t);
    let mut list = CliqueList { cliques, products };
    let mut tables = Lent {
        sets,
        entries,
        smallest,
        unions,
    };
    let answer = strength::listing(sheet, k, measure, &mut list, &mut tables, out);
    Outcome::from(answer)
}

// strength::listing by the product: count is the communities.
#[unsafe(no_mangle)]
pub extern "C" fn families_listing_product(
    sheet: &[u8],
    k: usize,
    t: f64,
    cliques: &mut [u64],
    products: &mut [f64],
    sets: &mut [u64],
    entries: &mut [u32],
    smallest: &mut [u64],
    unions: &mut [u64],
    out: &mut [u8],
) -> Outcome
    ensures { Shows (λ a. StrengthMeets sheet.now k (Product t) (clique_list cliques.old products.old) (lent sets.old entries.old smallest.old unions.old) out.old a (clique_list cliques.new products.new) (lent sets.new entries.new smallest.new unions.new) out.new) result }
{
    let measure = Measure::Product(t);
    let mut list = CliqueList { cliques, products };
    let mut tables = Lent {
        sets,
        entries,
        smallest,
        unions,
    };
    let answer = strength::listing(sheet, k, measure, &mut list, &mut tables, out);
    Outcome::from(answer)
}

// mean::of_family: count is the links.
#[unsafe(no_mangle)]
pub extern "C" fn families_family_mean(
    sheet: &[u8],
    k: usize,
    t: u16,
    clique: u64,
    sets: &mut [u64],
    entries: &mut [u32],
    smallest: &mut [u64],
    unions: &mut [u64],
) -> Mean
    ensures { ShowsMean (λ m. MeanMeets sheet.now k t clique (lent sets.old entries.old smallest.old unions.old) m (lent sets.new entries.new smallest.new unions.new)) result }
{
    let set = sets::from_word(clique);
    let mut tables = Lent {
        sets,
        entries,
        smallest,
        unions,
    };
    Mean::from(mean::of_family(sheet, k, t, set, &mut tables))
}

// needs::of_sheet: count is 0.
#[unsafe(no_mangle)]
pub extern "C" fn families_needed(sheet: &[u8], k: usize, t: u16) -> Need
    ensures { ShowsNeed (λ x. NeedsMeets sheet.now k t x) result }
{
    Need::from(needs::of_sheet(sheet, k, t))
}

// fullest::sheet: count is the bytes.
#[unsafe(no_mangle)]
pub extern "C" fn families_fullest_sheet(p: usize, k: usize, out: &mut [u8]) -> Outcome
    ensures { Shows (λ a. FullMeets p k out.old a out.new) result }
{
    Outcome::from(fullest::sheet(p, k, out))
}

// page::rows: count is the rows.
#[unsafe(no_mangle)]
pub extern "C" fn families_page_rows(sheet: &[u8], lines: &[u8]) -> Outcome
    ensures { Shows (λ a. RowsMeets sheet.now lines.now a) result }
{
    Outcome::from(page::rows(sheet, lines))
}

// page::write: count is the rows.
#[unsafe(no_mangle)]
pub extern "C" fn families_page(sheet: &[u8], lines: &[u8], out: &mut [u8]) -> Outcome
    ensures { Shows (λ a. PageMeets sheet.now lines.now out.old a out.new) result }
{
    Outcome::from(page::write(sheet, lines, out))
}

// meeting_sequential::meet: count is the weight, 0 for never.
#[unsafe(no_mangle)]
pub extern "C" fn families_meeting_sequential(
    sheet: &[u8],
    k: usize,
    a: u64,
    b: u64,
    sets: &mut [u64],
    entries: &mut [u32],
    smallest: &mut [u64],
    unions: &mut [u64],
) -> Outcome
    ensures { ShowsMeeting (λ m. MeetingMeets sheet.now k a b (lent sets.old entries.old smallest.old unions.old) (enough (length entries.old) (slots_of sheet.now k)) m (lent sets.new entries.new smallest.new unions.new)) result }
{
    let first = sets::from_word(a);
    let second = sets::from_word(b);
    let mut tables = Lent {
        sets,
        entries,
        smallest,
        unions,
    };
    let met = meeting_sequential::meet(sheet, k, first, second, &mut tables);
    Outcome::from(met)
}

// meeting_maximal::meet: count is the weight, 0 for never.
#[unsafe(no_mangle)]
pub extern "C" fn families_meeting_maximal(
    sheet: &[u8],
    k: usize,
    a: u64,
    b: u64,
    sets: &mut [u64],
    entries: &mut [u32],
    smallest: &mut [u64],
    unions: &mut [u64],
) -> Outcome
    ensures { ShowsMeeting (λ m. MeetingMeets sheet.now k a b (lent sets.old entries.old smallest.old unions.old) (levels_fit sheet.now k (length entries.old)) m (lent sets.new entries.new smallest.new unions.new)) result }
{
    let first = sets::from_word(a);
    let second = sets::from_word(b);
    let mut tables = Lent {
        sets,
        entries,
        smallest,
        unions,
    };
    let met = meeting_maximal::meet(sheet, k, first, second, &mut tables);
    Outcome::from(met)
}

// merge_tree::lines: count is the lines.
#[unsafe(no_mangle)]
pub extern "C" fn families_tree(
    sheet: &[u8],
    k: usize,
    sets: &mut [u64],
    entries: &mut [u32],
    smallest: &mut [u64],
    unions: &mut [u64],
    out: &mut [u8],
) -> Outcome
    ensures { Shows (λ a. TreeMeets sheet.now k (lent sets.old entries.old smallest.old unions.old) out.old a (lent sets.new entries.new smallest.new unions.new) out.new) result }
{
    let mut tables = Lent {
        sets,
        entries,
        smallest,
        unions,
    };
    Outcome::from(merge_tree::lines(sheet, k, &mut tables, out))
}
