#![tactic(auto)]

// Communities as the bytes of a listing, in the order of their smallest cliques: one put in its place, and those at the ends of slots.
ghost use Rattle.std.specs.Prelude.{◌≡◌, List, ◌++◌, ℕ, ◌+◌, ◌*◌, ◌<◌, ◌≤◌, ◌^◌, length};
ghost use Rattle.answers.specs.Verdict.{accepted, written};
ghost use Rattle.sets.specs.Lists.{◌∈◌, insert_by};
ghost use Rattle.sets.specs.Value.{width, num, set_length};
ghost use Rattle.percolation.specs.Percolate.{Community, shown, listing_bytes};
ghost use Rattle.listings.specs.Listing.{WritesListing};
ghost use Rattle.listings.specs.Model.{by_small, root_slots, listed};

use answers::{Answer, Fault};
use sets::Set;
use slots::View;

// How many bytes a community has: its smallest clique, then its union.
fn community_length() -> usize
    ensures { result ≡ set_length + set_length }
{
    sets::byte_count() + sets::byte_count()
}

// Puts a community among the n of a listing, where its smallest clique belongs; those behind it move up. The output is longer than the listing, which
// grows in it: hence n. For sister crates: that there is room is what 16 shows.
pub fn put(out: &mut [u8], n: usize, small: Set, whole: Set)
    requires { n * (set_length + set_length) + (set_length + set_length) ≤ length out.old }
    ensures { (C : List Community) (x rest : List ℕ) → out.old ≡ listing_bytes C ++ x ++ rest → length C ≡ n → length x ≡ set_length + set_length
        → ((c : Community) → c ∈ C → c.small < 2 ^ width)
        → out.new ≡ listing_bytes (insert_by by_small (shown (num small) (num whole)) C) ++ rest }
{
    let size = community_length();
    let start = records::gap(out, 0, n, size, 0, small);
    sets::put_bytes(out, start, small);
    sets::put_bytes(out, start + sets::byte_count(), whole);
}

// How many of the used slots are their own ends.
fn roots(entries: &[u32], used: usize) -> usize
    ensures { result ≡ length (root_slots entries.now used) }
{
    (0..used).filter(|i| joining::is_root(entries, *i)).count()
}

// Writes what stands at the ends of the used slots, by smallest clique.
fn put_roots(tables: View, used: usize, out: &mut [u8])
    requires { length (listing_bytes (listed tables.entries.now tables.smallest.now tables.unions.now used)) ≤ length out.old }
    ensures { out.new ≡ written accepted (listing_bytes (listed tables.entry.entries.now tables.entry.smallest.now tables.entry.unions.now used)) out.old }
{
    let ends = (0..used).filter(|i| joining::is_root(tables.entries, *i));
    for (n, i) in ends.enumerate() {
        let small = sets::at(tables.smallest, i);
        put(out, n, small, sets::at(tables.unions, i));
    }
}

// The listing of what stands at the ends of the used slots: 16 where the output is too short for it, else its bytes and the number of communities. A view
// and any number of slots will do, so that no list of slots is asked for.
pub fn list_roots(tables: View, used: usize, out: &mut [u8]) -> Answer
    ensures { WritesListing (listed tables.entry.entries.now tables.entry.smallest.now tables.entry.unions.now used) out.old result out.new }
{
    let n = roots(tables.entries, used);
    answers::require(n <= out.len() / community_length(), Fault::Space, 0)?;
    put_roots(tables, used, out);
    Ok(n)
}
