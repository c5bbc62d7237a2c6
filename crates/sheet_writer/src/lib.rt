#![tactic(auto)]

// The writer of a link sheet: a network's lists into lent bytes.
ghost use Rattle.std.specs.Prelude.{◌≡◌, ◌+◌, ◌*◌, ◌<◌, ◌≤◌, length, drop, IsTrue};
ghost use mathlib.Core.List.{◌++◌, map, flatten};
ghost use Rattle.std.proofs.lemmas.List.Edits.{sets};
ghost use Rattle.answers.specs.Verdict.{in_order};
ghost use Rattle.answers.specs.Model.{verdict};
ghost use Rattle.checks.specs.Model.{as_link};
ghost use Rattle.sets.specs.Value.{width};
ghost use Rattle.sheet.specs.Lent.{network_in};
ghost use Rattle.sheet.specs.Sheet.{head_length, sheet_length, list_of};
ghost use Rattle.sheet_writer.specs.Writing.{
  link_in,
  links_in,
  link_bytes,
  head_bytes,
  sheet_of,
  has_shape,
  check_link_in,
  check_network,
  SameLength,
  WriteMeets,
};

use answers::{Answer, Fault, Refusal};
use checks::Link;
use sheet::Network;

#[tactic(auto, unfolding(crate::specs::Writing::has_shape))]
fn has_shape(network: Network) -> bool
    ensures value { result ≡ has_shape (network_in network.entry) }
    ensures shape { IsTrue result → SameLength network.entry }
{
    network.names.len() % 8 == 0
        && (network.higher.len() == network.lower.len()
            && network.weights.len() == network.lower.len())
}

// Link j.
#[tactic(auto, unfolding(crate::specs::Writing::link_in))]
fn link(network: Network, j: usize) -> Link
    requires { (j < length network.lower.now) × SameLength network }
    ensures { as_link result ≡ link_in (network_in network.entry) j }
{
    Link {
        low: usize::from(network.lower[j]),
        high: usize::from(network.higher[j]),
        weight: network.weights[j],
    }
}

// 6 to 9 of a network, links in order. The loop of sheet over again: one for both would take two closures and ghost functions for what they give.
fn network_links(network: Network) -> Result<(), Refusal>
    requires { (length network.names.now ≤ 8 * width) × SameLength network }
    ensures { verdict result ≡ in_order (check_link_in (network_in network.entry)) (links_in (network_in network.entry)) }
{
    let p = network.names.len() / 8;
    let mut seen = sets::no_rows();
    let mut before = 65535;
    // By number, as below: three lists that C lends.
    for j in 0..network.lower.len() {
        let l = link(network, j);
        checks::check_link(&seen, p, l, before)?;
        checks::add_link(&mut seen, l);
        before = usize::from(l.weight);
    }
    Ok(())
}

// 3 to 9 and 21 of a network.
#[tactic(auto, using(sheet::proofs::Said::in_turn, crate::proofs::Shape::named_alike), unfolding(crate::specs::Writing::check_network))]
fn check_network(network: Network) -> Result<(), Refusal>
    ensures { verdict result ≡ check_network (network_in network.entry) }
{
    answers::require(has_shape(network), Fault::Length, 0)?;
    let p = network.names.len() / 8;
    answers::require(checks::narrow_count(p), Fault::PartCount, 0)?;
    part_names::test(network.names, p, 0, 0)?;
    network_links(network)
}

// Writes the four bytes of a link at k.
fn put_link(out: &mut [u8], k: usize, link: Link)
    requires { k + 4 ≤ length out.old }
    ensures { out.new ≡ sets out.old k (link_bytes (as_link link)) }
{
    records::put::<1>(out, k, link.low);
    records::put::<1>(out, k + 1, link.high);
    records::put::<2>(out, k + 2, usize::from(link.weight));
}

// Writes the links' bytes to the start of out.
#[tactic(auto, using(crate::proofs::Written::stored_none, crate::proofs::Written::stored_more))]
fn put_links(network: Network, out: &mut [u8])
    requires shape { SameLength network }
    requires room { 4 * length network.lower.now ≤ length out.old }
    ensures { let m = length network.entry.lower.now in out.new ≡ flatten (map link_bytes (list_of (link_in (network_in network.entry)) m)) ++ drop (4 * m) out.old }
{
    let count = network.lower.len();
    // By number: the C interface lends a link in three lists.
    for j in 0..count {
        put_link(out, 4 * j, link(network, j));
    }
}

// Writes the head's eight bytes.
fn put_head(out: &mut [u8], p: usize, m: usize)
    requires { head_length ≤ length out.old }
    ensures { out.new ≡ sets out.old 0 (head_bytes p m) }
{
    out[0] = b'P';
    out[1] = b'L';
    out[2] = b'S';
    records::put::<2>(out, 3, 1);
    records::put::<1>(out, 5, p);
    records::put::<2>(out, 6, m);
}

// Writes a network's sheet to the start of out.
fn put_sheet(network: Network, out: &mut [u8])
    requires higher_len { SameLength network }
    requires lower_in_bounds { sheet_length (length network.names.now) (length network.lower.now) ≤ length out.old }
    ensures { out.new ≡ sheet_of (network_in network.entry) ++ drop (sheet_length (length network.entry.names.now) (length network.entry.lower.now)) out.old }
{
    let k = network.names.len();
    put_head(out, k / 8, network.lower.len());
    let first = sheet::head_length();
    let at = first + k;
    copying::copy(network.names, &mut out[first..at]);
    put_links(network, &mut out[at..]);
}

// Writes a network as a sheet, to the start of out: 3 to 9 and 21, then 16, all with place 0. The count is that of the bytes.
#[tactic(auto, using(sheet::proofs::Said::in_turn), unfolding(crate::specs::Writing::check_write))]
pub fn write(network: Network, out: &mut [u8]) -> Answer
    ensures { WriteMeets (network_in network.entry) out.old result out.new }
{
    check_network(network)?;
    let size = sheet::sheet_length(network.names.len(), network.lower.len());
    answers::require(size <= out.len(), Fault::Space, 0)?;
    put_sheet(network, out);
    Ok(size)
}
