#![tactic(auto)]

// A made sheet: its links pair by pair, each put in its place among those so far at the start of three lent lists, and the sheet of names and a weight for
// each pair written.
ghost use Rattle.std.specs.Prelude.{◌≡◌, ◌≤◌, length};
ghost use Rattle.checks.specs.Model.{as_link};
ghost use Rattle.link_order.specs.Lent.{link_lists_of, SameLinks};
ghost use Rattle.sheet_writer.specs.Writing.{WriteMeets};
ghost use Rattle.made.specs.Made.{weighed, weight_at, made_network};
ghost use Rattle.made.specs.Model.{pair_at, is_pair, PairMeets, LinksStand};
ghost use Rattle.sheet_reader.specs.Reading.{HaveLength};

use answers::Answer;
use checks::{Link, pairs};
use link_order::Links;
use sheet::Network;

// Whether number i stands for a pair of parts below p: one loop over the numbers below 64 * 64 takes the pairs of at most 64 parts by lower then higher part.
#[tactic(auto, unfolding(crate::specs::Model::is_pair))]
pub fn is_pair(p: usize, i: usize) -> bool
    ensures { result ≡ is_pair p (pair_at i) }
{
    let (low, high) = pairs::ends(i);
    low < high && high < p
}

// Puts the link of a pair among the first m of three lists, as link_order has them; a pair of weight 0 has none. Answers how many links there are then:
// m where nothing was written, since the weight is 0 or a list has no room.
// m again, and no Option, where there is no room: `PairMeets` says so.
pub fn put_pair(links: &mut Links, m: usize, link: Link<u16>) -> usize
    ensures lent { SameLinks links.old links.new }
    ensures put { PairMeets (as_link link) (link_lists_of links.old) m result (link_lists_of links.new) }
{
    let linked = link.weight != 0;
    if linked {
        link_order::put(links, m, link).unwrap_or(m)
    } else {
        m
    }
}

// Puts the links of all pairs of p parts, with the weights of a table, to the start of three lists, and gives how many there are.
fn put_pairs(p: usize, table: &[u16], links: &mut Links) -> usize
    requires table { (p ≤ 64) × (length table.now ≡ 4096) }
    requires room { HaveLength 4096 links.old }
    ensures lent { SameLinks links.old links.new }
    ensures stand { LinksStand (weighed (weight_at table.now) p) (link_lists_of links.old) (link_lists_of links.new) result }
    ensures bounds { HaveLength result links.new }
{
    let mut m = 0;
    // By number: it stands for the pair.
    for i in 0..4096 {
        if is_pair(p, i) {
            // Parts below 64: the casts lose nothing, and a TryFrom would have to be unwrapped.
            let (low, high) = pairs::ends(i);
            let link = Link {
                low: low as u16,
                high: high as u16,
                weight: table[i],
            };
            m = put_pair(links, m, link);
        }
    }
    m
}

// Writes the sheet of p names and a table of weights: that of the pair q, h stands at q * 64 + h. For sister crates: their check 4 shows what is required of
// p, and the table is their own.
pub fn write_weighed(names: &[u8], p: usize, table: &[u16], out: &mut [u8]) -> Answer
    requires { (p ≤ 64) × (length table.now ≡ 4096) }
    ensures { WriteMeets (made_network names.now (weighed (weight_at table.now) p)) out.old result out.new }
{
    let mut lower = [0u16; 4096];
    let mut higher = [0u16; 4096];
    let mut weights = [0u16; 4096];
    let mut links = Links {
        lower: &mut lower,
        higher: &mut higher,
        weights: &mut weights,
    };
    let m = put_pairs(p, table, &mut links);
    let network = Network {
        names,
        lower: &lower[..m],
        higher: &higher[..m],
        weights: &weights[..m],
    };
    sheet_writer::write(network, out)
}
