#![tactic(auto)]

// `strong`: the families of a sheet by clique strength, in words.
ghost use Rattle.std.specs.Prelude.{◌≡◌};
ghost use Rattle.products.specs.Products.{float_of};

use answers::{Answer, Fault, Refusal};
use clique_list::CliqueList;
use console::{Stopped, refuse};
use products::Measure;
use report::{Asked, Listing, SLOTS, families, in_tables, tell};
use std::fmt;

// Any listing: a family has two slots or more to itself, and 16 bytes.
const SPACE: usize = 8 * SLOTS;

// The call, in a clique list and tables of its own.
fn in_lists(s: &[u8], k: usize, measure: Measure, out: &mut [u8; SPACE]) -> Answer {
    let mut cliques = [0u64; SLOTS];
    let mut products = [0.0f64; SLOTS];
    let mut list = CliqueList {
        cliques: &mut cliques,
        products: &mut products,
    };
    in_tables(|tables| strength::listing(s, k, measure, &mut list, tables, out))
}

// 15 is about cliques too here; 22 and 23 are told by no other call. 23 cannot come from a number that is typed: its words stand for whoever hands on
// another measure.
fn tell_strong(rt: &impl Eprint, s: &[u8], refusal: Refusal) -> Stopped {
    match refusal.fault {
        Fault::Slots => refuse(
            rt,
            refusal,
            format_args!("this takes more than the {SLOTS} cliques or slots of this program"),
        ),
        Fault::ProductSize => refuse(rt, refusal, "a product takes k 2 to 4"),
        Fault::NotANumber => refuse(rt, refusal, "the threshold is not a number"),
        _ => tell(rt, s, refusal),
    }
}

// The head says the measure with its threshold as it was typed.
fn answer(
    rt: &(impl Print + Eprint),
    s: &[u8],
    k: usize,
    measure: Measure,
    by: impl fmt::Display + Drop,
    out: &mut [u8; SPACE],
) -> Result<(), Stopped> {
    let n = in_lists(s, k, measure, out).map_err(|refusal| tell_strong(rt, s, refusal))?;
    families(rt, Listing::new(s, k, out, n), by)?;
    Ok(())
}

// The families of cliques whose weakest link weighs t or more.
pub fn weakest(rt: &(impl Print + Eprint), s: &[u8], asked: Asked) -> Result<(), Stopped> {
    let Asked { k, t } = asked;
    let mut out = [0u8; SPACE];
    let by = format_args!(", weakest link {t} or more");
    answer(rt, s, k, Measure::Weakest(t), by, &mut out)
}

// A whole number as a float, which holds each up to 2^53 exactly. `as`, since no From leads from usize to u64.
pub fn threshold(x: usize) -> f64
    ensures { result ≡ float_of x }
{
    std::num::nearest_u64_to_f64(x as u64)
}

// The families of cliques whose product is x or more.
pub fn product(rt: &(impl Print + Eprint), s: &[u8], k: usize, x: usize) -> Result<(), Stopped> {
    let mut out = [0u8; SPACE];
    let by = format_args!(", product {x} or more");
    answer(rt, s, k, Measure::Product(threshold(x)), by, &mut out)
}
