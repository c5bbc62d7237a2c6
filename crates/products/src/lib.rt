#![tactic(auto)]

// The strength of a clique: the product of its link weights as a 64-bit float, and its weakest link, both from a table of weights by pair.
ghost use Rattle.std.specs.Prelude.{◌≡◌, min, ◌<◌};
ghost use mathlib.Core.List.{foldl};
ghost use Rattle.sets.specs.Value.{num};
ghost use Rattle.percolation.specs.Strength.{weakest_of};
ghost use Rattle.products.specs.Products.{times_of, product_of};
ghost use Rattle.products.specs.Measures.{strong_enough};
ghost use Rattle.products.specs.Model.{pair_weight, table_weights, part_weights};

use checks::pairs;
use sets::Set;

// A clique, with its product.
#[derive(Clone, Copy, Debug)]
pub struct Scored {
    pub set: Set,
    pub product: f64,
}

// What a clique is measured by, with the threshold.
#[derive(Clone, Copy, Debug)]
pub enum Measure {
    Weakest(u16),
    Product(f64),
}

// The two measures of a clique.
#[derive(Clone, Copy, Debug)]
struct Strength {
    weakest: u16,
    product: f64,
}

// v times a weight, rounded once.
// A function for its clause: `times_of` rounds once, and the theorems speak of it.
fn times(v: f64, w: u16) -> f64
    ensures { result ≡ times_of v w }
{
    v * f64::from(w)
}

// The weight of two parts, the lower first; 0 past the end.
#[tactic(auto, unfolding(crate::specs::Model::pair_weight))]
fn weight_at(weights: &[u16], q: usize, r: usize) -> u16
    requires { (q < 64) × (r < 64) }
    ensures { result ≡ pair_weight weights.now q r }
{
    weights.get(pairs::number(q, r)).copied().unwrap_or(0)
}

// The strength s with the weights of q and each part of t.
fn strength_with(weights: &[u16], q: usize, t: Set, s: Strength) -> Strength
    requires { q < 64 }
    ensures product_value { result.product ≡ foldl times_of s.product (part_weights weights.now q (num t)) }
    ensures weakest_value { result.weakest ≡ foldl min s.weakest (part_weights weights.now q (num t)) }
{
    let mut product = s.product;
    let mut weakest = s.weakest;
    for r in t.parts() {
        let w = weight_at(weights, q, r);
        product = times(product, w);
        weakest = weakest.min(w);
    }
    Strength { weakest, product }
}

// The strength of a set. The product begins at 1, which changes none.
fn strength_of(weights: &[u16], set: Set) -> Strength
    ensures product_value { result.product ≡ product_of (table_weights weights.now (num set)) }
    ensures weakest_value { result.weakest ≡ weakest_of (table_weights weights.now (num set)) }
{
    let mut strength = Strength {
        weakest: 65535,
        product: 1.0,
    };
    for (q, rest) in set.parts_with_rest() {
        strength = strength_with(weights, q, rest, strength);
    }
    strength
}

// A set with its product.
pub fn score(weights: &[u16], set: Set) -> Scored
    ensures { (result.set ≡ set) × (result.product ≡ product_of (table_weights weights.now (num set))) }
{
    let product = strength_of(weights, set).product;
    Scored { set, product }
}

// The weakest link of a set.
fn weakest(weights: &[u16], set: Set) -> u16
    ensures { result ≡ weakest_of (table_weights weights.now (num set)) }
{
    strength_of(weights, set).weakest
}

// Whether a clique is percolated: by its weakest link, which only that measure looks for, or by the product that it is held with.
pub fn strong_enough(measure: Measure, weights: &[u16], scored: Scored) -> bool
    ensures { result ≡ strong_enough measure (weakest_of (table_weights weights.now (num scored.set))) scored.product }
{
    match measure {
        Measure::Weakest(t) => {
            let set = scored.set;
            weakest(weights, set) >= t
        }
        Measure::Product(t) => scored.product >= t,
    }
}
