#![tactic(auto)]

// C(n, r), the number of r-part subsets of n parts, by the product formula, and the slot bound.
ghost use Rattle.std.specs.Prelude.{◌≡◌, ◌≤◌};
ghost use Rattle.answers.specs.Answers.{says, say_of};
ghost use Rattle.subsets.specs.Subsets.{subset_count, table_count, slot_bound, check_bound};

use answers::{Answer, Fault};

// C(n, r) as n (n - 1) .. (n - r + 1) / r!, divided step by step: what is divided is a multiple each time.
fn product(n: usize, r: usize) -> usize
    requires { (r ≤ n) × (n ≤ 256) × (r ≤ 6) }
    ensures { result ≡ subset_count n r }
{
    let mut c = 1;
    // No fold: a closure knows nothing of what came before, and so not that the product stays in a word.
    for i in 0..r {
        c = c * (n - i) / (i + 1);
    }
    c
}

// C(n, r) for n 0 to 64 and r 0 to 6, and 0 outside.
pub fn subset_count(n: usize, r: usize) -> usize
    ensures { result ≡ table_count n r }
{
    if 64 < n {
        return 0;
    }
    if 6 < r {
        return 0;
    }
    if n < r {
        return 0;
    }
    product(n, r)
}

// The slots that suffice for p parts and k: C(p, k-1) if p is at least k, else 0.
pub fn slot_bound(p: usize, k: usize) -> Answer
    ensures { says result ≡ say_of (check_bound p k) (slot_bound p k) }
{
    answers::require(checks::good_count(p), Fault::PartCount, 0)?;
    answers::require(checks::good_k(k), Fault::CliqueSize, 0)?;
    if p < k {
        return Ok(0);
    }
    Ok(subset_count(p, k - 1))
}
