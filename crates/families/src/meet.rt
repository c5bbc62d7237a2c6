// `meet`: the weight at which two cliques, given by the names of their parts, come to lie in one family.
use crate::calls::met;
use crate::cliques::Named;
use console::Stopped;
use report::{Asked, tell_run};
use std::env::Env;

// The names stand from argument 3 on, with `--` at `middle`.
pub fn meet(
    rt: &(impl Env + Print + Eprint),
    s: &[u8],
    k: usize,
    middle: usize,
) -> Result<(), Stopped> {
    let named = Named::new(rt, s)?;
    let a = named.clique(rt, 3..middle)?;
    let b = named.clique(rt, middle.saturating_add(1)..named.end)?;
    let asked = Asked { k, t: 0 };
    match met(s, k, a, b).map_err(|refusal| tell_run(rt, s, asked, refusal))? {
        Some(weight) => println!(rt; "meet at weight {weight}")?,
        None => println!(rt; "never meet")?,
    }
    Ok(())
}
