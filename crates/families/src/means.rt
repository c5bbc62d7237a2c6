// `mean`: the mean link weight of the family of a clique, given by the names of its parts.
use crate::cliques::Named;
use console::Stopped;
use report::Asked;
use std::env::Env;

// The names stand from argument 4 on.
pub fn mean(rt: &(impl Env + Print + Eprint), s: &[u8], asked: Asked) -> Result<(), Stopped> {
    let named = Named::new(rt, s)?;
    let clique = named.clique(rt, 4..named.end)?;
    report::mean(rt, s, asked, clique)
}
