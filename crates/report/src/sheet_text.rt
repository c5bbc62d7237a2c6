// `show`: a sheet as the text that `pack` reads.
use crate::names::name;
use crate::refusal::tell;
use checks::Link;
use console::{Counted, Stopped};
use sheet::Counts;
use std::io;

fn part_lines(rt: &impl Print, s: &[u8], p: usize) -> io::Result<()> {
    for q in 0..p {
        println!(rt; "part {}", name(s, q))?;
    }
    Ok(())
}

fn link_lines(rt: &impl Print, s: &[u8]) -> io::Result<()> {
    for j in 0..sheet::link_count(s) {
        let Link { low, high, weight } = sheet::link(s, j);
        println!(rt; "link {} {} {weight}", name(s, low), name(s, high))?;
    }
    Ok(())
}

pub fn show(rt: &(impl Print + Eprint), s: &[u8]) -> Result<(), Stopped> {
    let Counts { parts, links } = sheet::check(s).map_err(|refusal| tell(rt, s, refusal))?;
    println!(rt; "# {}, {}", Counted(parts, "part"), Counted(links, "link"))?;
    part_lines(rt, s, parts)?;
    link_lines(rt, s)?;
    Ok(())
}
