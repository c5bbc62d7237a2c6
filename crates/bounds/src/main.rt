#![tactic(auto)]

// Prints the slot bound for a few part counts at each k, a row each: how many slots a run can need at most, or the refusal.
use std::io;
use trial::Refused;

fn row(rt: &impl Print, p: usize, k: usize) -> io::Result<()> {
    print!(rt; "parts {p} k {k} ")?;
    match subsets::slot_bound(p, k) {
        Ok(n) => println!(rt; "slots {n}"),
        Err(r) => println!(rt; "{}", Refused(r)),
    }
}

// A part count at each k from 1 to 7, of which the first and the last are refused.
fn rows(rt: &impl Print, p: usize) -> io::Result<()> {
    for k in 1..=7 {
        row(rt, p, k)?;
    }
    Ok(())
}

fn run(rt: &impl Print) -> io::Result<()> {
    rows(rt, 5)?;
    rows(rt, 32)?;
    rows(rt, 64)?;
    row(rt, 0, 3)?;
    row(rt, 1, 2)?;
    row(rt, 65, 9)?;
    row(rt, 18446744073709551615, 3)
}

// Nothing is said where standard output takes no more.
fn main(rt: HostRuntime) {
    let _ = run(&rt);
}
