// `slots`: what a run on a sheet needs, told before it, and how many slots suffice for its part count.
use crate::asked::Asked;
use crate::limits::SLOTS;
use crate::refusal::tell;
use console::{Counted, Stopped};
use needs::Needed;
use std::io;

// The bytes of n slots: each has a set, a smallest clique and a union of eight bytes, and a joining entry of four. No sheet of 64 parts needs so many; the
// test shows that the product fits.
fn tables(rt: &impl Print, n: usize) -> io::Result<()> {
    let most = slots::most_slots();
    if most < n {
        return println!(rt; "no run uses more than {most} slots");
    }
    println!(rt;
        "tables of {}: {}",
        Counted(n, "slot"),
        Counted(28 * n, "byte")
    )
}

fn needed(rt: &impl Print, needed: Needed, asked: Asked) -> io::Result<()> {
    let Asked { k, t } = asked;
    let Needed {
        cliques,
        joins,
        slots,
    } = needed;
    print!(rt;
        "{}, {}, ",
        Counted(cliques, "clique"),
        Counted(joins, "join")
    )?;
    println!(rt; "{} at k {k}, threshold {t}", Counted(slots, "slot"))?;
    tables(rt, slots)
}

// The most that a sheet of p parts can need.
fn bounded(rt: &impl Print, p: usize, k: usize, bound: usize) -> io::Result<()> {
    println!(rt;
        "at most {} at k {k} for {}",
        Counted(bound, "slot"),
        Counted(p, "part")
    )
}

// The program's own tables, beside the n slots needed.
fn own(rt: &impl Print, n: usize) -> io::Result<()> {
    if SLOTS < n {
        return println!(rt; "this program has {SLOTS}, fewer than these {n}");
    }
    println!(rt; "this program has {SLOTS}")
}

pub fn slots(rt: &(impl Print + Eprint), s: &[u8], asked: Asked) -> Result<(), Stopped> {
    let Asked { k, t } = asked;
    let all = needs::of_sheet(s, k, t).map_err(|refusal| tell(rt, s, refusal))?;
    needed(rt, all, asked)?;
    let p = sheet::part_count(s);
    if let Ok(bound) = subsets::slot_bound(p, k) {
        bounded(rt, p, k, bound)?;
        own(rt, all.slots)?;
    }
    Ok(())
}
