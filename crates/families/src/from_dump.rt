// `from-dump`: a sensor dump as a sheet on standard output.
use crate::limits::{DUMP_SPACE, LARGEST_SHEET, LONGEST_DUMP};
use answers::{Fault, Refusal};
use console::{Stopped, refuse};
use report::tell;
use std::env::Env;
use std::fs::Files;

// 17, which is three things by its place; of a dump that is too long for any count no more is read than shows it.
fn tell_form(rt: &impl Eprint, refusal: Refusal) -> Stopped {
    match refusal.place {
        0 => refuse(rt, refusal, "no sensor dump: it does not begin with PRD"),
        3 => refuse(rt, refusal, "the version is not 1"),
        place if LONGEST_DUMP < place => refuse(
            rt,
            refusal,
            format_args!("the dump is longer than {LONGEST_DUMP} bytes"),
        ),
        _ => refuse(
            rt,
            refusal,
            "the length does not fit the part count and the row count",
        ),
    }
}

// Rows are counted from 1. A dump's names stand where a sheet's do, so that the other faults are told as those of a sheet.
fn tell_dump(rt: &impl Eprint, d: &[u8], refusal: Refusal) -> Stopped {
    match refusal.fault {
        Fault::Dump => tell_form(rt, refusal),
        Fault::DumpRow => {
            let row = dump::row_of(d, refusal.place) + 1;
            refuse(
                rt,
                refusal,
                format_args!("row {row}: a part that the dump does not have"),
            )
        }
        _ => tell(rt, d, refusal),
    }
}

// The two sums that must be equal, for the eye: the weights of the sheet, and the pairs of parts of every row.
fn tell_sums(rt: &impl Eprint, d: &[u8], sheet: &[u8]) {
    let weights = dump::weight_sum(sheet);
    let pairs = dump::pair_sum(d);
    let _ = eprintln!(rt; "sum of the weights {weights}, pairs in the rows {pairs}");
}

// The sums are told also where standard output takes no more, which is told before them.
#[inline(never)]
fn make(rt: &(impl Print + Eprint), d: &[u8]) -> Result<(), Stopped> {
    let mut out = [0u8; LARGEST_SHEET];
    let n = dump::sheet(d, &mut out).map_err(|refusal| tell_dump(rt, d, refusal))?;
    let sheet = &out[..n.min(LARGEST_SHEET)];
    console::end(rt, rt.write_all(sheet).map_err(Stopped::Output));
    tell_sums(rt, d, sheet);
    Ok(())
}

// Reads into buf, which has a byte more than a dump may have. The space is lent as an array, whose length its type says: the checker would count to it.
fn make_from(
    rt: &(impl Env + Files + Print + Eprint),
    buf: &mut [u8; DUMP_SPACE],
) -> Result<(), Stopped> {
    let n = console::last_file(rt, buf)?;
    make(rt, &buf[..n])
}

#[inline(never)]
pub fn from_dump(rt: &(impl Env + Files + Print + Eprint)) -> Result<(), Stopped> {
    let mut buf = [0u8; DUMP_SPACE];
    make_from(rt, &mut buf)
}
