// `page`: the tree of a sheet on a page of 72 columns.
use crate::limits::{PAGE_SPACE, ROWS};
use crate::pack::put_out;
use answers::{Fault, Refusal};
use console::{Stopped, refuse};
use report::tell;

// 16 is about rows here; 24 is told by no other call.
fn tell_page(rt: &impl Eprint, s: &[u8], refusal: Refusal) -> Stopped {
    match refusal.fault {
        Fault::Space => refuse(
            rt,
            refusal,
            format_args!("the page has more than the {ROWS} rows of this program"),
        ),
        Fault::TreeLines => refuse(
            rt,
            refusal,
            "the lines are not whole, are more than 999999, or have a part that the sheet lacks",
        ),
        _ => tell(rt, s, refusal),
    }
}

// The space is lent as an array, whose length its type says: the checker would count to it.
fn put_page(
    rt: &(impl Print + Eprint),
    s: &[u8],
    lines: &[u8],
    out: &mut [u8; PAGE_SPACE],
) -> Result<(), Stopped> {
    let rows = page::write(s, lines, out).map_err(|refusal| tell_page(rt, s, refusal))?;
    put_out(rt, out, 73 * rows.min(ROWS))?;
    Ok(())
}

#[inline(never)]
pub fn print(rt: &(impl Print + Eprint), s: &[u8], tree: &[u8]) -> Result<(), Stopped> {
    let mut out = [0u8; PAGE_SPACE];
    put_page(rt, s, tree, &mut out)
}
