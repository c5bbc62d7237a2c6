// The calls that run on a sheet in tables: the space for them, and which run answers.
use crate::limits::SPACE;
use answers::{Answer, Fault};
use console::Stopped;
use meeting::Met;
use report::{Asked, Listing, in_tables, tell_run};
use runs::Method;
use sets::Set;

// ---- which run answers: 15 says that the second one was refused too

fn list_by(method: Method, s: &[u8], asked: Asked, out: &mut [u8; SPACE]) -> Answer {
    let Asked { k, t } = asked;
    in_tables(|tables| sheet_listing::listing(method, s, k, t, tables, out))
}

// By the maximal-clique run first, which is the faster one.
fn list(s: &[u8], asked: Asked, out: &mut [u8; SPACE]) -> Answer {
    match list_by(Method::Maximal, s, asked, out) {
        Err(refusal) if refusal.fault == Fault::Slots => {
            list_by(Method::Sequential, s, asked, out)
        }
        answer => answer,
    }
}

// By the sequential run first. Never inlined: the space of a meeting would lie under every command.
#[inline(never)]
pub fn met(s: &[u8], k: usize, a: Set, b: Set) -> Met {
    match in_tables(|tables| meeting_sequential::meet(s, k, a, b, tables)) {
        Err(refusal) if refusal.fault == Fault::Slots => {
            in_tables(|tables| meeting_maximal::meet(s, k, a, b, tables))
        }
        met => met,
    }
}

// ---- an answer in the space lent for it, or its refusal told

pub fn listing<'a>(
    rt: &impl Eprint,
    s: &'a [u8],
    asked: Asked,
    out: &'a mut [u8; SPACE],
) -> Result<Listing<'a>, Stopped> {
    let n = list(s, asked, out).map_err(|refusal| tell_run(rt, s, asked, refusal))?;
    Ok(Listing::new(s, asked.k, out, n))
}

// The lines of a tree; of a refused one the slots of all links are told.
pub fn tree<'a>(
    rt: &impl Eprint,
    s: &[u8],
    k: usize,
    out: &'a mut [u8; SPACE],
) -> Result<&'a [u8], Stopped> {
    let asked = Asked { k, t: 0 };
    let n = in_tables(|tables| merge_tree::lines(s, k, tables, out)).map_err(|refusal| tell_run(
        rt, s, asked, refusal,
    ))?;
    let end = tree_lines::line_length().saturating_mul(n).min(SPACE);
    Ok(&out[..end])
}
