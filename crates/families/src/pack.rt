// `pack`: a text from standard input as a sheet on standard output.
use crate::limits::{LARGEST_SHEET, LONGEST_TEXT, TEXT_SPACE};
use answers::Refusal;
use console::{Stopped, read, refuse};
use link_order::Links;
use report::{LINKS, NAMES, line_words, tell};
use sheet::{Counts, Network};
use std::io;

// The place is the byte of the text where the line starts; lines are counted from 1.
fn tell_fault(rt: &impl Eprint, t: &[u8], refusal: Refusal) -> Stopped {
    let line = words::line_of(t, refusal.place);
    let words = line_words(refusal.fault);
    refuse(rt, refusal, format_args!("line {line}: {words}"))
}

// The first n bytes of an answer. The count comes beside the bytes: the calls answer so, for C.
pub fn put_out(rt: &impl Print, out: &[u8], n: usize) -> io::Result<()> {
    rt.write_all(&out[..n.min(out.len())])
}

// The first names and links of the lists.
fn network<'a>(counts: Counts, names: &'a [u8], links: &'a Links<'_>) -> Option<Network<'a>> {
    let Counts { parts, links: m } = counts;
    Some(Network {
        names: names.get(..parts.checked_mul(8)?)?,
        lower: links.lower.get(..m)?,
        higher: links.higher.get(..m)?,
        weights: links.weights.get(..m)?,
    })
}

#[inline(never)]
fn put_sheet(rt: &(impl Print + Eprint), network: Network<'_>) -> Result<(), Stopped> {
    let mut out = [0u8; LARGEST_SHEET];
    let n = sheet_writer::write(network, &mut out).map_err(|refusal| tell(rt, &out, refusal))?;
    put_out(rt, &out, n)?;
    Ok(())
}

#[inline(never)]
fn pack_text(rt: &(impl Print + Eprint), t: &[u8]) -> Result<(), Stopped> {
    let mut names = [0u8; NAMES];
    let mut lower = [0u16; LINKS];
    let mut higher = [0u16; LINKS];
    let mut weights = [0u16; LINKS];
    let mut links = Links {
        lower: &mut lower,
        higher: &mut higher,
        weights: &mut weights,
    };
    let counts = text::read(t, &mut names, &mut links).map_err(|refusal| tell_fault(
        rt, t, refusal,
    ))?;
    match network(counts, &names, &links) {
        Some(network) => put_sheet(rt, network),
        None => Ok(()),
    }
}

// Reads into buf, which has a byte more than a text may have. The space is lent as an array, whose length its type says: the checker would count to it.
fn pack_into(
    rt: &(impl Input + Print + Eprint),
    buf: &mut [u8; TEXT_SPACE],
) -> Result<(), Stopped> {
    let n = read(rt, &mut rt.reader(), "standard input", buf)?;
    if LONGEST_TEXT < n {
        let _ = eprintln!(rt; "the text is longer than {LONGEST_TEXT} bytes");
        return Err(Stopped::Told);
    }
    pack_text(rt, &buf[..n])
}

#[inline(never)]
pub fn pack(rt: &(impl Input + Print + Eprint)) -> Result<(), Stopped> {
    let mut buf = [0u8; TEXT_SPACE];
    pack_into(rt, &mut buf)
}
