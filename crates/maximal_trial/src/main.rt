#![tactic(auto)]

// Runs the listing by maximal cliques and the meeting weight by both runs as the script in the file stdin says, on document 01's small sheets and with
// refusals, and prints what they answer: held to the file stdout. A line's numbers are the slots of the tables, those of the last table and k, then the
// threshold and the bytes of the output, or the two sets.
use meeting::Met;
use runs::Method;
use slots::Lent;
use std::{fmt, io};
use trial::{Left, Lengths, Listed, Refused, Tables};

// The listing at a threshold in so many bytes, or the meeting weight of two sets by either run.
#[derive(Clone, Copy)]
enum Call {
    Listing { t: usize, bytes: usize },
    Sequential { a: u64, b: u64 },
    Maximal { a: u64, b: u64 },
}

impl From<&[u8]> for Call {
    // By the first letter of a line's call. Any letter that is none of the first two asks for the maximal-clique run. The casts keep all: no From leads from a
    // usize to a u64.
    fn from(line: &[u8]) -> Call {
        let [_, _, _, x, y, ..] = trial::numbers(line);
        match trial::call(line) {
            b'l' => Call::Listing { t: x, bytes: y },
            b's' => Call::Sequential {
                a: x as u64,
                b: y as u64,
            },
            _ => Call::Maximal {
                a: x as u64,
                b: y as u64,
            },
        }
    }
}

impl fmt::Display for Call {
    fn fmt<W: fmt::Write>(&self, f: &mut fmt::Formatter<W>) -> fmt::Result {
        match *self {
            Call::Listing { t, .. } => write!(f, "t {t}"),
            Call::Sequential { a, b } => write!(f, "{a} and {b}, sequential"),
            Call::Maximal { a, b } => write!(f, "{a} and {b}, maximal"),
        }
    }
}

fn listing(
    rt: &impl Print,
    sheet: &[u8],
    k: usize,
    t: u16,
    tables: &mut Lent,
    out: &mut [u8],
) -> io::Result<()> {
    let answer = sheet_listing::listing(Method::Maximal, sheet, k, t, tables, out);
    print!(rt; "{}", Listed(answer, out))
}

fn met(rt: &impl Print, met: Met) -> io::Result<()> {
    match met {
        Ok(Some(w)) => print!(rt; "meet at {w}"),
        Ok(None) => print!(rt; "never"),
        Err(r) => print!(rt; "{}", Refused(r)),
    }
}

fn answer(
    rt: &impl Print,
    call: Call,
    sheet: &[u8],
    k: usize,
    tables: &mut Lent,
) -> io::Result<()> {
    match call {
        Call::Listing { t, bytes } => {
            let mut out = [b'.'; 40];
            let out = &mut out[..bytes.min(40)];
            listing(rt, sheet, k, trial::small(t), tables, out)
        }
        Call::Sequential { a, b } => {
            let (a, b) = (sets::from_word(a), sets::from_word(b));
            met(rt, meeting_sequential::meet(sheet, k, a, b, tables))
        }
        Call::Maximal { a, b } => {
            let (a, b) = (sets::from_word(a), sets::from_word(b));
            met(rt, meeting_maximal::meet(sheet, k, a, b, tables))
        }
    }
}

// A line's call on a sheet, in tables that hold nothing but 9.
fn row(rt: &impl Print, line: &[u8], sheet: &[u8]) -> io::Result<()> {
    let [slots, last, k, ..] = trial::numbers(line);
    let call = Call::from(line);
    rt.write_all(trial::label(line))?;
    print!(rt; ", k {k}, slots {slots}, {call}: ")?;
    let mut space = Tables::<1000>::filled(9);
    let mut tables = space.lend(Lengths::with_last(slots, last));
    answer(rt, call, sheet, k, &mut tables)?;
    println!(rt; "{}", Left(tables.view()))
}

// The calls of a script, each on the sheet that a line before it spells.
fn rows(rt: &impl Print, script: &[u8]) -> io::Result<()> {
    let mut space = [0u8; 256];
    for call in trial::rows(script) {
        let n = trial::spelled(call.bytes, &mut space);
        row(rt, call.line, &space[..n])?;
    }
    Ok(())
}

// 64 parts in 21 groups of three and one single, all linked across groups: 1,953 links of weight 4.
fn groups() -> [u8; 8332] {
    let mut s = [65u8; 8332];
    s[..8].copy_from_slice(b"PLS\0\x01\x40\x07\xa1");
    // each part's name begins with a sign of its own
    for (name, sign) in s[8..520].chunks_exact_mut(8).zip(33..) {
        name[0] = sign;
    }
    links(&mut s[520..]);
    s
}

// The links of the groups, as many as there is room for.
fn links(s: &mut [u8]) {
    let (links, _) = s.as_chunks_mut::<4>();
    let pairs = (0..64u8).flat_map(|low| (0..64u8).map(move |high| (low, high)));
    let across = pairs.filter(|(low, high)| low / 3 < high / 3);
    for (link, (low, high)) in links.iter_mut().zip(across) {
        *link = [low, high, 0, 4];
    }
}

fn run(rt: &impl Print, script: &[u8]) -> io::Result<()> {
    rows(rt, script)?;
    let many = groups();
    row(rt, b"groups of three: listing 1000 1000 3 4 40", &many)?;
    row(rt, b"groups of three: sequential 1000 1000 3 73 146", &many)?;
    row(rt, b"groups of three: maximal 1000 1000 3 73 146", &many)
}

// Nothing is said where standard output takes no more.
fn main(rt: HostRuntime) {
    let mut input = [0u8; 8192];
    let n = trial::read(&mut input);
    let _ = run(&rt, &input[..n]);
}
