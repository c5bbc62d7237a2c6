#![tactic(auto)]

// Checks, reads and writes small sheets as the script in the file stdin says, each refusal once and the orders between them, and prints what the calls answer:
// held to the file stdout. A line's numbers are a part, or the lengths of the lent lists and of the output.
use answers::{Answer, Refusal};
use link_order::Links;
use sheet::{Counts, Network};
use std::{fmt, io};
use trial::Refused;

// What a check or a read answered.
#[derive(Clone, Copy)]
struct Checked(Result<Counts, Refusal>);

impl fmt::Display for Checked {
    fn fmt<W: fmt::Write>(&self, f: &mut fmt::Formatter<W>) -> fmt::Result {
        match self.0 {
            Ok(Counts { parts, links }) => write!(f, "parts {parts} links {links} "),
            Err(r) => write!(f, "{} ", Refused(r)),
        }
    }
}

fn check(rt: &impl Print, label: &[u8], s: &[u8]) -> io::Result<()> {
    rt.write_all(label)?;
    println!(rt; ": {}", Checked(sheet::check(s)))
}

// What is found of a part's name.
fn name(rt: &impl Print, s: &[u8], part: usize) -> io::Result<()> {
    print!(rt; "name of {part} ")?;
    match sheet::name(s, part) {
        Ok(name) => {
            print!(rt; "at {} ", name.place)?;
            rt.write_all(name.bytes)?;
            println!(rt)
        }
        Err(r) => println!(rt; "{} ", Refused(r)),
    }
}

// The numbers of a list, each before a space.
#[derive(Clone, Copy)]
struct Numbers<'a, T>(&'a [T]);

impl<T: fmt::Display> fmt::Display for Numbers<'_, T> {
    fn fmt<W: fmt::Write>(&self, f: &mut fmt::Formatter<W>) -> fmt::Result {
        for n in self.0 {
            write!(f, "{n} ")?;
        }
        Ok(())
    }
}

// ---- reading

fn read(rt: &impl Print, s: &[u8], names: &mut [u8], links: &mut Links) -> io::Result<()> {
    print!(rt; "{}", Checked(sheet_reader::read(s, names, links)))?;
    rt.write_all(names)?;
    print!(rt; " {}/ ", Numbers(links.lower))?;
    print!(rt; "{}/ ", Numbers(links.higher))?;
    println!(rt; "{}/ ", Numbers(links.weights))
}

// The lengths of the lists that a sheet is read into.
#[derive(Clone, Copy)]
struct Lists {
    names: usize,
    lower: usize,
    higher: usize,
    weights: usize,
}

fn read_in(rt: &impl Print, s: &[u8], lists: Lists) -> io::Result<()> {
    let mut names = [b'.'; 32];
    let mut lower = [9u16; 4];
    let mut higher = [9u16; 4];
    let mut weights = [9u16; 4];
    let mut links = Links {
        lower: &mut lower[..lists.lower.min(4)],
        higher: &mut higher[..lists.higher.min(4)],
        weights: &mut weights[..lists.weights.min(4)],
    };
    read(rt, s, &mut names[..lists.names.min(32)], &mut links)
}

// ---- writing

#[derive(Clone, Copy)]
struct Written(Answer);

impl fmt::Display for Written {
    fn fmt<W: fmt::Write>(&self, f: &mut fmt::Formatter<W>) -> fmt::Result {
        match self.0 {
            Ok(n) => write!(f, "bytes {n} "),
            Err(r) => write!(f, "{} ", Refused(r)),
        }
    }
}

fn write(rt: &impl Print, network: Network, out: &mut [u8]) -> io::Result<()> {
    let answer = sheet_writer::write(network, out);
    println!(rt; "{}{}", Written(answer), Numbers(out))
}

// The lengths of a network's lists of links, and of the output.
#[derive(Clone, Copy)]
struct Space {
    lower: usize,
    higher: usize,
    weights: usize,
    out: usize,
}

fn write_in(rt: &impl Print, names: &[u8], space: Space) -> io::Result<()> {
    let lower: [u16; 3] = [0, 0, 0];
    let higher: [u16; 3] = [1, 2, 2];
    let weights: [u16; 3] = [300, 300, 4];
    let mut out = [b'.'; 48];
    let network = Network {
        names,
        lower: &lower[..space.lower.min(3)],
        higher: &higher[..space.higher.min(3)],
        weights: &weights[..space.weights.min(3)],
    };
    write(rt, network, &mut out[..space.out.min(48)])
}

// More links than a sheet can count: a pair stands twice.
fn many_links(rt: &impl Print) -> io::Result<()> {
    let lower = [0u16; 65536];
    let higher = [1u16; 65536];
    let weights = [7u16; 65536];
    let mut out = [b'.'; 8];
    let network = Network {
        names: b"A       B       ",
        lower: &lower,
        higher: &higher,
        weights: &weights,
    };
    write(rt, network, &mut out)
}

// ---- the script

#[derive(Clone, Copy)]
enum Call {
    Check,
    Name { part: usize },
    Read(Lists),
    Write(Space),
    ManyLinks,
}

impl From<&[u8]> for Call {
    // By the first letter of a line's call. Any letter that is none of the first four asks for many links.
    fn from(line: &[u8]) -> Call {
        let [a, b, c, d, ..] = trial::numbers(line);
        match trial::call(line) {
            b'c' => Call::Check,
            b'n' => Call::Name { part: a },
            b'r' => Call::Read(Lists {
                names: a,
                lower: b,
                higher: c,
                weights: d,
            }),
            b'w' => Call::Write(Space {
                lower: a,
                higher: b,
                weights: c,
                out: d,
            }),
            _ => Call::ManyLinks,
        }
    }
}

fn answer(rt: &impl Print, line: &[u8], s: &[u8]) -> io::Result<()> {
    match Call::from(line) {
        Call::Check => check(rt, trial::label(line), s),
        Call::Name { part } => name(rt, s, part),
        Call::Read(lists) => read_in(rt, s, lists),
        Call::Write(space) => write_in(rt, s, space),
        Call::ManyLinks => many_links(rt),
    }
}

// Each line's call on the bytes that another line spells.
fn run(rt: &impl Print, script: &[u8]) -> io::Result<()> {
    let mut space = [0u8; 600];
    for row in trial::rows(script) {
        let n = trial::spelled(row.bytes, &mut space);
        answer(rt, row.line, &space[..n])?;
    }
    Ok(())
}

// Nothing is said where standard output takes no more.
fn main(rt: HostRuntime) {
    let mut input = [0u8; 8192];
    let n = trial::read(&mut input);
    let _ = run(&rt, &input[..n]);
}
