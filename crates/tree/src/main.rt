#![tactic(auto)]

// The tree program: reads a sheet from standard input, takes k 3, and writes the rows of its merge tree, or one refusal.
use answers::{Fault, Refusal};
use sets::word;
use sheet::Counts;
use std::io;
use tree_lines::Line;
use trial::{Lengths, Refused, Tables};

fn refused(rt: &impl Print, r: Refusal) -> io::Result<()> {
    println!(rt; "{}", Refused(r))
}

// A line's fields, its number first.
fn row(rt: &impl Print, line: Line, n: usize) -> io::Result<()> {
    let Line {
        weight,
        joins,
        into,
        small,
        whole,
    } = line;
    print!(rt; "line {n} weight {weight} joins {joins} into {into} ")?;
    println!(rt; "smallest {} parts {}", word(small), word(whole))
}

fn rows(rt: &impl Print, out: &[u8], lines: usize) -> io::Result<()> {
    let all = out.chunks_exact(tree_lines::line_length());
    for (line, n) in all.take(lines).zip(1..) {
        row(rt, Line::from(line), n)?;
    }
    Ok(())
}

fn head(rt: &impl Print, s: &[u8]) -> io::Result<()> {
    match sheet::check(s) {
        Ok(Counts { parts, links }) => println!(rt; "parts {parts} links {links}"),
        Err(r) => refused(rt, r),
    }
}

// Tables of 1,024 slots, and space for 700 lines of 26 bytes, which such tables never exceed.
fn show(rt: &impl Print, s: &[u8]) -> io::Result<()> {
    let mut space = Tables::<1024>::filled(0);
    let mut tables = space.lend(Lengths::with_last(1024, 1024));
    let mut out = [0u8; 18200];
    match merge_tree::lines(s, 3, &mut tables, &mut out) {
        Ok(n) => {
            head(rt, s)?;
            rows(rt, &out, n)?;
            println!(rt; "end {n}")
        }
        Err(r) => refused(rt, r),
    }
}

fn run(rt: &impl Print, input: &[u8]) -> io::Result<()> {
    if 65536 < input.len() {
        let (fault, place) = (Fault::Length, 65536);
        return refused(rt, Refusal { fault, place });
    }
    show(rt, input)
}

// Nothing is said where standard output takes no more.
fn main(rt: HostRuntime) {
    let mut input = [0u8; 65537];
    let n = trial::read(&mut input);
    let _ = run(&rt, &input[..n]);
}
