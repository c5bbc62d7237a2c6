// `tree`: the merge tree of a sheet, a line for each of its lines.
use crate::heads::{Head, LINE};
use crate::names::Names;
use console::Counted;
use std::io;
use tree_lines::Line;

fn row(rt: &impl Print, s: &[u8], line: Line, number: usize) -> io::Result<()> {
    print!(rt; "line {number}, weight {}", line.weight)?;
    match line.joins {
        0 => print!(rt; ", new")?,
        joins => print!(rt; ", joins {}", Counted(joins, "line"))?,
    }
    match line.into {
        0 => {}
        into => print!(rt; ", goes into line {into}")?,
    }
    println!(rt; ":{}", Names(s, line.whole))
}

// By number, as `line_at` reads them.
fn rows(rt: &impl Print, s: &[u8], lines: &[u8]) -> io::Result<()> {
    for i in 0..tree_lines::line_count(lines) {
        row(rt, s, tree_lines::line_at(lines, i), i + 1)?;
    }
    Ok(())
}

pub fn tree(rt: &impl Print, s: &[u8], k: usize, lines: &[u8]) -> io::Result<()> {
    let n = tree_lines::line_count(lines);
    println!(rt; "{}", Head(n, LINE, k))?;
    rows(rt, s, lines)
}
