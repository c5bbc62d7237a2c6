// The dialogue: a line, its answer, the next line.
use crate::limits::{LINE_SPACE, LINES, PARTS_SPACE};
use crate::replies::{commands, too_long};
use crate::{Session, parts};
use console::Stopped;
use report::{LINKS, tell};
use sequential::Stepped;
use slots::Lent;
use std::io;
use std::io::Read;
use typed::{Command, Lines, command_of};

impl Session<'_, '_> {
    // `part NAME`: the steps must be started anew with it, so there must be no link.
    fn part(&mut self, rt: &impl Print, name: &[u8]) -> io::Result<()> {
        let state = self.state;
        if state.is_some_and(|state| 0 < state.links) {
            return println!(rt; "a part can be added only while there is no link");
        }
        self.state = None;
        parts::add(rt, name, self.parts)
    }
}

// Line after line, up to the most that a dialogue has.
fn lines(
    rt: &(impl Print + Eprint),
    input: &mut impl Read,
    lines: &mut Lines<'_>,
    session: &mut Session<'_, '_>,
) -> io::Result<()> {
    for _ in 0..LINES {
        let Some(next) = lines.next_line(rt, input) else {
            return println!(rt; "ended at the end of the input");
        };
        let Ok(line) = next else {
            too_long(rt)?;
            continue;
        };
        match command_of(line) {
            Command::Silent => {}
            Command::Part => session.part(rt, words::word(line, 1))?,
            Command::Link => session.link(rt, line)?,
            Command::Back => session.back(rt)?,
            Command::List => session.list(rt)?,
            Command::Quit => return println!(rt; "ended by quit"),
            Command::Unknown => commands(rt)?,
        }
    }
    println!(rt; "ended after {LINES} lines")
}

// K is tested before the first line is read, by a start with one part in the tables that are then used: 10.
fn begin(
    rt: &(impl Input + Print + Eprint),
    k: usize,
    tables: &mut Lent,
    journal: &mut [u64],
) -> Result<(), Stopped> {
    let Stepped { answer, .. } = sequential::start(1, k, tables, journal);
    answer.map_err(|refusal| tell(rt, b"", refusal))?;
    let mut parts = [0u8; PARTS_SPACE];
    let mut session = Session {
        k,
        parts: &mut parts,
        tables,
        journal,
        state: None,
    };
    let mut buf = [0u8; LINE_SPACE];
    let mut typed = Lines::new(&mut buf);
    lines(rt, &mut rt.reader(), &mut typed, &mut session)?;
    Ok(())
}

// Parts and links from standard input, answered at clique size k.
pub fn run(rt: &(impl Input + Print + Eprint), k: usize) -> Result<(), Stopped> {
    let mut journal = [0u64; LINKS];
    report::in_tables(|tables| begin(rt, k, tables, &mut journal))
}
