#![tactic(auto)]

// The rows that sequential_trial prints of a start, of inserts and takings back, and of the listing now: what each was answered and what became of the tables.
// No contract can say which bytes are written: a stored output does.
ghost use Rattle.std.specs.Prelude.{◌≡◌, length};

use answers::Answer;
use sequential::{Link, Stepped};
use slots::Lent;
use states::State;
use std::{fmt, io};
use trial::{Left, Listed, Refused};

// One link more, or the last one taken back, for which a script has a link from part 255.
// An enum, since it is read from a script.
#[derive(Clone, Copy, Debug, PartialEq, Eq)]
enum Step {
    Insert(Link),
    TakeBack,
}

impl From<Link> for Step {
    fn from(link: Link) -> Step {
        if link.low == 255 {
            Step::TakeBack
        } else {
            Step::Insert(link)
        }
    }
}

impl fmt::Display for Step {
    fn fmt<W: fmt::Write>(&self, f: &mut fmt::Formatter<W>) -> fmt::Result {
        match *self {
            Step::Insert(Link { low, high, weight }) => write!(f, "{low}-{high} of {weight}"),
            Step::TakeBack => f.write_str("taken back"),
        }
    }
}

impl Step {
    // A link of four bytes, as in a sheet.
    fn of_bytes(link: &[u8]) -> Step
        requires { length link.now ≡ 4 }
    {
        Step::from(Link {
            low: usize::from(link[0]),
            high: usize::from(link[1]),
            weight: u16::from_be_bytes([link[2], link[3]]),
        })
    }

    fn run(self, state: State, tables: &mut Lent, journal: &mut [u64]) -> Stepped {
        match self {
            Step::Insert(link) => sequential::insert(state, tables, journal, link),
            Step::TakeBack => sequential::take_back(state, tables, journal),
        }
    }
}

#[derive(Clone, Copy)]
struct Answered(Answer);

impl fmt::Display for Answered {
    fn fmt<W: fmt::Write>(&self, f: &mut fmt::Formatter<W>) -> fmt::Result {
        match self.0 {
            Ok(_) => f.write_str("accepted"),
            Err(r) => write!(f, "{}", Refused(r)),
        }
    }
}

// A start.
fn begin(
    rt: &impl Print,
    p: usize,
    k: usize,
    tables: &mut Lent,
    journal: &mut [u64],
) -> io::Result<State> {
    let Stepped { answer, state } = sequential::start(p, k, tables, journal);
    println!(rt;
        "start p {p} k {k}: {}{}",
        Answered(answer),
        Left(tables.view())
    )?;
    Ok(state)
}

// What became of a step, and whether the tables are as they were. What they hold after an accepted one is open.
#[derive(Clone, Copy)]
struct Became {
    step: Step,
    answer: Answer,
    as_before: bool,
}

impl fmt::Display for Became {
    fn fmt<W: fmt::Write>(&self, f: &mut fmt::Formatter<W>) -> fmt::Result {
        let Became {
            step,
            answer,
            as_before,
        } = *self;
        let tables = match answer {
            Ok(_) => "",
            Err(_) if as_before => ", tables as before",
            Err(_) => ", tables written",
        };
        write!(f, "{step}: {}{tables}", Answered(answer))
    }
}

// An entry of the journal, as the link that it stands for.
fn in_journal(journal: &[u64], i: usize) -> Step {
    Step::from(journal::link_of(journal::at(journal, i)))
}

// What remains after a step: how many links, the last weight, the slots in use, and the entries of the journal around the last link's.
fn remains(rt: &impl Print, state: State, journal: &[u64]) -> io::Result<()> {
    let State {
        links,
        last,
        used,
        ..
    } = state;
    print!(rt; "links {links}, last {last}, slots {used}")?;
    if 0 < links {
        print!(rt; ", journal {}", in_journal(journal, links - 1))?;
    }
    println!(rt; ", then {}", in_journal(journal, links))
}

// The row of a step.
fn row(
    rt: &impl Print,
    step: Step,
    state: State,
    tables: &mut Lent,
    journal: &mut [u64],
) -> io::Result<State> {
    let before = trial::copied(0, tables.view());
    let Stepped { answer, state } = step.run(state, tables, journal);
    // Only of a refused step is it told.
    let as_before = answer.is_err() && trial::same(&before, &trial::copied(0, tables.view()));
    println!(rt;
        "{}",
        Became {
            step,
            answer,
            as_before,
        }
    )?;
    if step == Step::TakeBack {
        remains(rt, state, journal)?;
    }
    Ok(state)
}

// Steps of four bytes each.
fn inserts(
    rt: &impl Print,
    start: State,
    links: &[u8],
    tables: &mut Lent,
    journal: &mut [u64],
) -> io::Result<State> {
    let mut state = start;
    for link in links.chunks_exact(4) {
        state = row(rt, Step::of_bytes(link), state, tables, journal)?;
    }
    Ok(state)
}

// A start, inserts and takings back, and the listing now. Gives back the last state.
pub fn steps(
    rt: &impl Print,
    p: usize,
    k: usize,
    links: &[u8],
    tables: &mut Lent,
    out: &mut [u8],
) -> io::Result<State> {
    let mut journal = [9u64; 2016];
    let start = begin(rt, p, k, tables, &mut journal)?;
    let state = inserts(rt, start, links, tables, &mut journal)?;
    let answer = sequential::listing_now(state, tables.view(), out);
    println!(rt; "listing now: {}", Listed(answer, out))?;
    Ok(state)
}
