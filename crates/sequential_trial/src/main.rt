#![tactic(auto)]

// Runs start, insert, taking back, the listing now and the listing of a sheet as the script in the file stdin says, on document 01's small sheets and with
// refusals in between, and prints what they answer: held to the file stdout. A line's numbers are the slots of the tables, those of the last table and k, then
// the threshold and the bytes of the output, or the part count, the bytes of the output and where the links stand among the bytes, a link from part 255 for
// a taking back; of a line with tables that are not the state's, an entry, what it is set to, the slots of each table, and the entries of the journal.
use answers::{Answer, Fault, Refusal};
use runs::Method;
use sequential::Link;
use slots::Lent;
use states::State;
use std::{fmt, io};
use trial::{Left, Lengths, Listed, Refused, Row, Tables};

// ---- a state with tables that are not its own

// A refusal by 11, 12 or 20; otherwise only that the call ended, since its answer is free.
#[derive(Clone, Copy)]
struct Ended(Answer);

impl fmt::Display for Ended {
    fn fmt<W: fmt::Write>(&self, f: &mut fmt::Formatter<W>) -> fmt::Result {
        match self.0 {
            Err(
                r @ Refusal {
                    fault: Fault::Tables | Fault::State | Fault::Journal,
                    ..
                },
            ) => write!(f, "{}", Refused(r)),
            _ => f.write_str("ended"),
        }
    }
}

// Tables that no steps have left: an entry and what it is set to, the slots of each table, and the entries of the journal.
#[derive(Clone, Copy)]
struct Spoiled {
    entry: usize,
    value: u16,
    slots: Lengths,
    journal: usize,
}

impl Spoiled {
    fn tables(self) -> Tables<8> {
        let mut entries = [0, 0, 2, 1, 3, 5, 2, 0];
        entries[self.entry.min(7)] = u32::from(self.value);
        Tables {
            sets: [0, 3, 3, 18446744073709551615, 5, 9, 17, 6],
            entries,
            smallest: [7, 0, 1, 1, 9223372036854775808, 0, 28, 5],
            unions: [0, 18446744073709551615, 2, 7, 7, 4, 28, 1],
        }
    }

    // A call in these tables and this journal.
    fn lend<F: Fn(&mut Lent, &mut [u64]) -> Answer>(self, call: F) -> Ended
        requires { F.IsAlwaysCallable call }
    {
        let mut space = self.tables();
        let mut journal = [7u64; 2017];
        let mut tables = space.lend(self.slots);
        Ended(call(&mut tables, &mut journal[..self.journal.min(2017)]))
    }
}

// Each call on such tables.
fn each_call(rt: &impl Print, spoiled: Spoiled, state: State) -> io::Result<()> {
    let link = Link {
        low: 1,
        high: 3,
        weight: 2,
    };
    let insert = spoiled.lend(|tables, journal| {
        sequential::insert(state, tables, journal, link).answer
    });
    let back = spoiled.lend(|tables, journal| {
        sequential::take_back(state, tables, journal).answer
    });
    let now = spoiled.lend(|tables, _| {
        sequential::listing_now(state, tables.view(), &mut [b'.'; 40])
    });
    println!(rt; ": insert {insert}, taking back {back}, listing now {now}")
}

// ---- a call in tables that hold nothing but 9

// The slots of the tables and of the last one, and the bytes of the output.
#[derive(Clone, Copy)]
struct Space {
    slots: usize,
    last: usize,
    out: usize,
}

impl Space {
    fn lengths(self) -> Lengths {
        Lengths::with_last(self.slots, self.last)
    }
}

// The listing of a sheet.
fn listing(rt: &impl Print, space: Space, k: usize, t: usize, sheet: &[u8]) -> io::Result<()> {
    print!(rt; ", slots {}, listing k {k} t {t}: ", space.slots)?;
    let mut slots = Tables::<32>::filled(9);
    let mut tables = slots.lend(space.lengths());
    let mut out = [b'.'; 40];
    let out = &mut out[..space.out.min(40)];
    let t = trial::small(t);
    let answer = sheet_listing::listing(Method::Sequential, sheet, k, t, &mut tables, out);
    println!(rt; "{}{}", Listed(answer, out), Left(tables.view()))
}

// Steps from links, four bytes each. Gives back the last state.
fn steps(rt: &impl Print, space: Space, p: usize, k: usize, links: &[u8]) -> io::Result<State> {
    println!(rt; ", slots {}", space.slots)?;
    let mut slots = Tables::<32>::filled(9);
    let mut tables = slots.lend(space.lengths());
    let mut out = [b'.'; 40];
    let out = &mut out[..space.out.min(40)];
    step_rows::steps(rt, p, k, links, &mut tables, out)
}

// ---- the script

#[derive(Clone, Copy)]
enum Call {
    Listing {
        space: Space,
        k: usize,
        t: usize,
    },
    Steps {
        space: Space,
        p: usize,
        k: usize,
        from: usize,
        to: usize,
    },
    Tables(Spoiled),
}

impl From<&[u8]> for Call {
    // By the first letter of a line's call. Any letter that is neither of the first two asks for steps.
    fn from(line: &[u8]) -> Call {
        let [a, b, c, d, e, f, g] = trial::numbers(line);
        let space = Space {
            slots: a,
            last: b,
            out: e,
        };
        match trial::call(line) {
            b'l' => Call::Listing { space, k: c, t: d },
            b't' => Call::Tables(Spoiled {
                entry: a,
                value: trial::small(b),
                slots: Lengths {
                    sets: c,
                    entries: d,
                    smallest: e,
                    unions: f,
                },
                journal: g,
            }),
            _ => Call::Steps {
                space,
                p: d,
                k: c,
                from: f,
                to: g,
            },
        }
    }
}

// A line's call on the bytes that another line spells. Gives back the state for the next line: only steps leave another one.
fn row(rt: &impl Print, row: Row, state: State) -> io::Result<State> {
    rt.write_all(trial::label(row.line))?;
    let mut space = [0u8; 256];
    let n = trial::spelled(row.bytes, &mut space);
    let bytes = &space[..n];
    match Call::from(row.line) {
        Call::Listing { space, k, t } => listing(rt, space, k, t, bytes)?,
        Call::Tables(spoiled) => each_call(rt, spoiled, state)?,
        Call::Steps {
            space,
            p,
            k,
            from,
            to,
        } => return steps(rt, space, p, k, trial::part(bytes, from, to)),
    }
    Ok(state)
}

fn run(rt: &impl Print, script: &[u8]) -> io::Result<()> {
    let mut state = State {
        p: 0,
        k: 0,
        used: 0,
        last: 0,
        links: 0,
        rows: sets::no_rows(),
    };
    for one in trial::rows(script) {
        state = row(rt, one, state)?;
    }
    Ok(())
}

// Nothing is said where standard output takes no more.
fn main(rt: HostRuntime) {
    let mut input = [0u8; 8192];
    let n = trial::read(&mut input);
    let _ = run(&rt, &input[..n]);
}
