#![tactic(auto)]

// A dialogue on standard input and output: parts and links typed line by line, each answered at once, so that a planner can type, look and take back. It works
// on the steps of the sequential run. No contract says which bytes are read or written; stored dialogues do.
mod dialogue;
mod limits;
mod links;
mod parts;
mod replies;
mod steps;

pub use dialogue::run;
use slots::Lent;
use states::State;

// What goes from line to line: the clique size, the parts typed so far, the tables and the journal of the steps, and their state once they have been
// started with all parts.
#[derive(Drop)]
struct Session<'a, 't> {
    k: usize,
    parts: &'a mut [u8],
    tables: &'a mut Lent<'t>,
    journal: &'a mut [u64],
    state: Option<State>,
}
