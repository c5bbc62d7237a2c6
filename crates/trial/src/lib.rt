#![tactic(auto)]

// What the trial programs share: their input, a script's lines as calls, tables of a program's own, and answers, outputs and tables in words. No contract can
// say which bytes are read or written: stored outputs do.
mod input;
mod say;
mod script;
mod tables;

pub use input::read;
pub use say::{Listed, Refused, untouched};
pub use script::{Lines, Row, call, label, numbers, part, rows, small, spelled};
pub use tables::{Left, Lengths, Tables, copied, same};
