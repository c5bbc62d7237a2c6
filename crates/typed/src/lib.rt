#![tactic(auto)]

// Lines typed on standard input: each as it comes, and what it asks for.
mod commands;
mod input;

pub use commands::{Command, command_of};
pub use input::{Lines, TooLong};
