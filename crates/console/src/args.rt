// The arguments of the program.
ghost use Rattle.console.specs.Loading.{Within};

use crate::Stopped;
use std::env::{Env, FillError};

// How many there are, the program's own name among them.
pub fn arg_count(rt: &impl Env) -> usize {
    (0..usize::MAX)
        .find(|i| matches!(rt.arg(*i, &mut []), Err(FillError::NotPresent)))
        .unwrap_or(usize::MAX)
}

// Argument i at the start of buf: how many bytes it has. That there is none, or that it is longer than buf, is told by its name.
pub fn arg(rt: &(impl Env + Eprint), i: usize, name: &str, buf: &mut [u8]) -> Result<usize, Stopped>
    ensures { Within 0 result buf.new }
{
    rt.arg(i, buf).map_err(|e| {
        let why = match e {
            FillError::TooLong => "File name too long",
            FillError::NotPresent => "Invalid argument",
        };
        let _ = eprintln!(rt; "{name}: {why}");
        Stopped::Told
    })
}
