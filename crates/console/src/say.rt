// Numbers of things, and complaints on standard error.

use std::fmt;
use std::io::{Error, ErrorKind, Write};

// The numbers that the system gives to a program's three streams.
pub const STDIN: i32 = 0;

pub const STDOUT: i32 = 1;

pub const STDERR: i32 = 2;

// ---- numbers of things

// A number and what there are so many of: the word in the singular gets an s where the number is not 1.
#[derive(Clone, Copy)]
pub struct Counted<'a>(pub usize, pub &'a str);

impl fmt::Display for Counted<'_> {
    fn fmt<W: fmt::Write>(&self, f: &mut fmt::Formatter<W>) -> fmt::Result {
        let Counted(n, word) = *self;
        let plural = if n == 1 { "" } else { "s" };
        write!(f, "{n} {word}{plural}")
    }
}

// ---- complaints

// An error's text, in the space lent for it.
fn error_text(e: Error, buf: &mut [u8]) -> &str {
    let room = buf.len();
    let mut rest: &mut [u8] = &mut *buf;
    let _ = write!(rest, "{e}");
    let n = room.saturating_sub(rest.len());
    str::from_utf8(&buf[..n]).unwrap_or("failed")
}

// The system's words, which an error's text has before the error's number.
fn before_number(text: &str) -> &str {
    text.split_once(" (os error ")
        .map_or(text, |(words, _)| words)
}

// Why, in the system's words.
#[derive(Clone, Copy)]
struct Words(Error);

impl fmt::Display for Words {
    fn fmt<W: fmt::Write>(&self, f: &mut fmt::Formatter<W>) -> fmt::Result {
        let mut buf = [0u8; 256];
        f.write_str(before_number(error_text(self.0, &mut buf)))
    }
}

// Why a command ends early: what went wrong was told, or standard output takes no more.
#[derive(Clone, Copy)]
pub enum Stopped {
    Told,
    Output(Error),
}

impl From<Error> for Stopped {
    fn from(e: Error) -> Stopped {
        Stopped::Output(e)
    }
}

// Tells what failed, by its name, and why.
pub fn fail(rt: &impl Eprint, name: &str, e: Error) -> Stopped {
    let _ = eprintln!(rt; "{name}: {}", Words(e));
    Stopped::Told
}

// Complains about a word that the user gave, which goes out as it came: `Eprint` takes text alone.
pub fn fail_of(rt: &impl Eprint, before: &str, word: &[u8], behind: &str) -> Stopped {
    let _ = eprint!(rt; "{before}");
    io::write_all(STDERR, word);
    let _ = eprintln!(rt; "{behind}");
    Stopped::Told
}

// Tells that standard output took no more, in the middle of an answer that goes on: no handle for standard error is at hand there.
pub fn tell_full(e: Error) {
    if e.kind() == ErrorKind::BrokenPipe {
        return;
    }
    let mut buf = [0u8; 256];
    let why = before_number(error_text(e, &mut buf));
    io::write_all(STDERR, b"standard output: ");
    io::write_all(STDERR, why.as_bytes());
    io::write_all(STDERR, b"\n");
}

// The end of a program: that standard output took no more is told, unless its reader went away, as `head` does.
pub fn end(rt: &impl Eprint, done: Result<(), Stopped>) {
    if let Err(Stopped::Output(e)) = done {
        if e.kind() != ErrorKind::BrokenPipe {
            fail(rt, "standard output", e);
        }
    }
}
