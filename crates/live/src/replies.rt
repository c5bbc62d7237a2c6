// What is answered to a line in words.
use crate::limits::LONGEST_LINE;
use answers::Fault;
use console::{Counted, FewSlots};
use report::{SLOTS, line_words};
use std::io;

// A line that ends in a word as it was typed, text or not.
pub fn say_of(rt: &impl Print, words: &str, word: &[u8]) -> io::Result<()> {
    print!(rt; "{words}")?;
    rt.write_all(word)?;
    println!(rt)
}

// How many there are now.
pub fn count(rt: &impl Print, n: usize, what: &str) -> io::Result<()> {
    println!(rt; "{}", Counted(n, what))
}

pub fn too_long(rt: &impl Print) -> io::Result<()> {
    println!(rt; "the line is longer than {LONGEST_LINE} bytes")
}

pub fn commands(rt: &impl Print) -> io::Result<()> {
    println!(rt; "type part NAME, link NAME NAME WEIGHT, back, list or quit")
}

// A refusal of a step after a link of this weight. 8 and 19 are about the links typed before.
// The weight is 0 where there is no link: only `Rising` tells it, and then there is one.
pub fn refused(rt: &impl Print, fault: Fault, last: usize) -> io::Result<()> {
    print!(rt; "refused {}: ", u8::from(fault))?;
    match fault {
        Fault::Rising => println!(rt; "the weight is above {last}, that of the last link"),
        Fault::Slots => println!(rt; "{}", FewSlots(SLOTS)),
        Fault::NoLink => println!(rt; "there is no link to take back"),
        _ => println!(rt; "{}", line_words(fault)),
    }
}
