// A refusal in words: its number, its place, the part or the link that the place belongs to, and what is wrong.
use crate::Stopped;
use answers::{Fault, Refusal};
use std::fmt;

// Tells a refusal in these words.
pub fn refuse(rt: &impl Eprint, refusal: Refusal, words: impl fmt::Display + Drop) -> Stopped {
    let Refusal { fault, place } = refusal;
    let _ = eprintln!(rt; "refused {} at {place}: {words}", u8::from(fault));
    Stopped::Told
}

// Fault 15.
#[derive(Clone, Copy)]
pub struct FewSlots(pub usize);

impl fmt::Display for FewSlots {
    fn fmt<W: fmt::Write>(&self, f: &mut fmt::Formatter<W>) -> fmt::Result {
        let slots = self.0;
        write!(f, "this takes more than the {slots} slots of this program")
    }
}

// Whose place it is: parts are counted from 0, as they are in the sheet, links from 1.
fn owner(s: &[u8], refusal: Refusal) -> Option<(&'static str, usize)> {
    let Refusal { fault, place } = refusal;
    match fault {
        Fault::Name | Fault::NameAgain => {
            (sheet::name_at(s, 0) <= place).then_some(("part", sheet::part_of(s, place)))
        }
        Fault::LinkParts | Fault::NoWeight | Fault::Rising | Fault::LinkAgain => {
            (sheet::link_at(s, 0) <= place).then_some(("link", sheet::link_of(s, place) + 1))
        }
        _ => None,
    }
}

// What is wrong with a sheet or a call; nothing of a fault that neither has.
fn words(fault: Fault) -> &'static str {
    match fault {
        Fault::Mark => "no link sheet: it does not begin with PLS",
        Fault::Version => "the version is not 1",
        Fault::Length => "the length does not fit the part count and the link count",
        Fault::PartCount => "the part count must be 1 to 64",
        Fault::Name => "a name must be 1 to 8 visible characters, then spaces",
        Fault::LinkParts => "a link must have two parts of the sheet, the lower one first",
        Fault::NoWeight => "the weight is 0",
        Fault::Rising => "the weight is above that of the link before",
        Fault::LinkAgain => "this pair of parts was given before",
        Fault::CliqueSize => "k must be 2 to 6",
        Fault::Tables => "the tables are of unequal length",
        Fault::State => "the state is none that a step has left",
        Fault::NoClique => "each of the two sets must have k parts, each two of them linked",
        Fault::NoPart => "there is no part of this number",
        Fault::Space => "the answer is longer than the space for it",
        Fault::NameAgain => "a part before this one has the same name",
        _ => "",
    }
}

// A refusal of a call on the sheet s, by a program that has so many slots.
pub fn tell(rt: &impl Eprint, s: &[u8], refusal: Refusal, slots: usize) -> Stopped {
    let words = words(refusal.fault);
    match owner(s, refusal) {
        Some((what, number)) => refuse(rt, refusal, format_args!("{what} {number}: {words}")),
        None if refusal.fault == Fault::Slots => refuse(rt, refusal, FewSlots(slots)),
        None => refuse(rt, refusal, words),
    }
}

// A sheet that is longer than any that is read.
pub fn tell_long(rt: &impl Eprint, most: usize) -> Stopped {
    let refusal = Refusal {
        fault: Fault::Length,
        place: most,
    };
    refuse(
        rt,
        refusal,
        format_args!("the sheet is longer than {most} bytes"),
    )
}
