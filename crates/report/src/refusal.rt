// A refusal in words, with this program's number of slots, and where these are too few with the number that the call takes.
use crate::asked::Asked;
use crate::limits::SLOTS;
use answers::{Fault, Refusal};
use console::{Stopped, refuse};

pub fn tell(rt: &impl Eprint, s: &[u8], refusal: Refusal) -> Stopped {
    console::tell(rt, s, refusal, SLOTS)
}

// A refusal of a call that counts the slots of the sequential run.
pub fn tell_run(rt: &impl Eprint, s: &[u8], asked: Asked, refusal: Refusal) -> Stopped {
    if refusal.fault != Fault::Slots {
        return tell(rt, s, refusal);
    }
    match needs::of_sheet(s, asked.k, asked.t) {
        Ok(needed) => {
            let n = needed.slots;
            refuse(
                rt,
                refusal,
                format_args!("this takes {n} slots, more than the {SLOTS} of this program"),
            )
        }
        Err(_) => tell(rt, s, refusal),
    }
}
