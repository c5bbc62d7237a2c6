#![tactic(auto)]

// What a call answers: a count, or a refusal with its fault and its place; and checks on the way there.
ghost use Rattle.std.specs.Prelude.{◌≡◌};
ghost use Rattle.answers.specs.Faults.{number_of};
ghost use Rattle.answers.specs.Verdict.{unless};
ghost use Rattle.answers.specs.Model.{verdict};

mod fault;

pub use fault::Fault;

// A refusal has document 01's number, that of its fault, and document 01's place.
#[derive(Clone, Copy, Debug, PartialEq, Eq)]
pub struct Refusal {
    pub fault: Fault,
    pub place: usize,
}

// Document 01's answer to a call that counts: what the count counts is said at each call.
pub type Answer = Result<usize, Refusal>;

// A refusal of this fault at this place, unless something holds.
pub fn require(holds: bool, fault: Fault, place: usize) -> Result<(), Refusal>
    ensures { verdict result ≡ unless holds (number_of fault) place }
{
    if holds {
        Ok(())
    } else {
        Err(Refusal { fault, place })
    }
}
