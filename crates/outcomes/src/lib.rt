#![tactic(auto)]

// What a call of the C interface gives back, and the answers of the calls behind it as such outcomes.
ghost use Rattle.std.specs.Prelude.{◌≡◌};
ghost use Rattle.answers.specs.Answers.{says};
ghost use Rattle.answers.specs.Faults.{number_of};
ghost use Rattle.sheet.specs.Answers.{sheet_says};
ghost use Rattle.meeting.specs.Answers.{meet_says};
ghost use Rattle.mean.specs.Answers.{mean_says};
ghost use Rattle.needs.specs.Needs.{need_says};
ghost use Rattle.outcomes.specs.Outcomes.{outcome, started, shown, sheet_shown, meet_shown, mean_outcome, mean_shown, need_outcome, need_shown};

use answers::{Answer, Refusal};
use mean::FamilyMean;
use meeting::Met;
use needs::Needed;
use sequential::Stepped;
use sheet::Counts;
use states::State;

// What a call answers: number 0 with what it counts, or a refusal's number and place. A number and no enum: C reads it so.
#[repr(C)]
#[derive(Clone, Copy, Debug, PartialEq, Eq)]
pub struct Outcome {
    pub number: u8,
    pub place: usize,
    pub count: usize,
    pub parts: usize,
}

// What a mean gives back: its outcome, which counts the links, and the numbers; zeros on a refusal.
#[repr(C)]
#[derive(Clone, Copy, Debug, PartialEq, Eq)]
pub struct Mean {
    pub outcome: Outcome,
    pub sum: u64,
    pub quotient: u64,
    pub remainder: u64,
}

// What the needs of a run give back: the numbers of k-cliques, joins and slots; zeros on a refusal.
#[repr(C)]
#[derive(Clone, Copy, Debug, PartialEq, Eq)]
pub struct Need {
    pub outcome: Outcome,
    pub cliques: u64,
    pub joins: u64,
    pub slots: u64,
}

// What a step gives back: its outcome, and the state for the next one.
#[repr(C)]
#[derive(Clone, Copy)]
pub struct Started {
    pub outcome: Outcome,
    pub state: State,
}

pub fn counted(count: usize, parts: usize) -> Outcome
    ensures { result ≡ outcome 0 0 count parts }
{
    Outcome {
        number: 0,
        place: 0,
        count,
        parts,
    }
}

// By its number, as C reads it.
pub fn refused(number: u8, place: usize) -> Outcome
    ensures { result ≡ outcome number place 0 0 }
{
    Outcome {
        number,
        place,
        count: 0,
        parts: 0,
    }
}

impl From<Refusal> for Outcome {
    ghost from_gives = { λ r o. o ≡ outcome (number_of r.fault) r.place 0 0 };

    fn from(refusal: Refusal) -> Outcome {
        refused(u8::from(refusal.fault), refusal.place)
    }
}

impl From<Answer> for Outcome {
    ghost from_gives = { λ a o. o ≡ shown (says a) };

    #[tactic(auto, unfolding(crate::specs::Outcomes::shown))]
    fn from(answer: Answer) -> Outcome {
        match answer {
            Ok(n) => counted(n, 0),
            Err(refusal) => Outcome::from(refusal),
        }
    }
}

impl From<Result<Counts, Refusal>> for Outcome {
    ghost from_gives = { λ a o. o ≡ sheet_shown (sheet_says a) };

    #[tactic(auto, unfolding(crate::specs::Outcomes::sheet_shown))]
    fn from(sheet: Result<Counts, Refusal>) -> Outcome {
        match sheet {
            Ok(c) => counted(c.links, c.parts),
            Err(r) => Outcome::from(r),
        }
    }
}

// A meeting weight, 0 for never.
impl From<Met> for Outcome {
    ghost from_gives = { λ m o. o ≡ meet_shown (meet_says m) };

    #[tactic(auto, unfolding(crate::specs::Outcomes::meet_shown))]
    fn from(met: Met) -> Outcome {
        match met {
            Ok(Some(w)) => counted(usize::from(w), 0),
            Ok(None) => counted(0, 0),
            Err(r) => Outcome::from(r),
        }
    }
}

// `as`, here and in `need_of`: C gets 64 bits, and u64 has no From<usize>.
fn mean_of(outcome: Outcome, sum: usize, quotient: usize, remainder: usize) -> Mean
    ensures { result ≡ mean_outcome outcome sum quotient remainder }
{
    Mean {
        outcome,
        sum: sum as u64,
        quotient: quotient as u64,
        remainder: remainder as u64,
    }
}

impl From<Result<FamilyMean, Refusal>> for Mean {
    ghost from_gives = { λ m o. o ≡ mean_shown (mean_says m) };

    #[tactic(auto, unfolding(crate::specs::Outcomes::mean_shown))]
    fn from(family: Result<FamilyMean, Refusal>) -> Mean {
        match family {
            Ok(m) => mean_of(counted(m.links, 0), m.sum, m.quotient, m.remainder),
            Err(r) => mean_of(Outcome::from(r), 0, 0, 0),
        }
    }
}

fn need_of(outcome: Outcome, cliques: usize, joins: usize, slots: usize) -> Need
    ensures { result ≡ need_outcome outcome cliques joins slots }
{
    Need {
        outcome,
        cliques: cliques as u64,
        joins: joins as u64,
        slots: slots as u64,
    }
}

impl From<Result<Needed, Refusal>> for Need {
    ghost from_gives = { λ x o. o ≡ need_shown (need_says x) };

    #[tactic(auto, unfolding(crate::specs::Outcomes::need_shown))]
    fn from(needed: Result<Needed, Refusal>) -> Need {
        match needed {
            Ok(x) => need_of(counted(0, 0), x.cliques, x.joins, x.slots),
            Err(r) => need_of(Outcome::from(r), 0, 0, 0),
        }
    }
}

impl From<Stepped> for Started {
    ghost from_gives = { λ s o. o ≡ started (shown (says s.answer)) s.state };

    fn from(step: Stepped) -> Started {
        Started {
            outcome: Outcome::from(step.answer),
            state: step.state,
        }
    }
}
