// What is wrong with a call, by document 01's and 02's numbers; 101 to 104 are those of a text's lines.
ghost use Rattle.std.specs.Prelude.{◌≡◌};
ghost use Rattle.answers.specs.Faults.{number_of};

use crate::Refusal;

#[derive(Clone, Copy, Debug, PartialEq, Eq)]
pub enum Fault {
    Mark,
    Version,
    Length,
    PartCount,
    Name,
    LinkParts,
    NoWeight,
    Rising,
    LinkAgain,
    CliqueSize,
    Tables,
    State,
    NoClique,
    NoPart,
    Slots,
    Space,
    Dump,
    DumpRow,
    NoLink,
    Journal,
    NameAgain,
    ProductSize,
    NotANumber,
    TreeLines,
    LineForm,
    PartAgain,
    UnknownPart,
    WeightForm,
}

impl From<Fault> for u8 {
    ghost from_gives = { λ f n. n ≡ number_of f };

    fn from(fault: Fault) -> u8 {
        match fault {
            Fault::Mark => 1,
            Fault::Version => 2,
            Fault::Length => 3,
            Fault::PartCount => 4,
            Fault::Name => 5,
            Fault::LinkParts => 6,
            Fault::NoWeight => 7,
            Fault::Rising => 8,
            Fault::LinkAgain => 9,
            Fault::CliqueSize => 10,
            Fault::Tables => 11,
            Fault::State => 12,
            Fault::NoClique => 13,
            Fault::NoPart => 14,
            Fault::Slots => 15,
            Fault::Space => 16,
            Fault::Dump => 17,
            Fault::DumpRow => 18,
            Fault::NoLink => 19,
            Fault::Journal => 20,
            Fault::NameAgain => 21,
            Fault::ProductSize => 22,
            Fault::NotANumber => 23,
            Fault::TreeLines => 24,
            Fault::LineForm => 101,
            Fault::PartAgain => 102,
            Fault::UnknownPart => 103,
            Fault::WeightForm => 104,
        }
    }
}

// A refusal of a call that reads no sheet, dump or other form has place 0.
impl From<Fault> for Refusal {
    ghost from_gives = { λ f r. r ≡ record { fault = f; place = 0 } };

    fn from(fault: Fault) -> Refusal {
        Refusal { fault, place: 0 }
    }
}
