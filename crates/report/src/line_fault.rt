// The faults of typed lines in words; the last arm is 16, which a text with more links than there is room for gets.
use answers::Fault;

pub fn line_words(fault: Fault) -> &'static str {
    match fault {
        Fault::PartCount => "there must be 1 to 64 part lines",
        Fault::Name => "a name must be 1 to 8 visible characters",
        Fault::LinkParts => "a link must have two different parts",
        Fault::NoWeight => "the weight is 0",
        Fault::LinkAgain => "this pair of parts was given before",
        Fault::LineForm => "neither \"part NAME\" nor \"link NAME NAME WEIGHT\"",
        Fault::NameAgain | Fault::PartAgain => "this name was given before",
        Fault::UnknownPart => "a link must name parts that have a part line",
        Fault::WeightForm => "the weight is not a number up to 65535",
        _ => "too many links",
    }
}
