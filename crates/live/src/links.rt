// What a typed link says.
use report::find;
use sequential::Link;

// Why a line is no link of the parts typed so far: it names another, or the weight is no number up to 65,535.
#[derive(Clone, Copy)]
pub enum WrongLink<'a> {
    Unknown(&'a [u8]),
    Weight,
}

fn part<'a>(name: &'a [u8], parts: &[u8]) -> Result<usize, WrongLink<'a>> {
    find(parts, name).ok_or(WrongLink::Unknown(name))
}

// `link NAME NAME WEIGHT`, the lower part first. A part linked with itself is left to the step, which refuses it.
pub fn typed_link<'a>(line: &'a [u8], parts: &[u8]) -> Result<Link, WrongLink<'a>> {
    let a = part(words::word(line, 1), parts)?;
    let b = part(words::word(line, 2), parts)?;
    let weight = text::weight_of(words::word(line, 3)).ok_or(WrongLink::Weight)?;
    Ok(Link {
        low: a.min(b),
        high: a.max(b),
        weight,
    })
}
