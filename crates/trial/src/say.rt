// Answers and outputs in words.
ghost use Rattle.trial.specs.Outputs.{Dots};

use answers::{Answer, Refusal};
use std::fmt;

#[derive(Clone, Copy)]
pub struct Refused(pub Refusal);

impl fmt::Display for Refused {
    fn fmt<W: fmt::Write>(&self, f: &mut fmt::Formatter<W>) -> fmt::Result {
        let Refusal { fault, place } = self.0;
        write!(f, "refused {} at {place}", u8::from(fault))
    }
}

// Each community of a listing as smallest/union.
#[derive(Clone, Copy)]
struct Communities<'a>(&'a [u8]);

impl fmt::Display for Communities<'_> {
    fn fmt<W: fmt::Write>(&self, f: &mut fmt::Formatter<W>) -> fmt::Result {
        let (words, _) = self.0.as_chunks::<8>();
        for (i, word) in words.iter().enumerate() {
            let sign = if i % 2 == 0 { ' ' } else { '/' };
            write!(f, "{sign}{}", u64::from_be_bytes(*word))?;
        }
        Ok(())
    }
}

// How many bytes hold the dot that every output is lent with, up to the first that does not.
pub fn untouched(out: &[u8]) -> usize
    ensures { Dots out.now result }
{
    out.iter().position(|b| *b != b'.').unwrap_or(out.len())
}

// What a listing answered in an output: the count, the communities and what is left of the output behind them; of a refusal the whole output.
#[derive(Clone, Copy)]
pub struct Listed<'a>(pub Answer, pub &'a [u8]);

impl fmt::Display for Listed<'_> {
    fn fmt<W: fmt::Write>(&self, f: &mut fmt::Formatter<W>) -> fmt::Result {
        let Listed(answer, out) = *self;
        match answer {
            Ok(n) if out.len() / 16 < n => write!(f, "count {n}, more than the output holds"),
            Ok(n) => {
                let (listing, behind) = out.split_at(n * 16);
                write!(
                    f,
                    "count {n}{}, untouched {}",
                    Communities(listing),
                    untouched(behind)
                )
            }
            Err(r) => write!(f, "{}, untouched {}", Refused(r), untouched(out)),
        }
    }
}
