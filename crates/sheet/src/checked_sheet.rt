// A sheet that passed its check.
ghost use Rattle.std.specs.Prelude.{◌≡◌, ◌<◌};
ghost use Rattle.answers.specs.Verdict.{accepted};
ghost use Rattle.checks.specs.Model.{as_link};
ghost use Rattle.sheet.specs.Sheet.{parts, links, link_of, check_sheet};

use crate::Counts;
use checks::Link;

// The bytes of a sheet that passed its check, and its counts. `checked` makes one.
#[derive(Clone, Copy)]
pub struct Checked<'a> {
    pub bytes: &'a [u8],
    pub counts: Counts,
    pub ghost passed: { check_sheet bytes.now ≡ accepted },
    pub ghost counted: { (counts.parts ≡ parts bytes.now) × (counts.links ≡ links bytes.now) },
}

impl Checked<'_> {
    // Link j. For sister crates: a loop over the links shows what is required.
    pub fn link(self, j: usize) -> Link
        requires { j < links self.bytes.now }
        ensures { (as_link result ≡ link_of self.entry.bytes.now j) × ((result.low < 256) × (result.high < 256)) }
    {
        crate::link(self.bytes, j)
    }
}
