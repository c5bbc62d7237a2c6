#![tactic(auto)]

// The weights of a sheet's links by pair, in a table: those of q and r, q the lower part, at q * 64 + r.
ghost use Rattle.sheet.specs.Sheet.{links_of};
ghost use Rattle.weights.specs.Model.{Blank, Weighs};

use checks::pairs;
use sheet::Checked;

// The weights of all links of a checked sheet, into a table of zeros. From the last link to the first, so that the first of a pair would stand.
pub fn fill(sheet: Checked, weights: &mut [u16])
    requires { Blank weights.old }
    ensures { Weighs (links_of sheet.entry.bytes.now) weights.new }
{
    for j in (0..sheet.counts.links).rev() {
        let l = sheet.link(j);
        weights[pairs::number(l.low, l.high)] = l.weight;
    }
}
