#![tactic(auto)]

// What the meeting weight by either run shares: its answer, and the checks before 15.
ghost use Rattle.std.specs.Prelude.{◌≡◌, ◌&&◌, IfOk};
ghost use Rattle.sets.specs.Value.{num};
ghost use Rattle.sheet.specs.Answers.{checked_says, sheet_say};
ghost use Rattle.slots.specs.Lent.{tables_in};
ghost use Rattle.meeting.specs.Answers.{is_clique, check_pair};

use answers::{Fault, Refusal};
use sets::Set;
use sheet::Checked;
use slots::View;

// A meeting weight, none where the two never meet, or a refusal.
pub type Met = Result<Option<u16>, Refusal>;

// Two cliques whose meeting is asked for.
#[derive(Clone, Copy)]
pub struct Pair {
    pub a: Set,
    pub b: Set,
}

// Whether both are k-cliques of the whole of a checked sheet.
fn are_cliques(sheet: Checked, k: usize, pair: Pair) -> bool
    ensures { result ≡ is_clique sheet.entry.bytes.now k (num pair.a) && is_clique sheet.entry.bytes.now k (num pair.b) }
{
    let counts = sheet.counts;
    let rows = runs::rows_of(sheet, counts.links);
    checks::is_clique(&rows, counts.parts, k, pair.a)
        && checks::is_clique(&rows, counts.parts, k, pair.b)
}

// The checks before 15: the sheet's own, 10 and 11, then 13. Where they pass, the sheet with its counts.
pub fn admit<'a>(
    sheet: &'a [u8],
    k: usize,
    pair: Pair,
    tables: View,
) -> Result<Checked<'a>, Refusal>
    ensures answer { checked_says result ≡ sheet_say (check_pair sheet.now k (num pair.a) (num pair.b) (tables_in tables.entry 0)) sheet.now }
    ensures same { IfOk result (λ c. c.bytes ≡ sheet.entry) }
{
    let checked = runs::admit(sheet, k, tables)?;
    answers::require(are_cliques(checked, k, pair), Fault::NoClique, 0)?;
    Ok(checked)
}
