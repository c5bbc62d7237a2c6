// Cliques that are given by the names of their parts.
use console::{Stopped, arg, arg_count, fail_of};
use report::{find, tell};
use sets::Set;
use std::env::Env;
use std::ops::Range;

// A sheet that passed its check, with the place behind the names among the arguments, the last of which names the sheet.
#[derive(Clone, Copy)]
pub struct Named<'a> {
    sheet: &'a [u8],
    pub end: usize,
}

impl<'a> Named<'a> {
    pub fn new(rt: &(impl Env + Eprint), sheet: &'a [u8]) -> Result<Named<'a>, Stopped> {
        sheet::check(sheet).map_err(|refusal| tell(rt, sheet, refusal))?;
        let end = arg_count(rt).saturating_sub(1);
        Ok(Named { sheet, end })
    }

    // The part that argument i names; that there is none is told.
    fn part(self, rt: &(impl Env + Eprint), i: usize) -> Result<usize, Stopped> {
        let mut word = [0u8; 4096];
        let n = arg(rt, i, "NAME", &mut word)?;
        let word = &word[..n];
        find(self.sheet, word).ok_or_else(|| fail_of(rt, "no part is called ", word, ""))
    }

    // The parts that these arguments name.
    pub fn clique(self, rt: &(impl Env + Eprint), places: Range<usize>) -> Result<Set, Stopped> {
        let mut set = sets::empty();
        for i in places {
            set = sets::with(set, self.part(rt, i)?);
        }
        Ok(set)
    }
}
