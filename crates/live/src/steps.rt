// The steps on the links, each with its answer.
use crate::Session;
use crate::limits::LISTING_SPACE;
use crate::links::{WrongLink, typed_link};
use crate::replies::{count, refused, say_of};
use answers::Fault;
use console::Counted;
use report::{Listing, families, name};
use sequential::{Link, Stepped};
use sheet::part_count;
use states::State;
use std::io;

// The link taken back, and how many remain.
fn taken(rt: &impl Print, parts: &[u8], link: Link, links: usize) -> io::Result<()> {
    let Link { low, high, weight } = link;
    print!(rt; "link {} {} {weight}", name(parts, low), name(parts, high))?;
    println!(rt; " taken back, {}", Counted(links, "link"))
}

impl Session<'_, '_> {
    // The state of the steps with all parts, which are started where they have not been. None where they cannot be, as is told: 4 where there is no part.
    // No link is lost, as parts come only while there is none. Never inlined: its states would lie under a listing.
    #[inline(never)]
    fn started(&mut self, rt: &impl Print) -> io::Result<Option<State>> {
        let before = self.state;
        if before.is_some() {
            return Ok(before);
        }
        let p = part_count(self.parts);
        let Stepped { answer, state } = sequential::start(p, self.k, self.tables, self.journal);
        match answer {
            Ok(_) => {
                self.state = Some(state);
                Ok(Some(state))
            }
            Err(refusal) => {
                refused(rt, refusal.fault, 0)?;
                Ok(None)
            }
        }
    }

    fn insert(&mut self, rt: &impl Print, before: State, link: Link) -> io::Result<()> {
        let Stepped { answer, state } = sequential::insert(before, self.tables, self.journal, link);
        self.state = Some(state);
        match answer {
            Ok(_) => count(rt, state.links, "link"),
            Err(refusal) => refused(rt, refusal.fault, before.last),
        }
    }

    // `link NAME NAME WEIGHT`: one link more.
    pub fn link(&mut self, rt: &impl Print, line: &[u8]) -> io::Result<()> {
        let Some(state) = self.started(rt)? else {
            return Ok(());
        };
        match typed_link(line, self.parts) {
            Ok(link) => self.insert(rt, state, link),
            Err(WrongLink::Unknown(name)) => say_of(rt, "no part is called ", name),
            Err(WrongLink::Weight) => refused(rt, Fault::WeightForm, 0),
        }
    }

    // `back`: the last link taken back.
    pub fn back(&mut self, rt: &impl Print) -> io::Result<()> {
        let Some(before) = self.started(rt)? else {
            return Ok(());
        };
        let last = journal::at(self.journal, journal::one_less(before.links));
        let Stepped { answer, state } = sequential::take_back(before, self.tables, self.journal);
        self.state = Some(state);
        match answer {
            Ok(_) => taken(rt, self.parts, journal::link_of(last), state.links),
            Err(refusal) => refused(rt, refusal.fault, before.last),
        }
    }

    // The space is lent as an array, whose length its type says: the checker would count to it.
    fn list_into(
        &self,
        rt: &impl Print,
        state: State,
        out: &mut [u8; LISTING_SPACE],
    ) -> io::Result<()> {
        match sequential::listing_now(state, self.tables.view(), out) {
            Ok(n) => families(rt, Listing::new(self.parts, state.k, out, n), ""),
            Err(refusal) => refused(rt, refusal.fault, state.last),
        }
    }

    // `list`: the families of the links so far.
    pub fn list(&mut self, rt: &impl Print) -> io::Result<()> {
        let Some(state) = self.started(rt)? else {
            return Ok(());
        };
        let mut out = [0u8; LISTING_SPACE];
        self.list_into(rt, state, &mut out)
    }
}
