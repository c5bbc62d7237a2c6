// The parts typed so far: a sheet with their names and no link, all zeros before the first.
use crate::replies::{count, refused};
use answers::{Answer, Fault, Refusal};
use report::NAMES;
use sheet::{Network, part_count};
use std::io;

// The name's bytes in its eight. A longer name is left out: the writer refuses the spaces as it does every wrong name.
fn put_name(slot: &mut [u8], name: &[u8]) {
    if name.len() <= slot.len() {
        copying::copy(name, &mut slot[..name.len()]);
    }
}

// Writes the sheet again with one name more, by way of a list of names: 4, 5, 21.
fn write_with(name: &[u8], names: &mut [u8], sheet: &mut [u8]) -> Answer {
    let at = 8 * part_count(sheet);
    if names.len().min(sheet.len()) < at + 8 {
        return Err(Refusal::from(Fault::PartCount));
    }
    copying::copy(&sheet[8..8 + at], &mut names[..at]);
    put_name(&mut names[at..at + 8], name);
    let none = [0u16; 0];
    let network = Network {
        names: &names[..at + 8],
        lower: &none,
        higher: &none,
        weights: &none,
    };
    sheet_writer::write(network, sheet)
}

// One part more.
pub fn add(rt: &impl Print, name: &[u8], sheet: &mut [u8]) -> io::Result<()> {
    let mut names = [b' '; NAMES + 8];
    match write_with(name, &mut names, sheet) {
        Ok(_) => count(rt, part_count(sheet), "part"),
        Err(refusal) => refused(rt, refusal.fault, 0),
    }
}
