#![tactic(auto)]

// The program `families`: the answers on a link sheet in words, for the people who typed it.
mod args;
mod calls;
mod cliques;
mod from_dump;
mod full_sheet;
mod limits;
mod means;
mod meet;
mod numeral;
mod pack;
mod paper;
mod usage;

use args::{Order, SheetOrder, SpaceOrder};
use console::Stopped;
use limits::{LONGEST_SHEET, SHEET_SPACE, SPACE};
use std::env::Env;
use std::fs::Files;
use usage::USAGE;

// A call whose answer needs space.
#[inline(never)]
fn in_space(rt: &(impl Print + Eprint), order: SpaceOrder, s: &[u8]) -> Result<(), Stopped> {
    let mut out = [0u8; SPACE];
    match order {
        SpaceOrder::Listing(asked) => {
            let listing = calls::listing(rt, s, asked, &mut out)?;
            report::families(rt, listing, format_args!(", threshold {}", asked.t))?;
            Ok(())
        }
        SpaceOrder::ByMean(asked) => {
            let listing = calls::listing(rt, s, asked, &mut out)?;
            report::by_mean(rt, listing, asked.t)
        }
        SpaceOrder::Tree(k) => {
            let lines = calls::tree(rt, s, k, &mut out)?;
            report::tree(rt, s, k, lines)?;
            Ok(())
        }
        SpaceOrder::Page(k) => paper::print(rt, s, calls::tree(rt, s, k, &mut out)?),
    }
}

fn answer(rt: &(impl Env + Print + Eprint), order: SheetOrder, s: &[u8]) -> Result<(), Stopped> {
    match order {
        SheetOrder::Show => report::show(rt, s),
        SheetOrder::Mean(asked) => means::mean(rt, s, asked),
        SheetOrder::Weakest(asked) => strong::weakest(rt, s, asked),
        SheetOrder::Product(k, x) => strong::product(rt, s, k, x),
        SheetOrder::Meet(k, middle) => meet::meet(rt, s, k, middle),
        SheetOrder::Slots(asked) => report::slots(rt, s, asked),
        SheetOrder::InSpace(order) => in_space(rt, order, s),
    }
}

// A command on the sheet that the last argument names.
#[inline(never)]
fn on_sheet(rt: &(impl Env + Files + Print + Eprint), order: SheetOrder) -> Result<(), Stopped> {
    let mut input = [0u8; SHEET_SPACE];
    let n = console::last_file(rt, &mut input)?;
    if LONGEST_SHEET < n {
        return Err(console::tell_long(rt, LONGEST_SHEET));
    }
    answer(rt, order, &input[..n])
}

// Of a usage that was asked for nothing is said where standard output takes no more.
fn help(rt: &impl Print) -> Result<(), Stopped> {
    let _ = rt.print(USAGE);
    Ok(())
}

fn run(rt: &(impl Env + Files + Input + Print + Eprint)) -> Result<(), Stopped> {
    match args::asked(rt)? {
        Order::Help => help(rt),
        Order::Pack => pack::pack(rt),
        Order::FromDump => from_dump::from_dump(rt),
        Order::Fullest(p, k) => full_sheet::write(rt, p, k),
        Order::Live(k) => live::run(rt, k),
        Order::OnSheet(order) => on_sheet(rt, order),
    }
}

fn main(rt: HostRuntime) {
    let done = run(&rt);
    console::end(&rt, done);
}
