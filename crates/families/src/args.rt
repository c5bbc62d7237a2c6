// What the arguments ask for. Arguments that ask for nothing are told on standard error with the usage.
use crate::numeral::decimal;
use crate::usage::wrong;
use console::{Stopped, arg_count};
use report::Asked;
use std::env::Env;

// A command with what it takes.
// Enums by what a command needs, and no closures: a function that makes one and hands it out is refused.
#[derive(Clone, Copy, Debug, PartialEq, Eq)]
pub enum Order {
    Help,
    Pack,
    FromDump,
    // A part count and k.
    Fullest(usize, usize),
    // K.
    Live(usize),
    OnSheet(SheetOrder),
}

// A command on the sheet that the last argument names.
#[derive(Clone, Copy, Debug, PartialEq, Eq)]
pub enum SheetOrder {
    Show,
    // Names from argument 4 on.
    Mean(Asked),
    Weakest(Asked),
    // K and the lowest product.
    Product(usize, usize),
    // K and the place of `--` among the arguments.
    Meet(usize, usize),
    Slots(Asked),
    InSpace(SpaceOrder),
}

// One whose answer needs space: a listing, or a tree at k.
#[derive(Clone, Copy, Debug, PartialEq, Eq)]
pub enum SpaceOrder {
    Listing(Asked),
    ByMean(Asked),
    Tree(usize),
    Page(usize),
}

impl From<SheetOrder> for Order {
    fn from(order: SheetOrder) -> Order {
        Order::OnSheet(order)
    }
}

impl From<SpaceOrder> for Order {
    fn from(order: SpaceOrder) -> Order {
        Order::OnSheet(SheetOrder::InSpace(order))
    }
}

// Up to 2^53 a float holds each whole number.
const LARGEST_PRODUCT: usize = 9007199254740992;

// What is wrong with the arguments is told, unless they are right.
fn require(rt: &impl Eprint, right: bool, what: &str) -> Result<(), Stopped> {
    if right { Ok(()) } else { Err(wrong(rt, what)) }
}

// What `read` makes of argument i, and of an empty word where there is none or it is longer than any that is taken.
fn word_at<T, F: FnOnce(&[u8]) -> T>(rt: &impl Env, i: usize, read: F) -> T
    requires { F.IsAlwaysCallable read }
{
    let mut word = [0u8; 64];
    let n = rt.arg(i, &mut word).unwrap_or(0);
    read(&word[..n])
}

fn number_at(rt: &impl Env, i: usize) -> Option<usize> {
    word_at(rt, i, decimal)
}

fn is_word(rt: &impl Env, i: usize, wanted: &[u8]) -> bool {
    word_at(rt, i, |word| word == wanted)
}

// K at argument i; that it is no number is told.
fn k_at(rt: &(impl Env + Eprint), i: usize) -> Result<usize, Stopped> {
    number_at(rt, i).ok_or_else(|| wrong(rt, "K must be a number, 2 to 6"))
}

// K at argument i and T at argument j, or what is wrong with them told.
fn k_and_t(rt: &(impl Env + Eprint), i: usize, j: usize) -> Result<Asked, Stopped> {
    let k = k_at(rt, i)?;
    let t = number_at(rt, j)
        .and_then(|t| u16::try_from(t).ok())
        .ok_or_else(|| wrong(rt, "T must be a number, 0 to 65535"))?;
    Ok(Asked { k, t })
}

fn listing(rt: &(impl Env + Eprint), count: usize) -> Result<SpaceOrder, Stopped> {
    let by_mean = count == 6 && is_word(rt, 2, b"--by-mean");
    let what = "listing takes K, T and a sheet, with --by-mean before them or not";
    require(rt, by_mean || count == 5, what)?;
    if by_mean {
        k_and_t(rt, 3, 4).map(SpaceOrder::ByMean)
    } else {
        k_and_t(rt, 2, 3).map(SpaceOrder::Listing)
    }
}

fn mean(rt: &(impl Env + Eprint), count: usize) -> Result<SheetOrder, Stopped> {
    require(rt, 6 <= count, "mean takes K, T, names and a sheet")?;
    k_and_t(rt, 2, 3).map(SheetOrder::Mean)
}

fn by_product(rt: &(impl Env + Eprint)) -> Result<SheetOrder, Stopped> {
    let k = k_at(rt, 2)?;
    let x = number_at(rt, 4)
        .filter(|x| *x <= LARGEST_PRODUCT)
        .ok_or_else(|| wrong(rt, "X must be a whole number, 0 to 9007199254740992"))?;
    Ok(SheetOrder::Product(k, x))
}

fn strong(rt: &(impl Env + Eprint), count: usize) -> Result<SheetOrder, Stopped> {
    if count == 6 && is_word(rt, 3, b"product") {
        return by_product(rt);
    }
    let by_weakest = count == 6 && is_word(rt, 3, b"weakest");
    let what = "strong takes K, product X or weakest T, and a sheet";
    require(rt, by_weakest, what)?;
    k_and_t(rt, 2, 4).map(SheetOrder::Weakest)
}

fn meet(rt: &(impl Env + Eprint), count: usize) -> Result<SheetOrder, Stopped> {
    require(rt, 5 <= count, "meet takes K, names, --, names and a sheet")?;
    let k = k_at(rt, 2)?;
    let middle = (3..count.saturating_sub(1))
        .find(|i| is_word(rt, *i, b"--"))
        .ok_or_else(|| wrong(rt, "meet takes -- between the names of the two cliques"))?;
    Ok(SheetOrder::Meet(k, middle))
}

fn slots(rt: &(impl Env + Eprint), count: usize) -> Result<SheetOrder, Stopped> {
    require(rt, count == 5, "slots takes K, T and a sheet")?;
    k_and_t(rt, 2, 3).map(SheetOrder::Slots)
}

fn fullest(rt: &(impl Env + Eprint), count: usize) -> Result<Order, Stopped> {
    require(rt, count == 4, "fullest takes P and K: it writes a sheet")?;
    let p = number_at(rt, 2).ok_or_else(|| wrong(rt, "P must be a number, 1 to 64"))?;
    let k = k_at(rt, 3)?;
    Ok(Order::Fullest(p, k))
}

// A command that takes no number, by the count of its arguments.
fn plain(
    rt: &impl Eprint,
    order: Order,
    count: usize,
    wanted: usize,
    what: &str,
) -> Result<Order, Stopped> {
    require(rt, count == wanted, what)?;
    Ok(order)
}

// K of a command that takes K first, by the count of its arguments.
fn k_of(
    rt: &(impl Env + Eprint),
    count: usize,
    wanted: usize,
    what: &str,
) -> Result<usize, Stopped> {
    require(rt, count == wanted, what)?;
    k_at(rt, 2)
}

fn command(rt: &(impl Env + Eprint), word: &[u8], count: usize) -> Result<Order, Stopped> {
    match word {
        b"help" => Ok(Order::Help),
        b"pack" => {
            let what = "pack takes no argument: it reads a text and writes a sheet";
            plain(rt, Order::Pack, count, 2, what)
        }
        b"from-dump" => {
            let what = "from-dump takes a dump: it writes a sheet";
            plain(rt, Order::FromDump, count, 3, what)
        }
        b"show" => plain(rt, SheetOrder::Show.into(), count, 3, "show takes a sheet"),
        b"listing" => Ok(listing(rt, count)?.into()),
        b"mean" => Ok(mean(rt, count)?.into()),
        b"strong" => Ok(strong(rt, count)?.into()),
        b"tree" => Ok(SpaceOrder::Tree(k_of(rt, count, 4, "tree takes K and a sheet")?).into()),
        b"page" => Ok(SpaceOrder::Page(k_of(rt, count, 4, "page takes K and a sheet")?).into()),
        b"meet" => Ok(meet(rt, count)?.into()),
        b"slots" => Ok(slots(rt, count)?.into()),
        b"fullest" => fullest(rt, count),
        b"live" => {
            let what = "live takes K: it answers lines of standard input";
            k_of(rt, count, 3, what).map(Order::Live)
        }
        _ => Err(wrong(rt, "no such command")),
    }
}

pub fn asked(rt: &(impl Env + Eprint)) -> Result<Order, Stopped> {
    let count = arg_count(rt);
    if count < 2 {
        return Ok(Order::Help);
    }
    word_at(rt, 1, |word| command(rt, word, count))
}
