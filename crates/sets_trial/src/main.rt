#![tactic(auto)]

// Runs each function of the crate sets on a few sets, edges among them, and prints what it answers: held to the file stdout.
use sets::word;
use std::io;

fn said(t: bool) -> &'static str {
    if t { "yes" } else { "no" }
}

// What is asked of two sets.
fn pair(rt: &impl Print, a: u64, b: u64) -> io::Result<()> {
    let s = sets::from_word(a);
    let t = sets::from_word(b);
    print!(rt; "pair {} {} ", word(s), word(t))?;
    print!(rt;
        "{} {} {} ",
        word(sets::union(s, t)),
        word(sets::meet(s, t)),
        word(sets::minus(s, t))
    )?;
    println!(rt;
        "{} {} {} ",
        said(sets::subset(s, t)),
        said(sets::less(s, t)),
        said(sets::same(s, t))
    )
}

// What is asked of a set and a part or a number.
fn part(rt: &impl Print, a: u64, q: usize) -> io::Result<()> {
    let s = sets::from_word(a);
    print!(rt; "part {} {q} ", word(s))?;
    print!(rt;
        "{} {} {} ",
        said(sets::has(s, q)),
        word(sets::single(q)),
        word(sets::with(s, q))
    )?;
    print!(rt; "{} {} ", word(sets::without(s, q)), word(sets::lows(s, q)))?;
    println!(rt;
        "{} {} {} ",
        sets::count(s),
        sets::lowest(s),
        said(sets::is_empty(s))
    )
}

// A table of sets: written, read within and past its end, cleared.
fn table(rt: &impl Print) -> io::Result<()> {
    let mut rows: [u64; 3] = [1, 2, 3];
    sets::put(&mut rows, 1, sets::from_word(28));
    sets::put(&mut rows, 3, sets::from_word(9));
    print!(rt; "table {} ", sets::rows(&rows))?;
    for i in 0..4 {
        print!(rt; "{} ", word(sets::at(&rows, i)))?;
    }
    sets::clear(&mut rows);
    println!(rt;
        "{} {} ",
        word(sets::at(&rows, 0)),
        word(sets::at(&rows, 2))
    )
}

// The one that comes first, either way round; and how many parts a set may hold.
fn lesser(rt: &impl Print, a: u64, b: u64) -> io::Result<()> {
    let s = sets::from_word(a);
    let t = sets::from_word(b);
    println!(rt;
        "lesser {} {} ",
        word(sets::lesser(s, t)),
        word(sets::lesser(t, s))
    )
}

fn most(rt: &impl Print) -> io::Result<()> {
    println!(rt; "most {} ", sets::most())
}

// Whether a table has a size, one word less or more among them; numbers kept in its rows, within and past its end.
fn numbers(rt: &impl Print) -> io::Result<()> {
    let mut rows: [u64; 3] = [1, 2, 3];
    print!(rt;
        "numbers {} {} {} ",
        said(sets::sized(&rows, 2)),
        said(sets::sized(&rows, 3)),
        said(sets::sized(&rows, 4))
    )?;
    sets::put_number(&mut rows, 1, u64::MAX);
    sets::put_number(&mut rows, 3, 9);
    for i in 0..4 {
        print!(rt; "{} ", sets::number_at(&rows, i))?;
    }
    println!(rt)
}

// What stands in ten bytes: the set from each of four places on, the last two of which leave too few, and then the bytes.
fn read_back(rt: &impl Print, bytes: &[u8; 10]) -> io::Result<()> {
    for at in [0, 2, 3, usize::MAX] {
        print!(rt; "{} ", word(sets::from_bytes(bytes, at)))?;
    }
    ends(rt, bytes)
}

// The bytes at both ends.
fn ends(rt: &impl Print, bytes: &[u8; 10]) -> io::Result<()> {
    let [first, second, third, .., last] = *bytes;
    println!(rt; "{first} {second} {third} {last} ")
}

// The bytes of a set, written where they just fit, and then where they do not: that changes nothing.
fn in_bytes(rt: &impl Print) -> io::Result<()> {
    let mut bytes: [u8; 10] = [255; 10];
    print!(rt; "bytes {} ", sets::byte_count())?;
    read_back(rt, &bytes)?;
    sets::put_bytes(&mut bytes, 2, sets::from_word(72623859790382856));
    print!(rt; "bytes ")?;
    read_back(rt, &bytes)?;
    sets::put_bytes(&mut bytes, 3, sets::from_word(7));
    sets::put_bytes(&mut bytes, usize::MAX, sets::from_word(7));
    print!(rt; "bytes ")?;
    read_back(rt, &bytes)
}

// The sets of the first parts, none and too many among them.
fn first_parts(rt: &impl Print) -> io::Result<()> {
    print!(rt; "{} ", word(sets::empty()))?;
    for p in [0, 5, 63, 64, 1000] {
        print!(rt; "{} ", word(sets::upto(p)))?;
    }
    println!(rt)
}

// A table with an empty row for each part.
fn none(rt: &impl Print) -> io::Result<()> {
    let rows = sets::no_rows();
    println!(rt; "none {} {} ", sets::rows(&rows), word(sets::at(&rows, 63)))
}

fn run(rt: &impl Print) -> io::Result<()> {
    first_parts(rt)?;
    none(rt)?;
    pair(rt, 7, 14)?;
    pair(rt, 14, 7)?;
    pair(rt, 7, 7)?;
    pair(rt, 0, 9223372036854775808)?;
    pair(rt, u64::MAX, 28)?;
    part(rt, 28, 2)?;
    part(rt, 28, 0)?;
    part(rt, 0, 5)?;
    part(rt, 9223372036854775809, 63)?;
    part(rt, u64::MAX, 64)?;
    part(rt, 1057, 1000)?;
    table(rt)?;
    in_bytes(rt)?;
    lesser(rt, 7, 14)?;
    lesser(rt, 7, 7)?;
    lesser(rt, 0, 9223372036854775808)?;
    lesser(rt, u64::MAX, 28)?;
    most(rt)?;
    numbers(rt)
}

// Nothing is said where standard output takes no more.
fn main(rt: HostRuntime) {
    let _ = run(&rt);
}
