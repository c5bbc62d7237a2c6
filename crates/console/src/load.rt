// Files and standard input into lent space.
ghost use Rattle.std.specs.Prelude.{◌≡◌, ◌≤◌, length, take};
ghost use Rattle.console.specs.Loading.{Within};

use crate::Stopped;
use crate::args::{arg, arg_count};
use crate::say::{fail, fail_of};
use std::env::Env;
use std::fs;
use std::fs::Files;
use std::io::Read;

// The longest path of a file, and the byte that ends it.
const PATH_SPACE: usize = 4096;

// Reads once into buf, from n on: how many bytes came. That it failed is told by the input's name; past the end of buf nothing is read.
// A count beside the buffer, as `Read` gives it.
pub fn read_on(
    rt: &impl Eprint,
    from: &mut impl Read,
    name: &str,
    buf: &mut [u8],
    n: usize,
) -> Result<usize, Stopped>
    ensures within { Within n result buf.new }
    ensures before { take n buf.new ≡ take n buf.old }
{
    if buf.len() < n {
        return Err(Stopped::Told);
    }
    from.read(&mut buf[n..]).map_err(|e| fail(rt, name, e))
}

// All of the input as far as buf has room.
pub fn read(
    rt: &impl Eprint,
    from: &mut impl Read,
    name: &str,
    buf: &mut [u8],
) -> Result<usize, Stopped>
    ensures { Within 0 result buf.new }
{
    let mut n = 0;
    // A `while`: a read gives as many bytes as come, so that nothing counts the turns.
    while n < buf.len() {
        let more = read_on(rt, from, name, buf, n)?;
        if more == 0 {
            return Ok(n);
        }
        n += more;
    }
    Ok(n)
}

fn read_file(rt: &(impl Files + Eprint), path: &[u8], buf: &mut [u8]) -> Result<usize, Stopped>
    ensures { Within 0 result buf.new }
{
    let name = str::from_utf8(path).map_err(|_| fail_of(rt, "", path, ": the name is not UTF-8"))?;
    let mut file = fs::open(rt, name).map_err(|e| fail(rt, name, e))?;
    read(rt, &mut file, name, buf)
}

// The file that the last argument names.
pub fn last_file(rt: &(impl Env + Files + Eprint), buf: &mut [u8]) -> Result<usize, Stopped>
    ensures { Within 0 result buf.new }
{
    let last = arg_count(rt).checked_sub(1).ok_or(Stopped::Told)?;
    let mut path = [0u8; PATH_SPACE];
    let n = arg(rt, last, "SHEET", &mut path)?;
    read_file(rt, &path[..n], buf)
}
