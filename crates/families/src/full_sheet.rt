// `fullest`: the sheet of a part count with all pairs linked, on standard output.
use crate::limits::LARGEST_SHEET;
use crate::pack::put_out;
use console::Stopped;
use report::tell;

#[inline(never)]
pub fn write(rt: &(impl Print + Eprint), p: usize, k: usize) -> Result<(), Stopped> {
    let mut out = [0u8; LARGEST_SHEET];
    let n = fullest::sheet(p, k, &mut out).map_err(|refusal| tell(rt, &out, refusal))?;
    put_out(rt, &out, n)?;
    Ok(())
}
