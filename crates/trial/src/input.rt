// Standard input.
ghost use Rattle.std.specs.Prelude.{◌≤◌, length};

use console::STDIN;

// Reads as far as buf has room: how many bytes came. By the crate io and not by std's reader, since of an input that fails nothing was ever told and what came
// before is taken.
pub fn read(buf: &mut [u8]) -> usize
    ensures { result ≤ length buf.new }
{
    io::read_full(STDIN, buf)
}
