#![tactic(auto)]

// Bytes copied from one list to another of its length. The C interface's library then asks the C library for memcpy at most: std's own copying asks for memmove.
ghost use Rattle.std.specs.Prelude.{◌≡◌, length};

// For sister crates: the parts lent have one length.
pub fn copy(src: &[u8], dst: &mut [u8])
    requires { length dst.old ≡ length src.now }
    ensures { dst.new ≡ src.now }
{
    for i in 0..src.len() {
        dst[i] = src[i];
    }
}
