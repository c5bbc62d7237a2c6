// The numbers of pairs of parts below 64, the lower first, in a table of 4,096: that of q and r is q * 64 + r.
ghost use Rattle.std.specs.Prelude.{◌≡◌, ◌+◌, ◌*◌, ◌/◌, ◌%◌, ◌<◌};

// The number of a pair. For sister crates: their loops show the bounds.
pub fn number(q: usize, r: usize) -> usize
    requires { (q < 64) × (r < 64) }
    ensures { (result ≡ q * 64 + r) × (result < 4096) }
{
    q * 64 + r
}

// The two parts of a number.
pub fn ends(i: usize) -> (usize, usize)
    ensures { (result.0 ≡ i / 64) × (result.1 ≡ i % 64) }
{
    (i / 64, i % 64)
}
