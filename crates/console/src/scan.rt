// A byte in a text.
ghost use Rattle.std.specs.Prelude.{◌≡◌, ◌≢◌, ℕ, ◌<◌, ◌≤◌, length, slice_index};

use memchr::memchr;

// Where b first stands in s from `from` on; `to` where it does not stand before that.
// `to` and no Option for none: what it promised of its answer stays, and callers cut there.
pub fn find(s: &[u8], from: usize, to: usize, b: u8) -> usize
    requires { (from ≤ to) × (to ≤ length s.now) }
    ensures within { (from ≤ result) × (result ≤ to) }
    ensures found { result < to → slice_index s.now result ≡ b }
    ensures before { (k : ℕ) → from ≤ k → k < result → slice_index s.now k ≢ b }
{
    match memchr(b, &s[from..to]) {
        Some(n) => from + n,
        None => to,
    }
}
