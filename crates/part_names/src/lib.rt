#![tactic(auto)]

// The form of a part's name: visible bytes, then spaces to the end; names that are alike; and names checked in order.
ghost use Rattle.std.specs.Prelude.{◌≡◌, ◌==◌, not, ◌+◌, ◌*◌, ◌<◌, ◌≤◌, length};
ghost use Rattle.std.specs.List.{list_all, prefix_len};
ghost use Rattle.answers.specs.Model.{verdict};
ghost use Rattle.part_names.specs.Names.{visible, is_name, eight_at, repeated, check_names};
ghost use Rattle.part_names.specs.Model.{FirstFault};

use answers::{Fault, Refusal};

// Names of eight bytes each, at the start of some bytes.
#[derive(Clone, Copy)]
pub struct NameList<'a> {
    pub bytes: &'a [u8],
    pub count: usize,
    pub ghost within: { 8 * count ≤ length bytes.now },
}

impl<'a> NameList<'a> {
    // The eight bytes of name q.
    pub fn at(self, q: usize) -> &'a [u8]
        requires { q < self.count }
        ensures { result.now ≡ eight_at self.entry.bytes.now (8 * q) }
    {
        let at = 8 * q;
        &self.bytes[at..at + 8]
    }
}

pub fn is_visible(b: u8) -> bool
    ensures { result ≡ visible b }
{
    (33..=126).contains(&b)
}

pub fn only_spaces(n: &[u8]) -> bool
    ensures { result ≡ list_all (λ b. b == 32) n.now }
{
    n.iter().all(|b| *b == b' ')
}

// How many visible bytes stand at the start.
fn leading_visible(n: &[u8]) -> usize
    ensures { (result ≡ prefix_len visible n.now) × (result ≤ length n.now) }
{
    n.iter().take_while(|b| is_visible(**b)).count()
}

// A name's form: one or more visible bytes, then spaces to the end.
pub fn is_name(n: &[u8]) -> bool
    ensures { result ≡ is_name n.now }
{
    let at = leading_visible(n);
    0 < at && only_spaces(&n[at..])
}

// The first of the names that is none.
fn bad_name(names: NameList) -> Option<usize>
    ensures { FirstFault (λ q. is_name (eight_at names.entry.bytes.now (8 * q))) names.entry.count result }
{
    (0..names.count).find(|q| !is_name(names.at(*q)))
}

// Whether name q is an earlier one again: all eight bytes are compared, spaces too.
fn is_repeated(names: NameList, q: usize) -> bool
    requires { q < names.count }
    ensures { result ≡ repeated (λ i. eight_at names.entry.bytes.now (8 * i)) q }
{
    let name = names.at(q);
    (0..q).any(|i| names.at(i) == name)
}

// The first of the names that is an earlier one again.
fn repeated_name(names: NameList) -> Option<usize>
    ensures { FirstFault (λ q. not (repeated (λ i. eight_at names.entry.bytes.now (8 * i)) q)) names.entry.count result }
{
    (0..names.count).find(|q| is_repeated(names, *q))
}

// 5, then 21, of p names, eight bytes each from the start of `names`. `first` is the place of the first name, and each next one lies `step` further: the
// writer gives 0 and 0. For sister crates: what they tested shows that the names are there, and that a machine word holds every place.
pub fn test(names: &[u8], p: usize, first: usize, step: usize) -> Result<(), Refusal>
    requires { (8 * p ≤ length names.now) × (p ≤ 256) × (first < 1048576) × (step ≤ 8) }
    ensures { verdict result ≡ check_names (λ q. eight_at names.now (8 * q)) (λ q. first + step * q) p }
{
    let list = NameList {
        bytes: names,
        count: p,
    };
    let bad = bad_name(list);
    let again = repeated_name(list);
    if let Some(q) = bad {
        return Err(Refusal {
            fault: Fault::Name,
            place: first + step * q,
        });
    }
    if let Some(r) = again {
        return Err(Refusal {
            fault: Fault::NameAgain,
            place: first + step * r,
        });
    }
    Ok(())
}
