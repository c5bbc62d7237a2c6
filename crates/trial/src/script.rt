// A script: each line is =BYTES, or LABEL: CALL NUMBER.. with up to seven numbers.
ghost use Rattle.std.specs.Prelude.{◌≡◌, ◌+◌, ◌%◌, ◌<◌, ◌≤◌, ℕ, length, take, drop, MatchOption};

// A line with a call, and the last line before it that spells bytes, on which the call is made.
#[derive(Clone, Copy)]
pub struct Row<'a> {
    pub line: &'a [u8],
    pub bytes: &'a [u8],
}

// What is left of a script, and the last line that spelled bytes. Its items are the lines with a call.
#[derive(Drop)]
pub struct Lines<'a> {
    rest: &'a [u8],
    bytes: &'a [u8],
}

pub fn rows(script: &[u8]) -> Lines<'_>
    ensures { result.rest.now ≡ script.now }
{
    let bytes = split_line(script).map_or(script, |(line, _)| line);
    Lines {
        rest: script,
        bytes,
    }
}

// The first line without its end, and what stands behind it; none where nothing is left.
fn split_line(script: &[u8]) -> Option<(&[u8], &[u8])>
    ensures { MatchOption result (length script.now ≡ 0)
        (λ split. (0 < length script.now) × ((e : ℕ) × (split.0.now ≡ take e script.now) × (split.1.now ≡ drop (e + 1) script.now))) }
{
    if script.is_empty() {
        return None;
    }
    let end = console::find(script, 0, script.len(), b'\n');
    Some((&script[..end], script.get(end + 1..).unwrap_or_default()))
}

impl<'a> Iterator for Lines<'a> {
    ghost use Rattle.std.specs.Iterator.{at_most};
    ghost use Rattle.trial.specs.Script.{ReadsOn};

    type Item = Row<'a>;

    ghost next_gives = { ReadsOn };

    ghost remaining = { λ s. at_most (length s.rest.now) };

    // No `for`: what is left of the script is kept from call to call, and an iterator over its lines would keep the same.
    fn next(&mut self) -> Option<Row<'a>> {
        while let Some((line, rest)) = split_line(self.rest) {
            self.rest = rest;
            if !line.starts_with(b"=") {
                return Some(Row {
                    line,
                    bytes: self.bytes,
                });
            }
            self.bytes = line;
        }
        None
    }
}

// ---- bytes

fn digit(b: u8) -> u8 {
    match b {
        b'0'..=b'9' => b - b'0',
        b'a'.. => b - b'a' + 10,
        _ => 0,
    }
}

// The first byte that is spelled, by itself or by two hexadecimal digits behind a backslash, and what stands behind it.
fn split_byte(line: &[u8]) -> Option<(u8, &[u8])> {
    match line {
        [b'\\', high, low, rest @ ..] => Some(((digit(*high) << 4) | digit(*low), rest)),
        [b'\\', ..] => Some((0, b"")),
        [b, rest @ ..] => Some((*b, rest)),
        [] => None,
    }
}

// The bytes of a line =BYTES, as far as out has room: how many they are.
pub fn spelled(line: &[u8], out: &mut [u8]) -> usize
    ensures { result ≤ length out.new }
{
    let mut rest = line.get(1..).unwrap_or_default();
    for (n, to) in out.iter_mut().enumerate() {
        let Some((b, behind)) = split_byte(rest) else {
            return n;
        };
        *to = b;
        rest = behind;
    }
    out.len()
}

// ---- calls

pub fn label(line: &[u8]) -> &[u8] {
    let end = console::find(line, 0, line.len(), b':');
    &line[..end]
}

// The call and its numbers; empty where there is none.
fn words(line: &[u8]) -> &[u8] {
    line.get(label(line).len() + 2..).unwrap_or_default()
}

// The first letter of the call.
// 0 where there is none: like any letter that stands for no call of its own, it means the last call of a program.
pub fn call(line: &[u8]) -> u8 {
    words(line).first().copied().unwrap_or(0)
}

// n with one digit more; a byte that is no digit changes nothing.
// By hand: `parse` takes a sign and refuses what is no digit.
fn more(n: usize, b: u8) -> usize {
    match b {
        b'0'..=b'9' => n.wrapping_mul(10).wrapping_add(usize::from(b - b'0')),
        _ => n,
    }
}

// The numbers behind the call; 0 for one that is not there.
pub fn numbers(line: &[u8]) -> [usize; 7] {
    let mut all = [0; 7];
    let words = words(line).split(|b| *b == b' ').skip(1);
    for (n, word) in all.iter_mut().zip(words) {
        *n = word.iter().fold(0, |n, b| more(n, *b));
    }
    all
}

// The bytes from `from` to before `to`; none where there are fewer.
pub fn part(all: &[u8], from: usize, to: usize) -> &[u8] {
    all.get(from..to).unwrap_or_default()
}

// The low sixteen bits of a number: no From leads from a usize to a u16.
pub fn small(n: usize) -> u16
    ensures { result ≡ n % 65536 }
{
    (n % 65536) as u16
}
