#![tactic(auto)]

// Bytes as lines and words: where a line ends, its words, and which of the text's forms it has.
ghost use Rattle.std.specs.Prelude.{◌≡◌, not, [], ℕ, suc, ◌+◌, ◌<◌, ◌≤◌, ◌==◌, eqb, length, get_or, drop, filter};
ghost use Rattle.std.specs.List.{prefix_len};
ghost use Rattle.words.specs.Lines.{line_of, blank, words, words_say, leading, formed, WordAt};

// The forms of a line. A blank line or a comment is silent.
#[derive(Clone, Copy, Debug, PartialEq, Eq)]
pub enum Form {
    Silent,
    Part,
    Link,
    Neither,
}

// The words that a part's line and a link's begin with.
const PART: &[u8] = b"part";

const LINK: &[u8] = b"link";

// ---- lines

fn count_line_ends(text: &[u8]) -> usize
    ensures { (result ≡ length (filter (λ b. b == 10) text.now)) × (result ≤ length text.now) }
{
    text.iter().filter(|b| **b == b'\n').count()
}

// The number, from 1, of the line that holds the byte at place.
pub fn line_of(text: &[u8], place: usize) -> usize
    ensures { result ≡ line_of text.now place }
{
    count_line_ends(&text[..place.min(text.len())]) + 1
}

// How many bytes stand before the first that ends a line.
fn before_line_end(s: &[u8]) -> usize
    ensures { (result ≡ prefix_len (λ b. not (b == 10)) s.now) × (result ≤ length s.now) }
{
    s.iter().take_while(|b| **b != b'\n').count()
}

// Where the line that starts at `at` ends: at a byte 10, or at the end of the text.
// The rest as a slice: `skip` would go through all bytes before it.
pub fn line_end(text: &[u8], at: usize) -> usize
    ensures { result ≡ at + leading (eqb 10) (drop at text.now) }
{
    if text.len() <= at {
        return at;
    }
    at + before_line_end(&text[at..])
}

// ---- words

// Space, tab and carriage return part the words of a line.
fn is_blank(b: u8) -> bool
    ensures { result ≡ blank b }
{
    matches!(b, b' ' | b'\t' | b'\r')
}

// How many blank bytes stand at the start.
fn leading_blanks(s: &[u8]) -> usize
    ensures { (result ≡ prefix_len blank s.now) × (result ≤ length s.now) }
{
    s.iter().take_while(|b| is_blank(**b)).count()
}

// How many bytes stand before the first that is blank.
fn leading_printed(s: &[u8]) -> usize
    ensures { (result ≡ prefix_len (λ b. not (blank b)) s.now) × (result ≤ length s.now) }
{
    s.iter().take_while(|b| !is_blank(**b)).count()
}

// The first byte from `at` on that is not blank; the line's length where there is none.
// The line's end and no Option for none, here and in the two below: `word` promises the place that it gives (`by_index`), which a `split` does not tell.
fn skip_blanks(line: &[u8], at: usize) -> usize
    requires { at ≤ length line.now }
    ensures { (result ≡ at + leading (λ b. not (blank b)) (drop at line.now)) × (result ≤ length line.now) }
{
    at + leading_blanks(&line[at..])
}

// The end of the word that starts at `at`.
fn word_end(line: &[u8], at: usize) -> usize
    requires { at < length line.now }
    ensures { (result ≡ suc at + leading blank (drop (suc at) line.now)) × (result ≤ length line.now) }
{
    at + 1 + leading_printed(&line[at + 1..])
}

// Where the word after the one that starts at `at` starts; the line's length where there is none.
fn next_word(line: &[u8], at: usize) -> usize
    requires { at < length line.now }
    ensures { (at < result) × ((n : ℕ) → WordAt line.now n at → WordAt line.now (n + 1) result) }
{
    let end = word_end(line, at);
    skip_blanks(line, end)
}

pub fn count_words(line: &[u8]) -> usize
    ensures { result ≡ length (words line.now) }
{
    line.split(|b| is_blank(*b))
        .filter(|w| !w.is_empty())
        .count()
}

// Where word n of a line, counted from 0, starts; the line's length where it has no such word.
fn word_start(line: &[u8], n: usize) -> usize
    ensures { WordAt line.now n result }
{
    let mut at = skip_blanks(line, 0);
    for _ in 0..n {
        if line.len() <= at {
            return at;
        }
        at = next_word(line, at);
    }
    at
}

// Word n of a line, counted from 0, as the part of the caller's line that holds it; where it has no such word, no byte, at the line's end.
pub fn word(line: &[u8], n: usize) -> &[u8]
    ensures result_value { result.now ≡ get_or (words line.now) n [] }
    ensures by_index { (a : ℕ) × WordAt line.now n a × (result.ref_ptr ≡ (line.entry.ref_ptr.0, a + line.entry.ref_ptr.1)) }
{
    let start = word_start(line, n);
    if line.len() <= start {
        return &line[start..];
    }
    let end = word_end(line, start);
    &line[start..end]
}

// A function and no From: docs/ARCHITECTURE.md names it.
pub fn form_of(line: &[u8]) -> Form
    ensures { formed result (words line.now) ≡ words_say (words line.now) }
{
    let first = word(line, 0);
    match count_words(line) {
        0 => Form::Silent,
        _ if first.starts_with(b"#") => Form::Silent,
        2 if first == PART => Form::Part,
        4 if first == LINK => Form::Link,
        _ => Form::Neither,
    }
}
