// Standard input line by line.
ghost use Rattle.std.specs.Prelude.{◌≡◌, ◌≢◌, [], ◌∷◌, ◌++◌, ◌<◌, ◌≤◌, IfSome, IfOk, EachIndex, slice_index, length};

use console::{find, read_on};
use std::io::Read;
use std::ops::Range;

// Reads, to pass over a line that is too long.
const READS: usize = 1000000;

// A line for which the buffer had no room; it was passed over.
#[derive(Clone, Copy, Debug, PartialEq, Eq)]
pub struct TooLong;

// The lines of an input, in a lent buffer: what was read and not yet given stands from `from` to before `to`; `ended` where none follows it. A plain flag:
// what is kept lies there in both states, and an Option or an enum of states would be taken apart in every step.
#[derive(Drop)]
pub struct Lines<'a> {
    buf: &'a mut [u8],
    from: usize,
    to: usize,
    ended: bool,
    ghost within: { (from ≤ to) × (to ≤ length buf.now) },
}

impl<'a> Lines<'a> {
    ghost use Rattle.typed.specs.Lines.{kept, NoNewline, line_at, LineIn, NextIn};

    // Before the first line nothing is kept.
    pub fn new(buf: &'a mut [u8]) -> Lines<'a>
        ensures none { kept result ≡ [] }
        ensures length { length result.buf.now ≡ length buf.old }
    {
        Lines {
            buf,
            from: 0,
            to: 0,
            ended: false,
        }
    }

    // The first newline from `at` on among what is kept; where there is none, what is kept ends.
    fn newline(&self, at: usize) -> usize
        requires { (self.now.from ≤ at) × (at ≤ self.now.to) }
        ensures within { (at ≤ result) × (result ≤ self.now.to) }
        ensures found { result < self.now.to → slice_index self.now.buf.now result ≡ 10 }
        ensures before { NoNewline self.now.buf.now at result }
    {
        find(self.buf, at, self.to, b'\n')
    }

    // Moves what is kept to the front of the buffer.
    fn to_front(&mut self)
        ensures same { kept self.new ≡ kept self.old }
        ensures length { length self.new.buf.now ≡ length self.old.buf.now }
        ensures no_newline { NoNewline self.old.buf.now self.old.from self.old.to → NoNewline self.new.buf.now self.new.from self.new.to }
    {
        self.buf.copy_within(self.from..self.to, 0);
        self.to -= self.from;
        self.from = 0;
    }

    // Where the line stands that ends at the newline `end`: what is behind it stays.
    fn up_to(&mut self, end: usize) -> Range<usize>
        requires within { (self.old.from ≤ end) × (end < self.old.to) }
        requires first { NoNewline self.old.buf.now self.old.from end }
        requires newline { slice_index self.old.buf.now end ≡ 10 }
        ensures within { LineIn result self.new.buf.now }
        ensures length { length self.new.buf.now ≡ length self.old.buf.now }
        ensures parted { kept self.old ≡ line_at result self.new.buf.now ++ 10 ∷ kept self.new }
    {
        let from = self.from;
        self.from = end + 1;
        from..end
    }

    // At the end of the input: where the last line stands, if anything is kept.
    fn last(&mut self) -> Option<Range<usize>>
        requires { NoNewline self.old.buf.now self.old.from self.old.to }
        ensures within { IfSome result (λ line. LineIn line self.new.buf.now) }
        ensures all { IfSome result (λ line. line_at line self.new.buf.now ≡ kept self.old) }
        ensures length { length self.new.buf.now ≡ length self.old.buf.now }
    {
        let from = self.from;
        self.from = self.to;
        self.ended = true;
        (from < self.to).then_some(from..self.to)
    }

    // The rest of a line that is too long, read and forgotten. Where it takes too many reads the input counts as ended.
    fn pass_over(&mut self, rt: &impl Eprint, input: &mut impl Read)
        ensures length { length self.new.buf.now ≡ length self.old.buf.now }
    {
        for _ in 0..READS {
            self.from = 0;
            self.to = read_on(rt, input, "standard input", self.buf, 0).unwrap_or(0);
            if self.to == 0 {
                break;
            }
            let end = self.newline(0);
            if end < self.to {
                let _ = self.up_to(end);
                return;
            }
        }
        self.from = self.to;
        self.ended = true;
    }

    // Reads behind what is kept, which has no newline, until a line is whole.
    fn read_line(
        &mut self,
        rt: &impl Eprint,
        input: &mut impl Read,
    ) -> Option<Result<Range<usize>, TooLong>>
        requires { NoNewline self.old.buf.now self.old.from self.old.to }
        ensures within { NextIn result self.new.buf.now }
        ensures length { length self.new.buf.now ≡ length self.old.buf.now }
    {
        // A `while`: a read gives as many bytes as come, so that nothing counts the turns.
        while self.to < self.buf.len() {
            let behind = self.to;
            let Ok(more) = read_on(rt, input, "standard input", self.buf, behind) else {
                self.from = behind;
                return self.last().map(Ok);
            };
            if more == 0 {
                return self.last().map(Ok);
            }
            self.to += more;
            let end = self.newline(behind);
            if end < self.to {
                return Some(Ok(self.up_to(end)));
            }
        }
        self.pass_over(rt, input);
        Some(Err(TooLong))
    }

    // Where the next line stands: among what is kept, or read.
    fn next_place(
        &mut self,
        rt: &impl Eprint,
        input: &mut impl Read,
    ) -> Option<Result<Range<usize>, TooLong>>
        ensures within { NextIn result self.new.buf.now }
        ensures length { length self.new.buf.now ≡ length self.old.buf.now }
    {
        let from = self.from;
        let end = self.newline(from);
        if end < self.to {
            return Some(Ok(self.up_to(end)));
        }
        if self.ended {
            return self.last().map(Ok);
        }
        self.to_front();
        self.read_line(rt, input)
    }

    // The next line; none at the end of the input, and where reading failed, which was told. Each step above says that the buffer keeps its length. Here no
    // clause can: the line given borrows it, and a `Rests` clause on it, tried, got no proof.
    pub fn next_line(
        &mut self,
        rt: &impl Eprint,
        input: &mut impl Read,
    ) -> Option<Result<&[u8], TooLong>>
        ensures { IfSome result (λ next. IfOk next (λ line. EachIndex line.now (λ k. slice_index line.now k ≢ 10))) }
    {
        match self.next_place(rt, input)? {
            Ok(line) => Some(Ok(&self.buf[line])),
            Err(e) => Some(Err(e)),
        }
    }
}
