// An iterator over the lines of a text.
ghost use Rattle.std.specs.Prelude.{◌≡◌};
ghost use Rattle.std.specs.Iterator.{YieldsFirstBy, item_count};
ghost use Rattle.text.specs.Walk.{line_given, rest};

// The next line starts at `at`; past the end of the text stands none. A text that ends in a newline has one more line behind it, with no byte.
#[derive(Drop)]
pub(crate) struct Lines<'a> {
    text: &'a [u8],
    at: usize,
}

impl<'a> Lines<'a> {
    ghost use Rattle.words.specs.Lines.{lines_of};

    pub(crate) fn new(text: &'a [u8]) -> Lines<'a>
        ensures { rest result ≡ lines_of text.now }
    {
        Lines { text, at: 0 }
    }
}

// Each line with the place where it starts.
impl<'a> Iterator for Lines<'a> {
    type Item = (usize, &'a [u8]);

    ghost next_gives = { YieldsFirstBy line_given rest };

    ghost remaining = { item_count rest };

    fn next(&mut self) -> Option<(usize, &'a [u8])> {
        if self.text.len() < self.at {
            return None;
        }
        let at = self.at;
        let end = words::line_end(self.text, at);
        self.at = end + 1;
        Some((at, &self.text[at..end]))
    }
}
