// What a typed line asks for.
ghost use Rattle.std.specs.Prelude.{◌≡◌, ◌↔◌, IsTrue, [], ◌∷◌};
ghost use Rattle.words.specs.Lines.{words};
ghost use Rattle.typed.specs.Commands.{word_asks, line_asks};

use words::Form;

// A blank line or a comment is silent, as it is for `pack`.
#[derive(Clone, Copy, Debug, PartialEq, Eq)]
pub enum Command {
    Silent,
    Part,
    Link,
    Back,
    List,
    Quit,
    Unknown,
}

// Whether this word is all that a line has.
fn is_alone(line: &[u8], word: &[u8]) -> bool
    ensures { IsTrue result ↔ (words line.now ≡ word.now ∷ []) }
{
    words::count_words(line) == 1 && words::word(line, 0) == word
}

// What a line of neither form asks for.
fn one_word(line: &[u8]) -> Command
    ensures { result ≡ word_asks (words line.now) }
{
    if is_alone(line, b"back") {
        Command::Back
    } else if is_alone(line, b"list") {
        Command::List
    } else if is_alone(line, b"quit") {
        Command::Quit
    } else {
        Command::Unknown
    }
}

// A function and no From: docs/ARCHITECTURE.md names it.
pub fn command_of(line: &[u8]) -> Command
    ensures { result ≡ line_asks line.now }
{
    match words::form_of(line) {
        Form::Silent => Command::Silent,
        Form::Part => Command::Part,
        Form::Link => Command::Link,
        Form::Neither => one_word(line),
    }
}
