// The words of a line.
ghost use Rattle.std.specs.Prelude.{◌≡◌};
ghost use Rattle.reader.specs.Numbers.{number_of};
ghost use Rattle.reader.specs.Words.{piece, named, whole, token, onward};
ghost use Rattle.reader.specs.Seen.{seen};

use crate::number::number;
use crate::part::part;
use std::marker::Model;

// A word of a line, a number, or the line's end, each with its bytes, borrowed from the line, and the place where they begin.
// An end has the empty rest of the line.
#[derive(Clone, Copy)]
pub enum Token<'a> {
    Word(&'a [u8], usize),
    Number(&'a [u8], u32, usize),
    End(&'a [u8], usize),
}

// The words of a line that are still to be read.
#[derive(Drop)]
pub struct Words<'a> {
    line: &'a [u8],
    // where the next word begins, if there is one
    next: Option<usize>,
}

impl<'a> Model for Words<'a> {
    ghost use Rattle.std.specs.Prelude.{◌≤◌, length, IfSome};
    ghost use Rattle.reader.specs.Words.{Rest, words_from};

    ghost Value = { Rest };

    ghost view = { λ w. record { last = length w.line.now; todo = words_from w.line.now w.next } };

    ghost invariant = { λ w. IfSome w.next (λ at. at ≤ length w.line.now) };
}

impl<'a> Words<'a> {
    // Before the first word of a line; an empty line has none.
    pub fn new(line: &'a [u8]) -> Words<'a>
        ensures { result ≡ whole line.now }
    {
        Words {
            line,
            next: (!line.is_empty()).then_some(0),
        }
    }

    // What stands next, and moves past it. This is no `Iterator`: past the words it goes on to give the end, with its place.
    pub fn next(&mut self) -> Token<'a>
        ensures first { seen result ≡ token self.old }
        ensures rest { self.new ≡ onward self.old }
    {
        let Some(at) = self.next else {
            let end = self.line.len();
            return Token::End(&self.line[end..], end);
        };
        let (word, rest) = part(&self.line[at..], b' ');
        self.next = rest.map(|rest| self.line.len() - rest.len());
        token_of(word, at)
    }
}

// The token of a word that begins at `at`.
fn token_of<'a>(word: &'a [u8], at: usize) -> Token<'a>
    ensures { seen result ≡ named (number_of word.now) (piece at word.now) }
{
    match number(word) {
        Some(value) => Token::Number(word, value, at),
        None => Token::Word(word, at),
    }
}
