// The lines of a text.
ghost use Rattle.std.specs.Prelude.{◌≡◌, length, is_ok, MatchResult, nat_le};
ghost use Rattle.std.specs.Iterator.{YieldsFirstRef, item_count};
ghost use Rattle.reader.specs.Faults.{longest_text};
ghost use Rattle.reader.specs.declared.fault.TextFault.TheVariants.{LongText};
ghost use Rattle.reader.specs.Lines.{lines, Parted};

use crate::fault::{LONGEST_TEXT, TextFault};
use crate::part::part;
pub use crate::words::Token;
use std::marker::Model;

// Reads a lent text line by line, each line without its end. Contracts see the lines that are still to come.
#[derive(Drop)]
pub struct Reader<'a> {
    rest: &'a [u8],
}

impl<'a> Model for Reader<'a> {
    ghost use Rattle.std.specs.Prelude.{ℕ, List};
    ghost use Rattle.reader.specs.Lines.{lines};

    ghost Value = { List (List ℕ) };

    ghost view = { λ r. lines r.rest.now };
}

impl<'a> Reader<'a> {
    // Begins to read a text, unless it is too long.
    pub fn new(text: &'a [u8]) -> Result<Reader<'a>, TextFault>
        ensures test { is_ok result ≡ nat_le (length text.now) longest_text }
        ensures all { MatchResult result (λ x. x ≡ lines text.now) (λ x. x ≡ LongText) }
        ensures parted { Parted text.now (lines text.now) }
    {
        (text.len() <= LONGEST_TEXT)
            .then_some(Reader { rest: text })
            .ok_or(TextFault::LongText)
    }
}

impl<'a> Iterator for Reader<'a> {
    type Item = &'a [u8];

    ghost next_gives = { YieldsFirstRef (λ left. left) };

    ghost remaining = { item_count (λ left. left) };

    fn next(&mut self) -> Option<&'a [u8]> {
        if self.rest.is_empty() {
            return None;
        }
        let (line, rest) = part(self.rest, b'\n');
        self.rest = rest.unwrap_or(&[]);
        Some(line)
    }
}
