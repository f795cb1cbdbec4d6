// The words of the session text.
ghost use Rattle.std.specs.Prelude.{◌≡◌};
ghost use Rattle.verbs.specs.Vocabulary.{verb_of, venue_of, side_of};

use orders::side::Side;
use venue::venue::Venue;

// The first word of a line.
#[derive(Clone, Copy, PartialEq, Eq, Debug)]
pub enum Verb {
    Open,
    Enter,
    Amend,
    Cancel,
    Quote,
    NoQuote,
    Halt,
    Resume,
    Close,
    Ask,
}

// What a word names, if it is a word for a verb. Each of the three tables is byte-slice patterns, as the text asks of words.
pub fn verb_word(word: &[u8]) -> Option<Verb>
    ensures { result ≡ verb_of word.now }
{
    match word {
        b"OPEN" => Some(Verb::Open),
        b"ENTER" => Some(Verb::Enter),
        b"AMEND" => Some(Verb::Amend),
        b"CANCEL" => Some(Verb::Cancel),
        b"QUOTE" => Some(Verb::Quote),
        b"NOQUOTE" => Some(Verb::NoQuote),
        b"HALT" => Some(Verb::Halt),
        b"RESUME" => Some(Verb::Resume),
        b"CLOSE" => Some(Verb::Close),
        b"ASK" => Some(Verb::Ask),
        _ => None,
    }
}

pub fn venue_word(word: &[u8]) -> Option<Venue>
    ensures { result ≡ venue_of word.now }
{
    match word {
        b"LIT" => Some(Venue::LitBook),
        b"DARK" => Some(Venue::DarkBook),
        _ => None,
    }
}

pub fn side_word(word: &[u8]) -> Option<Side>
    ensures { result ≡ side_of word.now }
{
    match word {
        b"BUY" => Some(Side::Buy),
        b"SELL" => Some(Side::Sell),
        _ => None,
    }
}
