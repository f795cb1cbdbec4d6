// What stands next in a line, and what follows each verb.
ghost use Rattle.std.specs.Prelude.{◌≡◌, ℕ, List, Option};
ghost use Rattle.std.specs.Fn.{FnOnceReturnsAt};
ghost use Rattle.reader.specs.Words.{token, onward};
ghost use Rattle.commands.specs.declared.command.Command.TheVariants.{Make};
ghost use Rattle.commands.specs.Tokens.{as_number, as_word, as_end};
ghost use Rattle.commands.specs.Commands.{number_then, end_then, open_by, quote_by, cancel_by, amend_by, ask_by, enter_by, marks_by, command_by, first_command};

use crate::command::Command;
use orders::amendment::Amendment;
use orders::call::Call;
use orders::entry::Entry;
use reader::fault::TextFault;
use reader::words::{Token, Words};
use verbs::verb::{Verb, side_word, venue_word, verb_word};

fn next_number(words: &mut Words<'_>) -> Result<u32, TextFault>
    ensures value { result ≡ as_number (token words.old) }
    ensures rest { words.new ≡ onward words.old }
{
    match words.next() {
        Token::Number(_, value, _) => Ok(value),
        Token::Word(_, at) | Token::End(_, at) => Err(TextFault::Word(at)),
    }
}

fn line_end(words: &mut Words<'_>) -> Result<(), TextFault>
    ensures { result ≡ as_end (token words.old) }
{
    match words.next() {
        Token::End(_, _) => Ok(()),
        Token::Word(_, at) | Token::Number(_, _, at) => Err(TextFault::Word(at)),
    }
}

// A word that stands for something, as `named` tells.
fn next_word<T, F: FnOnce(&[u8]) -> Option<T> + Drop>(
    words: &mut Words<'_>,
    named: F,
) -> Result<T, TextFault>
    requires { F.IsAlwaysCallable named }
    ensures value { (of : List ℕ → Option T) → ((w : List ℕ) (r : Option T) → FnOnceReturnsAt F.FnOnce named w r → r ≡ of w) → result ≡ as_word of (token words.old) }
    ensures rest { words.new ≡ onward words.old }
{
    match words.next() {
        Token::Word(word, at) => named(word).ok_or(TextFault::Word(at)),
        Token::Number(_, _, at) | Token::End(_, at) => Err(TextFault::Word(at)),
    }
}

// A number that ends the line.
fn last_number(words: &mut Words<'_>) -> Result<u32, TextFault>
    ensures { result ≡ number_then words.old (λ n r. end_then r n) }
{
    let number = next_number(words)?;
    line_end(words)?;
    Ok(number)
}

// A command of one word.
fn bare(words: &mut Words<'_>, call: Call) -> Result<Command, TextFault>
    ensures { result ≡ end_then words.old (Make call) }
{
    line_end(words)?;
    Ok(Command::Make(call))
}

fn open(words: &mut Words<'_>) -> Result<Command, TextFault>
    ensures { result ≡ open_by words.old }
{
    Ok(Command::Open {
        venue: next_word(words, venue_word)?,
        last: next_number(words)?,
        places: last_number(words)?,
    })
}

// The mark and the hidden mark, which may be absent together.
fn marks(words: &mut Words<'_>) -> Result<(u32, u32), TextFault>
    ensures { result ≡ marks_by words.old }
{
    match words.next() {
        Token::End(_, _) => Ok((0, 0)),
        Token::Word(_, at) => Err(TextFault::Word(at)),
        Token::Number(_, mark, _) => Ok((mark, last_number(words)?)),
    }
}

fn enter(words: &mut Words<'_>) -> Result<Command, TextFault>
    ensures { result ≡ enter_by words.old }
{
    let side = next_word(words, side_word)?;
    let kind = next_number(words)?;
    let shares = next_number(words)?;
    let limit = next_number(words)?;
    let minimum = next_number(words)?;
    let broker = next_number(words)?;
    let (mark, hidden) = marks(words)?;
    Ok(Command::Make(Call::Enter(Entry {
        side: side.into(),
        kind,
        shares,
        limit,
        minimum,
        broker,
        mark,
        hidden,
    })))
}

fn amend(words: &mut Words<'_>) -> Result<Command, TextFault>
    ensures { result ≡ amend_by words.old }
{
    Ok(Command::Make(Call::Amend(Amendment {
        number: next_number(words)?,
        shares: next_number(words)?,
        limit: last_number(words)?,
    })))
}

fn cancel(words: &mut Words<'_>) -> Result<Command, TextFault>
    ensures { result ≡ cancel_by words.old }
{
    Ok(Command::Make(Call::Cancel {
        number: last_number(words)?,
    }))
}

fn quote(words: &mut Words<'_>) -> Result<Command, TextFault>
    ensures { result ≡ quote_by words.old }
{
    Ok(Command::Make(Call::Quote {
        bid: next_number(words)?,
        offer: last_number(words)?,
    }))
}

fn ask(words: &mut Words<'_>) -> Result<Command, TextFault>
    ensures { result ≡ ask_by words.old }
{
    Ok(Command::Ask {
        number: last_number(words)?,
    })
}

// What follows a verb.
fn command_by(verb: Verb, words: &mut Words<'_>) -> Result<Command, TextFault>
    ensures { result ≡ command_by verb words.old }
{
    match verb {
        Verb::Open => open(words),
        Verb::Enter => enter(words),
        Verb::Amend => amend(words),
        Verb::Cancel => cancel(words),
        Verb::Quote => quote(words),
        Verb::NoQuote => bare(words, Call::Withdraw),
        Verb::Halt => bare(words, Call::Halt),
        Verb::Resume => bare(words, Call::Resume),
        Verb::Close => bare(words, Call::Close),
        Verb::Ask => ask(words),
    }
}

pub(crate) fn first_command(words: &mut Words<'_>) -> Result<Command, TextFault>
    ensures { result ≡ first_command words.old }
{
    command_by(next_word(words, verb_word)?, words)
}
