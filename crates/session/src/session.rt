// The book now open, if any, and what each command and each line does to it.
ghost use Rattle.std.specs.Prelude.{◌≤◌};
ghost use Rattle.std.specs.Option.{ForSome};
ghost use Rattle.book.specs.States.{state_of};

use crate::fault::{LineFault, SessionFault};
use book::book::Book;
use commands::command::Command;
use orders::call::{Call, Fill, Receipt, Reply};
use orders::refusal::Refusal;
use orders::row::Row;
use venue::ranking::Ranking;
use venue::venue::Venue;

// A book has at most 1,024 places, so this memory serves every book, one after another. It is taken once, so that no call
// allocates: that is why rows and fills are arrays, of which the book's places and the last call's fills are the first.
#[derive(Drop)]
pub struct Session {
    book: Option<Book<Ranking, Venue>>,
    rows: [Row; 1024],
    fills: [Fill; 1024],
    ghost room: { ForSome book (λ b. (state_of b).places ≤ 1024) },
}

impl Session {
    ghost use Rattle.std.specs.Prelude.{◌≡◌, None};
    ghost use Rattle.commands.specs.Commands.{command_of};
    ghost use Rattle.session.specs.Desks.{desk_of, last_fills};
    ghost use Rattle.session.specs.Plays.{Follows, opens, makes, asks, obeys, plays};

    // Before any opening. No `Default` beside it, which would be a second name for one thing.
    pub fn new() -> Session
        ensures { desk_of result ≡ None }
    {
        Session {
            book: None,
            rows: [Row::default(); 1024],
            fills: [Fill::BLANK; 1024],
        }
    }

    // Opens a book in place of the one that was there.
    fn open(&mut self, venue: Venue, last: u32, places: u32) -> Reply
        ensures { Follows (opens venue last places (desk_of self.old)) result self.new }
    {
        // Tested and split by hand: after `get_mut` or `split_at_mut_checked` the check does not know what the rows became.
        let Session { book, rows, .. } = self;
        let places = places as usize;
        if places > rows.len() {
            return Err(Refusal::WrongOpening);
        }
        let (places, _) = rows.split_at_mut(places);
        *book = Some(Book::open(Ranking::of(venue, last), venue, last, places)?);
        Ok(Receipt::default())
    }

    // Makes a call on the open book.
    fn make(&mut self, call: &Call) -> Reply
        ensures { Follows (makes call.now (desk_of self.old)) result self.new }
    {
        let Session { book, rows, fills } = self;
        let Some(book) = book else {
            return Err(Refusal::Closed);
        };
        let (places, _) = rows.split_at_mut(book.place_count());
        book.answer(call, places, fills)
    }

    // The shares left of an order of the open book.
    fn ask(&self, number: u32) -> Reply
        ensures { result ≡ (asks number (desk_of self.now)).reply }
    {
        let Some(book) = &self.book else {
            return Err(Refusal::Closed);
        };
        book.ask(number, &self.rows[..book.place_count()])
    }

    // Does what a command says.
    fn obey(&mut self, command: &Command) -> Reply
        ensures { Follows (obeys command.now (desk_of self.old)) result self.new }
    {
        match *command {
            Command::Open {
                venue,
                last,
                places,
            } => self.open(venue, last, places),
            Command::Make(call) => self.make(&call),
            Command::Ask { number } => self.ask(number),
        }
    }

    // Plays the line of this number: what it comes to, the session after it, and the fills of its call, which are the first
    // of the list.
    pub fn play(&mut self, line: usize, bytes: &[u8]) -> Result<Receipt, SessionFault>
        ensures { Follows (plays line bytes.now (desk_of self.old)) result self.new }
    {
        let command = Command::parse(bytes).map_err(|fault| LineFault { line, fault })?;
        let receipt = self.obey(&command)?;
        Ok(receipt)
    }

    // The first fills of the list, as many as the last call made.
    pub fn fills(&self, count: usize) -> &[Fill]
        ensures { result.now ≡ last_fills count self.now }
    {
        self.fills.get(..count).unwrap_or(&self.fills)
    }
}
