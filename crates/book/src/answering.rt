// Any call on an open book, by one function.
ghost use Rattle.std.specs.Prelude.{◌≡◌};
ghost use Rattle.book.specs.States.{state_of};
ghost use Rattle.book.specs.Calls.{answer, Leaves};

use crate::book::Book;
use orders::call::{Call, Fill, Reply};
use orders::row::Row;
use places::phase::Event;
use priority::priority::Priority;
use terms::terms::Terms;

impl<P, T> Book<P, T> {
    // How many places there were at opening: so many are handed in with every call.
    pub fn place_count(&self) -> usize
        ensures { result ≡ (state_of self.now).places }
    {
        self.places
    }
}

impl<P: Priority, T: Terms> Book<P, T> {
    // Makes a call.
    pub fn answer(&mut self, call: &Call, places: &mut [Row], fills: &mut [Fill]) -> Reply
        ensures { Leaves P.Priority T.Terms (λ u s. answer u s call.now) self.old self.new places.old places.new fills.old fills.new result }
    {
        match *call {
            Call::Enter(entry) => self.enter(&entry, places, fills),
            Call::Amend(change) => self.amend(&change, places, fills),
            Call::Cancel { number } => self.cancel(number, places, fills),
            Call::Quote { bid, offer } => self.quote(bid, offer, places, fills),
            Call::Withdraw => self.withdraw(places, fills),
            Call::Halt => self.turn(Event::Halt, places, fills),
            Call::Resume => self.turn(Event::Resume, places, fills),
            Call::Close => self.turn(Event::Close, places, fills),
        }
    }
}
