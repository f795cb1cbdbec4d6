// Halt, resumption and close.
ghost use Rattle.book.specs.Calls.{event as event_call, Leaves};

use crate::book::Book;
use orders::call::{Fill, Reply};
use orders::row::Row;
use places::phase::Event;
use priority::priority::Priority;
use terms::terms::Terms;

impl<P: Priority, T: Terms> Book<P, T> {
    // Halts, resumes or closes the book.
    pub fn turn(&mut self, event: Event, places: &mut [Row], fills: &mut [Fill]) -> Reply
        ensures { Leaves P.Priority T.Terms (λ u s. event_call u s event) self.old self.new places.old places.new fills.old fills.new result }
    {
        self.admits_lists(places, fills.len())?;
        self.phase.shift(event)?;
        Ok(self.settle(places, fills))
    }
}
