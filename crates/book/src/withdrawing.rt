// The withdrawal of the quote.
ghost use Rattle.book.specs.Calls.{withdraw, Leaves};

use crate::book::Book;
use orders::call::{Fill, Reply};
use orders::row::Row;
use priority::priority::Priority;
use terms::terms::Terms;

impl<P: Priority, T: Terms> Book<P, T> {
    // Removes the quote and sweeps.
    pub fn withdraw(&mut self, places: &mut [Row], fills: &mut [Fill]) -> Reply
        ensures { Leaves P.Priority T.Terms withdraw self.old self.new places.old places.new fills.old fills.new result }
    {
        self.admits_lists(places, fills.len())?;
        self.matcher.quote = None;
        Ok(self.settle(places, fills))
    }
}
