// The quote, and the question.
ghost use Rattle.std.specs.Prelude.{◌≡◌};
ghost use Rattle.book.specs.States.{state_of};
ghost use Rattle.book.specs.Calls.{quote, ask, Leaves};

use crate::book::Book;
use orders::call::{Fill, Receipt, Reply};
use orders::quote::Quote;
use orders::refusal::Refusal;
use orders::row::Row;
use places::searching::look_up;
use priority::priority::Priority;
use terms::terms::Terms;

impl<P: Priority, T: Terms> Book<P, T> {
    // Sets the quote and sweeps.
    pub fn quote(&mut self, bid: u32, offer: u32, places: &mut [Row], fills: &mut [Fill]) -> Reply
        ensures { Leaves P.Priority T.Terms (λ u s. quote u s bid offer) self.old self.new places.old places.new fills.old fills.new result }
    {
        self.admits_lists(places, fills.len())?;
        let quote = Quote::new(bid, offer).ok_or(Refusal::WrongQuote)?;
        self.matcher.quote = Some(quote);
        Ok(self.settle(places, fills))
    }

    // The shares left of the order with this number.
    pub fn ask(&self, number: u32, places: &[Row]) -> Reply
        ensures { result ≡ ask (state_of self.now) number places.now }
    {
        if places.len() != self.places {
            return Err(Refusal::WrongPlaces);
        }
        let place = look_up(number, places)?;
        Ok(Receipt {
            number,
            resting: places[place].left,
            ..Receipt::default()
        })
    }
}
