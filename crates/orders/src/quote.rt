// The national best bid and offer.
ghost use Rattle.std.specs.Prelude.{◌≡◌, ◌&&◌, true, is_some, nat_lt};
ghost use Rattle.orders.specs.Grid.{on_grid};

use crate::price::Price;
use crate::side::Side;

// No quote exists whose bid is not below its offer.
#[derive(Clone, Copy, PartialEq, Eq, Debug)]
pub struct Quote {
    pub bid: Price,
    pub offer: Price,
    ghost ok: { nat_lt bid.quarters offer.quarters ≡ true },
}

impl Quote {
    ghost use Rattle.orders.specs.Quotes.{quote_of, middle, narrow, touch};

    // A checked constructor, as that of a price.
    pub fn new(bid: u32, offer: u32) -> Option<Quote>
        ensures value { result ≡ quote_of bid offer }
        ensures test { is_some result ≡ (on_grid bid && on_grid offer && nat_lt bid offer) }
    {
        let bid = Price::new(bid)?;
        let offer = Price::new(offer)?;
        if bid.quarters < offer.quarters {
            Some(Quote { bid, offer })
        } else {
            None
        }
    }

    // Half of the sum of bid and offer.
    pub fn middle(&self) -> u32
        ensures { result ≡ middle self.now }
    {
        (self.bid.quarters + self.offer.quarters) / 2
    }

    // Whether the offer is the step above the bid.
    pub fn is_narrow(&self) -> bool
        ensures { result ≡ narrow self.now }
    {
        self.offer.quarters == self.bid.step_above()
    }

    // The other side's quoted price, for an active order of this side.
    pub fn touch(&self, side: Side) -> u32
        ensures { result ≡ touch side self.now }
    {
        match side {
            Side::Buy => self.offer.quarters,
            Side::Sell => self.bid.quarters,
        }
    }
}
