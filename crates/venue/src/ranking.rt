// The two priorities, chosen while the program runs: by an enum, since a `dyn` cannot be made and handed out.
ghost use Rattle.std.specs.Prelude.{◌≡◌};
ghost use Rattle.venue.specs.Rankings.{ranking_size, ranking_of};

use crate::venue::Venue;
use orders::order::Order;
use priority::ranking::{PriceBroker, PriceBrokerSizeTime, PriceBrokerTime};

#[derive(Clone, Copy, PartialEq, Eq, Debug)]
pub enum Ranking {
    // price, broker, time
    ByTime,
    // price, broker, large size, time
    BySize,
}

impl Ranking {
    // The priority of a book: large size counts only in a lit book whose last sale was below 400.
    pub fn of(venue: Venue, last: u32) -> Ranking
        ensures { result ≡ ranking_of venue last }
    {
        match venue {
            Venue::LitBook if last < 400 => Ranking::BySize,
            _ => Ranking::ByTime,
        }
    }
}

impl PriceBroker for Ranking {
    ghost counted = { ranking_size };

    fn counted(&self, order: &Order) -> u32 {
        match self {
            Ranking::ByTime => PriceBrokerTime.counted(order),
            Ranking::BySize => PriceBrokerSizeTime.counted(order),
        }
    }
}
