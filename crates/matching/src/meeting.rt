// Two orders that trade.
ghost use Rattle.std.specs.Prelude.{◌≡◌};
ghost use Rattle.matching.specs.Trades.{lessened, shares, fill_of, left_active, left_passive};

use orders::call::Fill;
use orders::order::Order;
use orders::row::Row;
use orders::side::Side;
use priority::candidate::Candidate;

// A resting order that an active one could meet, and its place.
#[derive(Clone, Copy)]
pub struct Found {
    pub place: usize,
    pub candidate: Candidate,
}

// An active order with the one that it meets.
#[derive(Clone, Copy)]
pub struct Meeting {
    pub active: Order,
    pub found: Found,
}

// Two resting orders that trade: the place of the active one, and their meeting.
#[derive(Clone, Copy)]
pub struct Pair {
    pub place: usize,
    pub meeting: Meeting,
}

impl Pair {
    // The time of a pair is that of its active order.
    pub(crate) fn stamp(&self) -> u32
        ensures { result ≡ self.now.meeting.active.stamp }
    {
        self.meeting.active.stamp
    }
}

// The row with some shares fewer; a cleared one where none is left.
fn less(row: &Row, by: u32) -> Row
    ensures { result ≡ lessened row.now by }
{
    if by < row.left {
        Row {
            left: row.left - by,
            ..*row
        }
    } else {
        Row::cleared()
    }
}

impl Meeting {
    // The shares that the two trade: the fewer of what they have left.
    fn shares(&self) -> u32
        ensures { result ≡ shares self.now }
    {
        self.active.left.min(self.found.candidate.order.left)
    }

    pub(crate) fn fill(&self) -> Fill
        ensures { result ≡ fill_of self.now }
    {
        let active = self.active.number;
        let passive = self.found.candidate.order.number;
        let (buyer, seller) = match self.active.side {
            Side::Buy => (active, passive),
            Side::Sell => (passive, active),
        };
        Fill {
            buyer,
            seller,
            price: self.found.candidate.price,
            shares: self.shares(),
            active: self.active.side,
        }
    }

    // The active order's row after the trade.
    pub(crate) fn left_active(&self) -> Row
        ensures { result ≡ left_active self.now }
    {
        less(&self.active.into(), self.shares())
    }

    // The resting order's row after the trade.
    pub(crate) fn left_passive(&self) -> Row
        ensures { result ≡ left_passive self.now }
    {
        less(&self.found.candidate.order.into(), self.shares())
    }
}
