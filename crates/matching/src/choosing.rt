// The first by priority of the older orders with a deal.
ghost use Rattle.std.specs.Prelude.{◌≡◌, ◌<◌, if◌then◌else◌, length, IfSome};
ghost use Rattle.matching.specs.Market.{market_of};
ghost use Rattle.matching.specs.Firsts.{passed_over, candidate_at, first};

use crate::matcher::Matcher;
use crate::meeting::Found;
use orders::order::Order;
use orders::row::Row;
use priority::candidate::Candidate;
use priority::priority::Priority;
use terms::terms::Terms;

// Whether a row holds no order that is older than the active one and on the other side.
fn passed_over(active: &Order, row: &Row) -> bool
    ensures { result ≡ passed_over active.now row.now }
{
    row.stamp >= active.stamp || row.side == u32::from(active.side)
}

impl<P: Priority, T: Terms> Matcher<P, T> {
    // The order of a row, if the active one could meet it: older, and with a deal. A row that is passed over need not be read as
    // an order.
    fn candidate(&self, active: &Order, place: usize, row: &Row) -> Option<Found>
        ensures { result ≡ candidate_at (market_of T.deals P.before self.now) active.now place row.now }
    {
        if passed_over(active, row) {
            return None;
        }
        let order = row.order()?;
        let price = self.terms.deal(active, &order, self.quote, self.lot)?;
        Some(Found {
            place,
            candidate: Candidate { order, price },
        })
    }

    // Of the one that is held and the next, the one that comes first; the one that is held, where they are level.
    fn earlier(&self, active: &Order, held: Found, next: Found) -> Found
        ensures { result ≡ (if P.before self.now.priority active.now next.candidate held.candidate then next else held) }
    {
        if self
            .priority
            .precedes(active, &next.candidate, &held.candidate)
        {
            next
        } else {
            held
        }
    }

    pub(crate) fn first(&self, active: &Order, places: &[Row]) -> Option<Found>
        ensures value { result ≡ first (market_of T.deals P.before self.now) active.now places.now }
        ensures within { IfSome result (λ f. f.place < length places.now) }
    {
        // Left out before an item is made of them: most rows are passed over, and an empty item costs as much as a full one.
        places
            .iter()
            .enumerate()
            .filter(|seen| !passed_over(active, seen.1))
            .filter_map(|(place, row)| self.candidate(active, place, row))
            .reduce(|held, next| self.earlier(active, held, next))
    }
}
