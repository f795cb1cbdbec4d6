// What an order with a minimum in sum finds at the touch.
ghost use Rattle.std.specs.Prelude.{◌≡◌, ◌-◌, nat_lt};
ghost use Rattle.orders.specs.Rows.{order_of, in_force};
ghost use Rattle.matching.specs.Market.{market_of};
ghost use Rattle.matching.specs.Sums.{is_touch, dealt_at_touch, counted, weighed, sum_of, stops};

use crate::matcher::Matcher;
use orders::kind::Kind;
use orders::order::Order;
use orders::row::Row;
use priority::priority::Priority;
use terms::terms::Terms;

impl<P: Priority, T: Terms> Matcher<P, T> {
    // Whether a price is the touch for an active order; without a quote there is none. The dark terms ask it of a quote that is
    // there, in one line.
    pub(crate) fn is_touch(&self, active: &Order, price: u32) -> bool
        ensures { result ≡ is_touch self.now.quote active.now.side price }
    {
        self.quote
            .is_some_and(|quote| price == quote.touch(active.side))
    }

    // Whether a resting order has a deal at the touch with the active one.
    fn deals_at_touch(&self, active: &Order, resting: &Order) -> bool
        ensures { result ≡ dealt_at_touch self.now.quote active.now.side ((market_of T.deals P.before self.now).deal active.now resting.now) }
    {
        self.terms
            .deal(active, resting, self.quote, self.lot)
            .is_some_and(|price| self.is_touch(active, price))
    }

    // The shares of a row that count at the touch.
    fn counted(&self, active: &Order, row: &Row) -> u32
        ensures { result ≡ weighed (counted (market_of T.deals P.before self.now) active.now) (order_of row.now) }
    {
        match row.order() {
            Some(order) if order.minimum == 0 && self.deals_at_touch(active, &order) => order.left,
            _ => 0,
        }
    }

    // What the orders at the touch lack of some shares. It is counted down, since their sum could be any number.
    fn lacking(&self, active: &Order, shares: u32, places: &[Row]) -> u32
        ensures { result ≡ shares - sum_of (counted (market_of T.deals P.before self.now) active.now) places.now }
    {
        places.iter().fold(shares, |lack, row| {
            lack.saturating_sub(self.counted(active, row))
        })
    }

    // Whether less stands at the touch than the active order asks for.
    fn falls_short(&self, active: &Order, places: &[Row]) -> bool
        ensures { result ≡ nat_lt (sum_of (counted (market_of T.deals P.before self.now) active.now) places.now) (in_force active.now) }
    {
        self.lacking(active, active.minimum_in_force(), places) > 0
    }

    // Whether an active order stops before a fill at a price.
    pub(crate) fn stops(&self, touched: bool, active: &Order, places: &[Row], price: u32) -> bool
        ensures { result ≡ stops (market_of T.deals P.before self.now) touched active.now places.now price }
    {
        !touched
            && active.kind == Kind::MinimumSum
            && self.is_touch(active, price)
            && self.falls_short(active, places)
    }
}
