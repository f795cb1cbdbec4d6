// The two priorities of the market.
ghost use Rattle.std.specs.Prelude.{◌≡◌, ℕ};
ghost use Rattle.orders.specs.declared.order.Order.{Order};
ghost use Rattle.priority.specs.Ranking.{same_broker, large_shares, sized_before};
ghost use Rattle.priority.specs.Lawful as lawful;

use crate::candidate::Candidate;
use crate::priority::Priority;
use orders::mark::Mark;
use orders::order::Order;
use std::cmp::Reverse;

// A priority by price, visible before hidden, the same broker, the shares that count, and time.
pub trait PriceBroker {
    ghost counted: { Self → Order → ℕ };

    // The shares of a resting order that count: of two orders, the one with more comes first.
    fn counted(&self, order: &Order) -> u32
        ensures { result ≡ counted self.now order.now };
}

// Whether a resting order is of the active order's broker, and both show it.
fn same_broker(active: &Order, resting: &Order) -> bool
    ensures { result ≡ same_broker active.now resting.now }
{
    active.mark == Mark::Attributed
        && resting.mark == Mark::Attributed
        && active.broker == resting.broker
}

impl<R: PriceBroker> Priority for R {
    ghost before = { λ r. sized_before (R.counted r) };

    ghost irreflexive = { λ r a. lawful.irreflexive (R.counted r) a };

    ghost transitive = { λ r a. lawful.transitive (R.counted r) a };

    ghost one_first = { λ r a. lawful.one_first (R.counted r) a };

    ghost better_price = { λ r a. lawful.better_price (R.counted r) a };

    fn precedes(&self, active: &Order, first: &Candidate, second: &Candidate) -> bool {
        // The smaller comes first, and `false` before `true`.
        let rank = |order: &Order| {
            (
                order.hidden,
                !same_broker(active, order),
                Reverse(self.counted(order)),
                order.stamp,
            )
        };
        active.side.is_better(first.price, second.price)
            || first.price == second.price && rank(&first.order) < rank(&second.order)
    }
}

// Price, broker, time: no shares count.
#[derive(Clone, Copy)]
pub struct PriceBrokerTime;

impl PriceBroker for PriceBrokerTime {
    ghost counted = { λ _ _. 0 };

    fn counted(&self, _order: &Order) -> u32 {
        0
    }
}

// Price, broker, large size, time.
#[derive(Clone, Copy)]
pub struct PriceBrokerSizeTime;

impl PriceBroker for PriceBrokerSizeTime {
    ghost counted = { λ _. large_shares };

    // The shares left of a large order: visible, with 30,000 or more. Of any other none count.
    fn counted(&self, order: &Order) -> u32 {
        if !order.hidden && order.left >= 30_000 {
            order.left
        } else {
            0
        }
    }
}
