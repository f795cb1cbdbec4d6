// What every trading terms must be.
ghost use Rattle.std.specs.Prelude.{◌≡◌, ℕ, ◌≤◌, true, is_some, IfSome, Ok, Option as Maybe, Result as Outcome};
ghost use Rattle.orders.specs.Grid.{highest_price};
ghost use Rattle.orders.specs.Ranges.{last_stamp};
ghost use Rattle.orders.specs.Rows.{order_of, entry_row};
ghost use Rattle.orders.specs.Sides.{opposite};
ghost use Rattle.orders.specs.declared.entry.Entry.{Entry};
ghost use Rattle.orders.specs.declared.lot.Lot.{Lot};
ghost use Rattle.orders.specs.declared.order.Order.{Order};
ghost use Rattle.orders.specs.declared.quote.Quote.{Quote};
ghost use Rattle.terms.specs.declared.rejection.Rejection.{Rejection};

use crate::rejection::Rejection;
use orders::entry::Entry;
use orders::lot::Lot;
use orders::order::Order;
use orders::quote::Quote;

// Terms read nothing but what they are handed, and change nothing.
pub trait Terms {
    // The deal: the price at which an active order trades with a resting one under a quote, or none.
    ghost deals: { Self → (active resting : Order) → Maybe Quote → Lot → Maybe ℕ };

    // The verdict: an entry is taken, or what is wrong with it.
    ghost verdict: { Self → Entry → Lot → Outcome (Unit {0}) Rejection };

    // What a deal turns on, four things and no more, is the rule itself; so they stand here one by one.
    fn deal(&self, active: &Order, resting: &Order, quote: Option<Quote>, lot: Lot) -> Option<u32>
        ensures { result ≡ deals self.now active.now resting.now quote lot };

    fn judge(&self, entry: &Entry, lot: Lot) -> Result<(), Rejection>
        ensures { result ≡ verdict self.now entry.now lot };

    // Deals are only between opposite sides.
    ghost opposite_sides: { (t : Self) (a r : Order) (q : Maybe Quote) (lot : Lot) → is_some (deals t a r q lot) ≡ true → opposite a.side r.side ≡ true };

    // The price of a deal is a price.
    ghost priced: { (t : Self) (a r : Order) (q : Maybe Quote) (lot : Lot) → IfSome (deals t a r q lot) (λ p. (1 ≤ p) × (p ≤ highest_price)) };

    // An entry that is taken makes an order at every stamp.
    ghost in_range: { (t : Self) (e : Entry) (lot : Lot) → verdict t e lot ≡ Ok tt → (stamp : ℕ) → 1 ≤ stamp → stamp ≤ last_stamp → is_some (order_of (entry_row e stamp)) ≡ true };

    // An entry that is taken asks for no more at least than it has itself.
    ghost modest: { (t : Self) (e : Entry) (lot : Lot) → verdict t e lot ≡ Ok tt → e.minimum ≤ e.shares };
}
