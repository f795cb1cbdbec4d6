// What every priority must be.
ghost use Rattle.std.specs.Prelude.{◌≡◌, Bool, true, false, not, ◌≢◌};
ghost use Rattle.orders.specs.Sides.{better};
ghost use Rattle.orders.specs.declared.order.Order.{Order};
ghost use Rattle.priority.specs.declared.candidate.Candidate.{Candidate};

use crate::candidate::Candidate;
use orders::order::Order;

// A priority reads nothing but what it is handed, and changes nothing.
pub trait Priority {
    // For an active order, the first candidate comes before the second.
    ghost before: { Self → (active : Order) → Candidate → Candidate → Bool };

    fn precedes(&self, active: &Order, first: &Candidate, second: &Candidate) -> bool
        ensures { result ≡ before self.now active.now first.now second.now };

    // None comes before itself.
    ghost irreflexive: { (s : Self) (a : Order) (x : Candidate) → before s a x x ≡ false };

    ghost transitive: { (s : Self) (a : Order) (x y z : Candidate) → before s a x y ≡ true → before s a y z ≡ true → before s a x z ≡ true };

    // Of two with different stamps exactly one comes first.
    ghost one_first: { (s : Self) (a : Order) (x y : Candidate) → (x.order.stamp ≢ y.order.stamp) → before s a x y ≡ not (before s a y x) };

    // The one with the better price for the active order comes first.
    ghost better_price: { (s : Self) (a : Order) (x y : Candidate) → better a.side x.price y.price ≡ true → before s a x y ≡ true };
}
