// What every call of a book ends with: in an open book, the sweep.
ghost use Rattle.std.specs.Prelude.{◌≡◌, ◌+◌, ◌≤◌, length, Ok};
ghost use Rattle.matching.specs.Runs.{written};
ghost use Rattle.matching.specs.Sweeps.{occupied};
ghost use Rattle.book.specs.States.{state_of, rules_in};
ghost use Rattle.book.specs.Calls.{tried, swept, settled, Leaves};

use crate::book::Book;
use matching::rounds::Run;
use orders::call::{Fill, Receipt};
use orders::row::Row;
use priority::priority::Priority;
use terms::terms::Terms;

impl<P: Priority, T: Terms> Book<P, T> {
    // Lets an entered order trade, if the book is open.
    pub(crate) fn tried(&self, active: &Row, places: &mut [Row], fills: &mut [Fill]) -> Run
        requires { length places.old ≤ length fills.old }
        ensures count { result.count ≡ length (tried (rules_in P.Priority T.Terms self.now) (state_of self.now) active.now places.old).fills }
        ensures active { result.active ≡ (tried (rules_in P.Priority T.Terms self.now) (state_of self.now) active.now places.old).active }
        ensures places { places.new ≡ (tried (rules_in P.Priority T.Terms self.now) (state_of self.now) active.now places.old).rows }
        ensures fills { fills.new ≡ written 0 (tried (rules_in P.Priority T.Terms self.now) (state_of self.now) active.now places.old).fills fills.old }
    {
        if self.phase.is_open() {
            return self.matcher.run(active, places, fills);
        }
        Run {
            count: 0,
            active: *active,
        }
    }

    // Lets resting orders trade, if the book is open; their fills come after those that the call has made.
    pub(crate) fn swept(&self, places: &mut [Row], fills: &mut [Fill], from: usize) -> usize
        requires { from + occupied places.old ≤ length fills.old + 1 }
        ensures count { result ≡ from + length (swept (rules_in P.Priority T.Terms self.now) (state_of self.now) places.old).fills }
        ensures places { places.new ≡ (swept (rules_in P.Priority T.Terms self.now) (state_of self.now) places.old).rows }
        ensures few { result ≤ from + length places.old }
        ensures fills { fills.new ≡ written from (swept (rules_in P.Priority T.Terms self.now) (state_of self.now) places.old).fills fills.old }
    {
        if self.phase.is_open() {
            return self.matcher.sweep(places, fills, from);
        }
        from
    }

    // Sweeps at the end of a call without an order, which has made no fills itself.
    #[tactic(auto, using(matching::proofs::Occupied::occupied_most))]
    pub(crate) fn settle(&self, places: &mut [Row], fills: &mut [Fill]) -> Receipt
        requires { length places.old ≤ length fills.old }
        ensures { Leaves P.Priority T.Terms (λ u s _ rows. settled s (swept u s rows)) self.now self.now places.old places.new fills.old fills.new (Ok result) }
    {
        let count = self.swept(places, fills, 0);
        Receipt {
            fills: count,
            ..Receipt::default()
        }
    }
}
