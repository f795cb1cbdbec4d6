// The entry.
ghost use Rattle.std.specs.Prelude.{◌≡◌, ◌-◌, length, Ok};
ghost use Rattle.book.specs.States.{state_of, rules_in};
ghost use Rattle.book.specs.Calls.{entry_cause, entered, enter, Leaves};

use crate::book::Book;
use orders::call::{Fill, Receipt, Reply};
use orders::entry::Entry;
use orders::refusal::Refusal;
use orders::row::Row;
use places::remainders::{at_once_as, cancelled_of, rests_as, stays_as};
use places::searching::{free_place, left_at, put};
use priority::priority::Priority;
use terms::terms::Terms;

// The reply to an entry: what neither rests nor was cancelled of its shares is filled.
fn entry_receipt(number: u32, shares: u32, resting: u32, cancelled: u32, count: usize) -> Receipt
    ensures { result ≡ record { number = number; filled = shares - resting - cancelled; resting = resting; cancelled = cancelled; fills = count } }
{
    Receipt {
        number,
        filled: shares.saturating_sub(resting).saturating_sub(cancelled),
        resting,
        cancelled,
        fills: count,
    }
}

impl<P: Priority, T: Terms> Book<P, T> {
    // The first cause that sends an entry back. Apart from what follows: in one function with it, the proof of the last two
    // returns did not close.
    fn admits_entry(&self, entry: &Entry, places: &[Row], entries: usize) -> Result<(), Refusal>
        ensures { result ≡ entry_cause (rules_in P.Priority T.Terms self.now) (state_of self.now) entry.now entries places.now }
    {
        self.admits_lists(places, entries)?;
        if self.phase.is_halted() && at_once_as(entry.kind) {
            return Err(Refusal::AtOnceWhileHalted);
        }
        self.matcher.terms.judge(entry, self.matcher.lot)?;
        if rests_as(entry.kind) && free_place(places).is_none() {
            return Err(Refusal::NoPlace);
        }
        if self.next > 1_000_000 {
            return Err(Refusal::NoStamp);
        }
        Ok(())
    }

    // Lets an entered order trade, rests or cancels what is left of it, and sweeps; the stamp is yet to be counted.
    fn entered(&self, entry: &Entry, places: &mut [Row], fills: &mut [Fill]) -> Receipt
        requires { entry_cause (rules_in P.Priority T.Terms self.now) (state_of self.now) entry.now (length fills.old) places.old ≡ Ok tt }
        ensures { Leaves P.Priority T.Terms (λ u s _ rows. record (entered u s entry.now rows) { state = s }) self.now self.now places.old places.new fills.old fills.new (Ok result) }
    {
        let free = free_place(places);
        let run = self.tried(&entry.row(self.next), places, fills);
        let rests = rests_as(entry.kind);
        let place = free.filter(|_| stays_as(rests, &run.active));
        put(places, place, &run.active);
        let count = self.swept(places, fills, run.count);
        let resting = left_at(places, place);
        let cancelled = cancelled_of(rests, &run.active);
        entry_receipt(self.next, entry.shares, resting, cancelled, count)
    }

    // Enters an order.
    pub fn enter(&mut self, entry: &Entry, places: &mut [Row], fills: &mut [Fill]) -> Reply
        ensures { Leaves P.Priority T.Terms (λ u s. enter u s entry.now) self.old self.new places.old places.new fills.old fills.new result }
    {
        self.admits_entry(entry, places, fills.len())?;
        let receipt = self.entered(entry, places, fills);
        self.next += 1;
        Ok(receipt)
    }
}
