// The amendment and the cancel.
ghost use Rattle.book.specs.Calls.{amend, cancel, Leaves};

use crate::book::Book;
use orders::amendment::Amendment;
use orders::call::{Fill, Receipt, Reply};
use orders::refusal::Refusal;
use orders::row::Row;
use places::searching::look_up;
use priority::priority::Priority;
use terms::terms::Terms;

#[tactic(auto, using(crate::proofs::Entries::set_most))]
impl<P: Priority, T: Terms> Book<P, T> {
    // Amends the order with this number to new shares left and a limit, in its place, and sweeps.
    pub fn amend(&mut self, change: &Amendment, places: &mut [Row], fills: &mut [Fill]) -> Reply
        ensures { Leaves P.Priority T.Terms (λ u s. amend u s change.now.number change.now.shares change.now.limit) self.old self.new places.old places.new fills.old fills.new result }
    {
        self.admits_lists(places, fills.len())?;
        let place = look_up(change.number, places)?;
        let row = places[place];
        self.matcher
            .terms
            .judge(&change.entry(&row), self.matcher.lot)?;
        let changed = change.row(&row, self.next);
        if change.loses_time(&row) {
            if self.next > 1_000_000 {
                return Err(Refusal::NoStamp);
            }
            self.next += 1;
        }

        places[place] = changed;
        let count = self.swept(places, fills, 0);
        let resting = places[place].left;
        Ok(Receipt {
            number: change.number,
            filled: change.shares.saturating_sub(resting),
            resting,
            cancelled: row.left.saturating_sub(change.shares),
            fills: count,
        })
    }

    // Removes the order with this number, and sweeps.
    pub fn cancel(&mut self, number: u32, places: &mut [Row], fills: &mut [Fill]) -> Reply
        ensures { Leaves P.Priority T.Terms (λ u s. cancel u s number) self.old self.new places.old places.new fills.old fills.new result }
    {
        self.admits_lists(places, fills.len())?;
        let place = look_up(number, places)?;
        let cancelled = places[place].left;
        places[place] = Row::cleared();
        Ok(Receipt {
            number,
            cancelled,
            ..self.settle(places, fills)
        })
    }
}
