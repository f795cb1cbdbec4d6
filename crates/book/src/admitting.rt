// What every call but opening and the question meets first.
ghost use Rattle.std.specs.Prelude.{◌≡◌, ◌≤◌, length, nat_lt, OnOk};
ghost use Rattle.places.specs.Phases.{is_closed};
ghost use Rattle.book.specs.States.{state_of};
ghost use Rattle.book.specs.Causes.{handed_in, other_places};

use crate::book::Book;
use orders::refusal::Refusal;
use orders::row::Row;

impl<P, T> Book<P, T> {
    // A closed book, or lists that do not fit.
    pub(crate) fn admits_lists(&self, places: &[Row], entries: usize) -> Result<(), Refusal>
        ensures cause { result ≡ handed_in (is_closed self.now.phase) (other_places (state_of self.now) places.now) (nat_lt entries (length places.now)) }
        ensures fit { OnOk result (length places.now ≤ entries) }
    {
        if self.phase.is_closed() {
            return Err(Refusal::Closed);
        }
        if places.len() != self.places {
            return Err(Refusal::WrongPlaces);
        }
        if entries < places.len() {
            return Err(Refusal::FewFills);
        }
        Ok(())
    }
}
