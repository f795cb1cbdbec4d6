// Opening.
ghost use Rattle.std.specs.Prelude.{◌≡◌, ℕ, length, replicate, is_ok, if◌then◌else◌, MatchResult};
ghost use Rattle.orders.specs.Rows.{cleared};
ghost use Rattle.orders.specs.declared.refusal.Refusal.TheVariants.{WrongOpening};
ghost use Rattle.book.specs.States.{state_of, priority_of, terms_of, opened};
ghost use Rattle.book.specs.Causes.{openable};

use crate::book::Book;
use matching::matcher::Matcher;
use orders::lot::Lot;
use orders::refusal::Refusal;
use orders::row::Row;
use places::phase::Phase;
use priority::priority::Priority;
use terms::terms::Terms;

fn is_openable(last: u32, places: usize) -> bool
    ensures { result ≡ openable last places }
{
    (1..=4_000_000).contains(&last) && (1..=1_024).contains(&places)
}

impl<P: Priority + Drop, T: Terms + Drop> Book<P, T> {
    // Opens a book on the lent places.
    pub fn open(priority: P, terms: T, last: u32, places: &mut [Row]) -> Result<Book<P, T>, Refusal>
        ensures test { is_ok result ≡ openable last (length places.old) }
        ensures book { MatchResult result (λ b. (state_of b ≡ opened last (length places.old)) × (priority_of b ≡ priority) × (terms_of b ≡ terms)) (λ x. x ≡ WrongOpening) }
        ensures places { places.new ≡ (if openable last (length places.old) then replicate (length places.old) cleared else places.old) }
    {
        if !is_openable(last, places.len()) {
            return Err(Refusal::WrongOpening);
        }
        places.fill(Row::cleared());
        let matcher = Matcher {
            priority,
            terms,
            lot: Lot::at(last),
            quote: None,
        };
        Ok(Book {
            matcher,
            places: places.len(),
            phase: Phase::Open,
            next: 1,
        })
    }
}
