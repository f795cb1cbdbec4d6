// What decides every trade of a book.
use orders::lot::Lot;
use orders::quote::Quote;

#[derive(Drop)]
pub struct Matcher<P, T> {
    pub priority: P,
    pub terms: T,
    pub lot: Lot,
    pub quote: Option<Quote>,
}
