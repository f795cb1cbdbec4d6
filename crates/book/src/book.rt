// What a book knows between calls. Its orders lie in the places, and the fills of a call in a list: both are lent with every
// call and handed back after it, as two slices, since two refusals are about the lengths of just these lists.
use matching::matcher::Matcher;
use places::phase::Phase;

// Clauses see it by `state_of`, `priority_of` and `terms_of`.
#[derive(Drop)]
pub struct Book<P, T> {
    pub(crate) matcher: Matcher<P, T>,
    // how many places there were at opening
    pub(crate) places: usize,
    pub(crate) phase: Phase,
    // the stamp that the next entry takes
    pub(crate) next: u32,
}
