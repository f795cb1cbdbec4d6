// One call of a day.
use orders::call::Call;

#[derive(Clone, Copy)]
pub struct Item {
    pub call: Call,
    // how many of the lent places and fill entries the call hands in; never more than there are
    pub places: usize,
    pub fills: usize,
}
