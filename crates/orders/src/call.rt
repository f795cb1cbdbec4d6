// A call on a book, and what it gives back.
use crate::amendment::Amendment;
use crate::entry::Entry;
use crate::refusal::Refusal;
use crate::side::Side;

// What a book can be asked to do, once it is open; the question for an order's shares left changes nothing and is none.
#[derive(Clone, Copy, PartialEq, Eq, Debug)]
pub enum Call {
    Enter(Entry),
    Amend(Amendment),
    Cancel { number: u32 },
    // two numbers, until they are judged and make a quote
    Quote { bid: u32, offer: u32 },
    // removes the quote
    Withdraw,
    Halt,
    Resume,
    Close,
}

// A trade of two orders, which are named by their numbers.
#[derive(Clone, Copy, PartialEq, Eq, Debug)]
pub struct Fill {
    pub buyer: u32,
    pub seller: u32,
    pub price: u32,
    pub shares: u32,
    // the side of the active order
    pub active: Side,
}

impl Fill {
    // An entry of a list into which no fill is written yet. No `Default`, since no side is one.
    pub const BLANK: Fill = Fill {
        buyer: 0,
        seller: 0,
        price: 0,
        shares: 0,
        active: Side::Buy,
    };
}

// What an accepted call did: the order's number, its shares filled, resting and cancelled by the call, and the count of
// the call's fills. A call without an order has four zeros before the count.
#[derive(Clone, Copy, Default, PartialEq, Eq, Debug)]
pub struct Receipt {
    pub number: u32,
    pub filled: u32,
    pub resting: u32,
    pub cancelled: u32,
    pub fills: usize,
}

pub type Reply = Result<Receipt, Refusal>;
