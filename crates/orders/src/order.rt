// An order.
ghost use Rattle.std.specs.Prelude.{◌≡◌, true};
ghost use Rattle.orders.specs.Ranges.{order_fits};

use crate::kind::Kind;
use crate::mark::{Mark, hidden_code};
use crate::row::Row;
use crate::side::Side;

// No order exists with a field out of its range. What turns on the book or the lot is no part of that.
#[derive(Clone, Copy, PartialEq, Eq, Debug)]
pub struct Order {
    pub side: Side,
    pub kind: Kind,
    // the shares left
    pub left: u32,
    // the shares left at the last entry or amendment
    pub size: u32,
    // 0 for a kind that carries none, as in a row: others wrote it, and it is compared by its number
    pub limit: u32,
    pub minimum: u32,
    pub broker: u32,
    pub mark: Mark,
    pub hidden: bool,
    // the order's time: of two, the one with the smaller stamp is the older
    pub stamp: u32,
    // the first stamp, by which the order is named
    pub number: u32,
    ghost ok: { order_fits kind left size limit minimum broker hidden stamp number ≡ true },
}

impl Order {
    ghost use Rattle.orders.specs.Rows.{row_of, in_force};

    pub(crate) fn encoded(self) -> Row
        ensures { result ≡ row_of self }
    {
        Row {
            side: self.side.into(),
            kind: self.kind.into(),
            left: self.left,
            size: self.size,
            limit: self.limit,
            minimum: self.minimum,
            broker: self.broker,
            mark: self.mark.into(),
            hidden: hidden_code(self.hidden),
            stamp: self.stamp,
            number: self.number,
        }
    }

    // The minimum in force: what the order asks of another at least, never more than it has left itself.
    pub fn minimum_in_force(&self) -> u32
        ensures { result ≡ in_force self.now }
    {
        self.minimum.min(self.left)
    }
}
