// An entry: the numbers of an order before anything is known of them. A wrong side, kind or mark meets a refusal, so they
// are numbers here, and not cases.
ghost use Rattle.std.specs.Prelude.{◌≡◌};
ghost use Rattle.orders.specs.Rows.{entry_row};

use crate::row::Row;

#[derive(Clone, Copy, PartialEq, Eq, Debug)]
pub struct Entry {
    pub side: u32,
    pub kind: u32,
    pub shares: u32,
    pub limit: u32,
    pub minimum: u32,
    pub broker: u32,
    pub mark: u32,
    pub hidden: u32,
}

impl Entry {
    // The row of the entered order, whose number is its first stamp.
    pub fn row(&self, stamp: u32) -> Row
        ensures { result ≡ entry_row self.now stamp }
    {
        Row {
            side: self.side,
            kind: self.kind,
            left: self.shares,
            size: self.shares,
            limit: self.limit,
            minimum: self.minimum,
            broker: self.broker,
            mark: self.mark,
            hidden: self.hidden,
            stamp,
            number: stamp,
        }
    }
}
