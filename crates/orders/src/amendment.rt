// An amendment: what it asks for, and what it makes of the order that it names.
ghost use Rattle.std.specs.Prelude.{◌≡◌, ℕ, cond};
ghost use Rattle.orders.specs.Amendments.{amended_entry, loses_time, amended_row};

use crate::entry::Entry;
use crate::row::Row;

// New shares left and a limit for the order with this number.
#[derive(Clone, Copy, PartialEq, Eq, Debug)]
pub struct Amendment {
    pub number: u32,
    pub shares: u32,
    pub limit: u32,
}

fn own_stamp(row: &Row, loses: bool, next: u32) -> u32
    ensures { result ≡ cond {A = ℕ} loses next row.now.stamp }
{
    if loses { next } else { row.stamp }
}

impl Amendment {
    // The entry as which the amendment of a row is judged.
    pub fn entry(&self, row: &Row) -> Entry
        ensures { result ≡ amended_entry row.now self.now.shares self.now.limit }
    {
        Entry {
            side: row.side,
            kind: row.kind,
            shares: self.shares,
            limit: self.limit,
            minimum: row.minimum.min(self.shares),
            broker: row.broker,
            mark: row.mark,
            hidden: row.hidden,
        }
    }

    // Whether the amended order loses time: more shares than are left, or another limit.
    pub fn loses_time(&self, row: &Row) -> bool
        ensures { result ≡ loses_time row.now self.now.shares self.now.limit }
    {
        row.left < self.shares || self.limit != row.limit
    }

    // The row of the amended order.
    pub fn row(&self, row: &Row, next: u32) -> Row
        ensures { result ≡ amended_row row.now self.now.shares self.now.limit next }
    {
        Row {
            left: self.shares,
            size: self.shares,
            limit: self.limit,
            stamp: own_stamp(row, self.loses_time(row), next),
            ..*row
        }
    }
}
