// A place of a book as plain numbers, and the order that stands there.
ghost use Rattle.std.specs.Prelude.{◌≡◌, is_some, IfSome, Some, None};
ghost use Rattle.orders.specs.Codes.{Encodes};
ghost use Rattle.orders.specs.Ranges.{shares_fit, broker_fits, stamp_fits, plain_fits, kind_fits};
ghost use Rattle.orders.specs.Rows.{cleared, row_of, order_of, row_fits, fits_as, in_force};

use crate::kind::Kind;
use crate::mark::{Mark, hidden_from_code};
use crate::order::Order;
use crate::side::Side;

// A row may hold any numbers, since anybody may write into a place; the place is free if they make no order.
#[derive(Clone, Copy, Default, PartialEq, Eq, Debug)]
pub struct Row {
    pub side: u32,
    pub kind: u32,
    pub left: u32,
    pub size: u32,
    pub limit: u32,
    pub minimum: u32,
    pub broker: u32,
    pub mark: u32,
    pub hidden: u32,
    pub stamp: u32,
    pub number: u32,
}

// Each range has a name of its own, which the definitions have too.
pub fn shares_fit(shares: u32) -> bool
    ensures { result ≡ shares_fit shares }
{
    (1..=10_000_000).contains(&shares)
}

pub fn broker_fits(broker: u32) -> bool
    ensures { result ≡ broker_fits broker }
{
    (1..=999).contains(&broker)
}

fn stamp_fits(stamp: u32) -> bool
    ensures { result ≡ stamp_fits stamp }
{
    (1..=1_000_000).contains(&stamp)
}

impl Row {
    // A free place, all zero.
    pub fn cleared() -> Row
        ensures value { result ≡ cleared }
        ensures free { order_of result ≡ None }
    {
        Row::default()
    }

    // The numbers that every kind has alike.
    fn plain_fits(&self) -> bool
        ensures { result ≡ plain_fits self.now.left self.now.size self.now.broker self.now.stamp self.now.number }
    {
        shares_fit(self.left)
            && shares_fit(self.size)
            && broker_fits(self.broker)
            && stamp_fits(self.stamp)
            && stamp_fits(self.number)
    }

    // The numbers that turn on the kind.
    fn kind_fits(&self, kind: Kind, hidden: bool) -> bool
        ensures { result ≡ kind_fits kind self.now.limit self.now.minimum hidden }
    {
        kind.limit_fits(self.limit) && kind.minimum_fits(self.minimum) && (kind.hides() || !hidden)
    }

    fn fits(&self, kind: Kind, hidden: bool) -> bool
        ensures { result ≡ fits_as self.now kind hidden }
    {
        self.plain_fits() && self.kind_fits(kind, hidden)
    }

    fn decoded(&self) -> Option<Order>
        ensures { result ≡ order_of self.now }
    {
        let side = Side::try_from(self.side).ok()?;
        let kind = Kind::try_from(self.kind).ok()?;
        let mark = Mark::try_from(self.mark).ok()?;
        let hidden = hidden_from_code(self.hidden).ok()?;
        if !self.fits(kind, hidden) {
            return None;
        }
        Some(Order {
            side,
            kind,
            left: self.left,
            size: self.size,
            limit: self.limit,
            minimum: self.minimum,
            broker: self.broker,
            mark,
            hidden,
            stamp: self.stamp,
            number: self.number,
        })
    }

    // The order that stands in the row, or none where a number is out of its range. It is no `TryFrom`: a free place is no error.
    pub fn order(&self) -> Option<Order>
        ensures value { result ≡ order_of self.now }
        ensures test { is_some result ≡ row_fits self.now }
        ensures back { IfSome result (λ o. row_of o ≡ self.now) }
    {
        self.decoded()
    }
}

impl From<Order> for Row {
    ghost from_gives = { Encodes row_of order_of };

    fn from(order: Order) -> Row {
        order.encoded()
    }
}
