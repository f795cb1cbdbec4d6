// The two sides of the market.
ghost use Rattle.std.specs.Prelude.{◌≡◌, Some};
ghost use Rattle.orders.specs.Codes.{side_code, side_of, Encodes, Decodes};
ghost use Rattle.orders.specs.Sides.{side_word, other, opposite, better, no_worse};

use crate::code::UnknownCode;
use std::fmt;

#[derive(Clone, Copy, PartialEq, Eq, Debug)]
pub enum Side {
    Buy,
    Sell,
}

impl From<Side> for u32 {
    ghost from_gives = { Encodes side_code side_of };

    fn from(side: Side) -> u32 {
        match side {
            Side::Buy => 1,
            Side::Sell => 2,
        }
    }
}

impl TryFrom<u32> for Side {
    type Error = UnknownCode;

    ghost try_from_gives = { Decodes side_code side_of };

    fn try_from(code: u32) -> Result<Side, UnknownCode> {
        match code {
            1 => Ok(Side::Buy),
            2 => Ok(Side::Sell),
            _ => Err(UnknownCode(code)),
        }
    }
}

// The word that a session and its listing have for a side.
impl fmt::Display for Side {
    ghost output = { λ side. Some (side_word side) };

    fn fmt<W: fmt::Write>(&self, f: &mut fmt::Formatter<W>) -> fmt::Result {
        f.write_str(match self {
            Side::Buy => "BUY",
            Side::Sell => "SELL",
        })
    }
}

impl Side {
    pub fn other(self) -> Side
        ensures { result ≡ other self }
    {
        match self {
            Side::Buy => Side::Sell,
            Side::Sell => Side::Buy,
        }
    }

    // Whether orders of these two sides could trade with one another at all.
    pub fn is_opposite(self, other: Side) -> bool
        ensures { result ≡ opposite self other }
    {
        self != other
    }

    // Whether an active order of this side would rather trade at the first price than at the second.
    pub fn is_better(self, price: u32, other: u32) -> bool
        ensures { result ≡ better self price other }
    {
        match self {
            Side::Buy => price < other,
            Side::Sell => price > other,
        }
    }

    // Whether a price keeps to a bound that an order of this side has.
    pub fn is_no_worse(self, price: u32, bound: u32) -> bool
        ensures { result ≡ no_worse self price bound }
    {
        match self {
            Side::Buy => price <= bound,
            Side::Sell => price >= bound,
        }
    }
}
