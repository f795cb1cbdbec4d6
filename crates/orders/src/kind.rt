// The eight kinds of order.
ghost use Rattle.std.specs.Prelude.{◌≡◌};
ghost use Rattle.orders.specs.Codes.{kind_code, kind_of, Encodes, Decodes};
ghost use Rattle.orders.specs.Kinds.{rests, limit_fits, minimum_fits, hides};

use crate::code::UnknownCode;
use crate::price::is_on_grid;

#[derive(Clone, Copy, PartialEq, Eq, Debug)]
pub enum Kind {
    // a plain limit order
    Limit,
    // a limit order that trades at once or not at all
    LimitAtOnce,
    // an order at any price, at once
    Market,
    // a peg to the middle of the quote
    MiddlePeg,
    // a peg one step inside the quote
    MinimumImprovement,
    // at once, with a minimum for each order that it meets at the touch
    MinimumEach,
    // at once, with a minimum for all orders together that it meets at the touch
    MinimumSum,
    // at once, and only at a price better than the touch
    SeekImprovement,
}

impl From<Kind> for u32 {
    ghost from_gives = { Encodes kind_code kind_of };

    fn from(kind: Kind) -> u32 {
        match kind {
            Kind::Limit => 1,
            Kind::LimitAtOnce => 2,
            Kind::Market => 3,
            Kind::MiddlePeg => 4,
            Kind::MinimumImprovement => 5,
            Kind::MinimumEach => 6,
            Kind::MinimumSum => 7,
            Kind::SeekImprovement => 8,
        }
    }
}

impl TryFrom<u32> for Kind {
    type Error = UnknownCode;

    ghost try_from_gives = { Decodes kind_code kind_of };

    fn try_from(code: u32) -> Result<Kind, UnknownCode> {
        match code {
            1 => Ok(Kind::Limit),
            2 => Ok(Kind::LimitAtOnce),
            3 => Ok(Kind::Market),
            4 => Ok(Kind::MiddlePeg),
            5 => Ok(Kind::MinimumImprovement),
            6 => Ok(Kind::MinimumEach),
            7 => Ok(Kind::MinimumSum),
            8 => Ok(Kind::SeekImprovement),
            _ => Err(UnknownCode(code)),
        }
    }
}

impl Kind {
    // Whether a remainder of this kind rests; that of any other kind is cancelled.
    pub fn rests(self) -> bool
        ensures { result ≡ rests self }
    {
        matches!(
            self,
            Kind::Limit | Kind::MiddlePeg | Kind::MinimumImprovement
        )
    }

    // Whether an order of this kind may carry the limit.
    pub fn limit_fits(self, limit: u32) -> bool
        ensures { result ≡ limit_fits self limit }
    {
        match self {
            Kind::Market | Kind::MiddlePeg | Kind::MinimumImprovement => limit == 0,
            _ => is_on_grid(limit),
        }
    }

    // Whether some order of this kind may carry the minimum.
    pub(crate) fn minimum_fits(self, minimum: u32) -> bool
        ensures { result ≡ minimum_fits self minimum }
    {
        match self {
            Kind::Market | Kind::SeekImprovement => minimum == 0,
            _ => minimum <= 10_000_000,
        }
    }

    // Whether some order of this kind may be hidden.
    pub fn hides(self) -> bool
        ensures { result ≡ hides self }
    {
        self == Kind::Limit
    }
}
