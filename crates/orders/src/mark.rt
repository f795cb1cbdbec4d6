// How an order shows its broker, and whether it shows itself.
ghost use Rattle.std.specs.Prelude.{◌≡◌};
ghost use Rattle.orders.specs.Codes.{mark_code, mark_of, hidden_code, hidden_of, Encodes, Decodes};

use crate::code::UnknownCode;

#[derive(Clone, Copy, PartialEq, Eq, Debug)]
pub enum Mark {
    // the broker is shown
    Attributed,
    // the broker is not shown
    Anonymous,
    // entered for another broker
    Jitney,
}

impl From<Mark> for u32 {
    ghost from_gives = { Encodes mark_code mark_of };

    fn from(mark: Mark) -> u32 {
        match mark {
            Mark::Attributed => 0,
            Mark::Anonymous => 1,
            Mark::Jitney => 2,
        }
    }
}

impl TryFrom<u32> for Mark {
    type Error = UnknownCode;

    ghost try_from_gives = { Decodes mark_code mark_of };

    fn try_from(code: u32) -> Result<Mark, UnknownCode> {
        match code {
            0 => Ok(Mark::Attributed),
            1 => Ok(Mark::Anonymous),
            2 => Ok(Mark::Jitney),
            _ => Err(UnknownCode(code)),
        }
    }
}

// The number of the hidden mark.
pub(crate) fn hidden_code(hidden: bool) -> u32
    ensures { Encodes hidden_code hidden_of hidden result }
{
    hidden.into()
}

// The hidden mark of a number. It is a `bool`, which has no `TryFrom` of a number.
pub(crate) fn hidden_from_code(code: u32) -> Result<bool, UnknownCode>
    ensures { Decodes hidden_code hidden_of code result }
{
    match code {
        0 => Ok(false),
        1 => Ok(true),
        _ => Err(UnknownCode(code)),
    }
}
