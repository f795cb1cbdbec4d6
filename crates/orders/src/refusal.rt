// Why a call is sent back.
ghost use Rattle.std.specs.Prelude.{◌≡◌};
ghost use Rattle.orders.specs.Codes.{refusal_number};

#[derive(Clone, Copy, PartialEq, Eq, Debug)]
pub enum Refusal {
    // the book is closed, or none was opened yet
    Closed,
    // not as many places as at opening
    WrongPlaces,
    // fewer fill entries than places
    FewFills,
    // an entry of a kind that does not rest, while halted
    AtOnceWhileHalted,
    // no resting order has the number
    NotResting,
    // no kind, or none of this book
    WrongKind,
    // side, broker, mark or hidden mark
    WrongParty,
    WrongShares,
    WrongLimit,
    WrongMinimum,
    // an entry that may rest, and no place is free
    NoPlace,
    // a stamp is needed, and none is left
    NoStamp,
    // a quoted price off its range or grid, or the bid not below the offer
    WrongQuote,
    // the event does not fit the phase
    WrongPhase,
    // opening: the last sale or the number of places
    WrongOpening,
}

impl Refusal {
    // A method and no `From`: the number by which a listing names the refusal.
    pub fn number(self) -> u32
        ensures { result ≡ refusal_number self }
    {
        match self {
            Refusal::Closed => 1,
            Refusal::WrongPlaces => 2,
            Refusal::FewFills => 3,
            Refusal::AtOnceWhileHalted => 4,
            Refusal::NotResting => 5,
            Refusal::WrongKind => 6,
            Refusal::WrongParty => 7,
            Refusal::WrongShares => 8,
            Refusal::WrongLimit => 9,
            Refusal::WrongMinimum => 10,
            Refusal::NoPlace => 11,
            Refusal::NoStamp => 12,
            Refusal::WrongQuote => 13,
            Refusal::WrongPhase => 14,
            Refusal::WrongOpening => 15,
        }
    }
}
