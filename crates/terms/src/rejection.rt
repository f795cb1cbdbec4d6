// Why terms do not take an entry.
ghost use Rattle.std.specs.Prelude.{◌≡◌};
ghost use Rattle.terms.specs.Verdicts.{refusal_of};

use orders::refusal::Refusal;

// The first of an entry's fields that is wrong.
#[derive(Clone, Copy, PartialEq, Eq, Debug)]
pub enum Rejection {
    // no kind, or none that this book trades
    BadKind,
    // side, broker, mark or hidden mark
    BadParty,
    BadShares,
    BadLimit,
    BadMinimum,
}

impl From<Rejection> for Refusal {
    ghost from_gives = { λ rejection r. r ≡ refusal_of rejection };

    fn from(rejection: Rejection) -> Refusal {
        match rejection {
            Rejection::BadKind => Refusal::WrongKind,
            Rejection::BadParty => Refusal::WrongParty,
            Rejection::BadShares => Refusal::WrongShares,
            Rejection::BadLimit => Refusal::WrongLimit,
            Rejection::BadMinimum => Refusal::WrongMinimum,
        }
    }
}
