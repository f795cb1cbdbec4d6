// The market's cases in words. Functions, since these are types of other crates, for which no `Display` can be written here.
use orders::kind::Kind;
use orders::mark::Mark;
use orders::refusal::Refusal;
use orders::side::Side;

pub(crate) fn side_word(code: u32) -> &'static str {
    match Side::try_from(code) {
        Ok(Side::Buy) => "buy",
        Ok(Side::Sell) => "sell",
        Err(_) => "no side",
    }
}

pub(crate) fn kind_word(kind: Kind) -> &'static str {
    match kind {
        Kind::Limit => "limit",
        Kind::LimitAtOnce => "limit at once",
        Kind::Market => "market",
        Kind::MiddlePeg => "middle peg",
        Kind::MinimumImprovement => "minimum improvement",
        Kind::MinimumEach => "minimum for each",
        Kind::MinimumSum => "minimum in sum",
        Kind::SeekImprovement => "seek improvement",
    }
}

pub(crate) fn mark_words(code: u32) -> &'static str {
    match Mark::try_from(code) {
        Ok(Mark::Attributed) => "",
        Ok(Mark::Anonymous) => ", anonymous",
        Ok(Mark::Jitney) => ", jitney",
        Err(_) => ", no mark",
    }
}

// A number as it stands: the hidden mark is a bool, which has no TryFrom of a number.
pub(crate) fn hidden_words(code: u32) -> &'static str {
    match code {
        0 => "",
        1 => ", hidden",
        _ => ", no hidden mark",
    }
}

pub(crate) fn active_word(side: Side) -> &'static str {
    match side {
        Side::Buy => "buyer",
        Side::Sell => "seller",
    }
}

pub(crate) fn refusal_words(refusal: Refusal) -> &'static str {
    match refusal {
        Refusal::Closed => "the book is closed",
        Refusal::WrongPlaces => "not as many places as at opening",
        Refusal::FewFills => "fewer fill entries than places",
        Refusal::AtOnceWhileHalted => "a kind that does not rest, while halted",
        Refusal::NotResting => "no resting order has the number",
        Refusal::WrongKind => "the kind",
        Refusal::WrongParty => "the side, broker, mark or hidden mark",
        Refusal::WrongShares => "the shares",
        Refusal::WrongLimit => "the limit",
        Refusal::WrongMinimum => "the minimum",
        Refusal::NoPlace => "no place is free",
        Refusal::NoStamp => "no stamp is left",
        Refusal::WrongQuote => "the quote",
        Refusal::WrongPhase => "the event does not fit the phase",
        Refusal::WrongOpening => "the last sale or the number of places",
    }
}
