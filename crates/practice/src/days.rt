// The days that are played.
use crate::playing::{Handed, Step};
use orders::amendment::Amendment;
use orders::call::Call;
use orders::entry::Entry;
use orders::kind::Kind;
use orders::row::Row;
use orders::side::Side;

fn order(side: Side, kind: Kind, shares: u32, limit: u32, minimum: u32, broker: u32) -> Step {
    enter(Entry {
        side: side.into(),
        kind: kind.into(),
        shares,
        limit,
        minimum,
        broker,
        mark: 0,
        hidden: 0,
    })
}

fn enter(entry: Entry) -> Step {
    Step::Call(Call::Enter(entry))
}

fn amend(number: u32, shares: u32, limit: u32) -> Step {
    Step::Call(Call::Amend(Amendment {
        number,
        shares,
        limit,
    }))
}

fn cancel(number: u32) -> Step {
    Step::Call(Call::Cancel { number })
}

fn quote(bid: u32, offer: u32) -> Step {
    Step::Call(Call::Quote { bid, offer })
}

fn hand(places: usize, fills: usize) -> Step {
    Step::Hand(Handed { places, fills })
}

// Large bids at a low price, of which one is filled, raised twice and filled again; a cut, a cancel, and a halt in which an
// offer comes to rest that trades when the book resumes.
pub(crate) fn lit() -> [Step; 19] {
    [
        order(Side::Buy, Kind::Limit, 1_000, 240, 0, 11),
        order(Side::Buy, Kind::Limit, 60_000, 240, 0, 12),
        order(Side::Buy, Kind::Limit, 50_000, 240, 0, 13),
        order(Side::Buy, Kind::Limit, 35_000, 240, 0, 14),
        order(Side::Sell, Kind::Limit, 35_000, 240, 0, 50),
        amend(2, 30_000, 240),
        order(Side::Sell, Kind::Limit, 10_000, 240, 0, 50),
        amend(2, 55_000, 240),
        order(Side::Sell, Kind::Market, 5_000, 0, 0, 50),
        amend(3, 20_000, 240),
        cancel(4),
        Step::Call(Call::Halt),
        order(Side::Sell, Kind::LimitAtOnce, 100, 240, 0, 50),
        order(Side::Sell, Kind::Limit, 51_000, 236, 0, 50),
        Step::Call(Call::Resume),
        Step::Ask(3),
        Step::Call(Call::Close),
        cancel(3),
        Step::Ask(3),
    ]
}

// A minimum that shrinks until a resting pair trades; minimums for each order and in sum at the touch; a peg that is cut
// below its minimum and raised again, and trades when the quote has become narrow during a halt.
pub(crate) fn dark() -> [Step; 24] {
    [
        quote(4_040, 4_060),
        order(Side::Buy, Kind::Limit, 10_000, 4_048, 1_000, 7),
        order(Side::Sell, Kind::Limit, 900, 4_044, 0, 8),
        order(Side::Sell, Kind::Limit, 9_500, 4_044, 0, 9),
        cancel(2),
        quote(4_040, 4_052),
        order(Side::Sell, Kind::Limit, 500, 4_044, 0, 8),
        order(Side::Sell, Kind::Limit, 500, 4_048, 0, 8),
        order(Side::Sell, Kind::Limit, 5_000, 4_052, 0, 8),
        order(Side::Sell, Kind::Limit, 5_000, 4_052, 0, 9),
        order(Side::Buy, Kind::MinimumEach, 10_000, 4_052, 6_000, 7),
        order(Side::Buy, Kind::MinimumSum, 10_000, 4_052, 6_000, 7),
        order(Side::Buy, Kind::MiddlePeg, 1_000, 0, 600, 7),
        amend(10, 300, 0),
        amend(10, 1_000, 0),
        order(Side::Sell, Kind::Limit, 500, 4_040, 0, 9),
        order(Side::Sell, Kind::MinimumImprovement, 700, 0, 0, 8),
        amend(10, 1_000, 4_048),
        Step::Call(Call::Halt),
        quote(4_040, 4_044),
        Step::Call(Call::Resume),
        Step::Ask(10),
        Step::Call(Call::Close),
        quote(4_040, 4_052),
    ]
}

// Three bids at 240, and sales of 5,000 and 1,000.
pub(crate) fn three_bids(second: u32) -> [Step; 5] {
    [
        order(Side::Buy, Kind::Limit, 1_000, 240, 0, 11),
        order(Side::Buy, Kind::Limit, second, 240, 0, 12),
        order(Side::Buy, Kind::Limit, 1_000, 240, 0, 13),
        order(Side::Sell, Kind::Limit, 5_000, 240, 0, 50),
        order(Side::Sell, Kind::Limit, 1_000, 240, 0, 50),
    ]
}

// Four bids at 240, of which the second is filled down to 25,000 and then amended, and a sale of 86,000.
pub(crate) fn amended_bid(shares: u32) -> [Step; 7] {
    [
        order(Side::Buy, Kind::Limit, 1_000, 240, 0, 11),
        order(Side::Buy, Kind::Limit, 60_000, 240, 0, 12),
        order(Side::Buy, Kind::Limit, 50_000, 240, 0, 13),
        order(Side::Buy, Kind::Limit, 35_000, 240, 0, 14),
        order(Side::Sell, Kind::Limit, 35_000, 240, 0, 50),
        amend(2, shares, 240),
        order(Side::Sell, Kind::Limit, 86_000, 240, 0, 50),
    ]
}

// Every place is taken: an order that would rest has no place, a cut keeps its turn, and a market order empties the book.
pub(crate) fn full() -> [Step; 7] {
    [
        order(Side::Buy, Kind::Limit, 500, 240, 0, 11),
        order(Side::Buy, Kind::Limit, 600, 240, 0, 12),
        order(Side::Buy, Kind::Limit, 700, 240, 0, 13),
        order(Side::Sell, Kind::Limit, 100, 240, 0, 50),
        amend(1, 400, 240),
        order(Side::Sell, Kind::Market, 2_000, 0, 0, 50),
        Step::Ask(1),
    ]
}

// Several causes at once: the first of the table is met.
pub(crate) fn refusals() -> [Step; 37] {
    let wrong = Entry {
        side: 9,
        kind: Kind::LimitAtOnce.into(),
        shares: 0,
        limit: 1,
        minimum: 9,
        broker: 0,
        mark: 9,
        hidden: 9,
    };
    [
        order(Side::Buy, Kind::Limit, 500, 240, 0, 11),
        order(Side::Buy, Kind::Limit, 600, 240, 0, 12),
        order(Side::Buy, Kind::Limit, 700, 240, 0, 13),
        Step::Call(Call::Resume),
        Step::Call(Call::Halt),
        Step::Call(Call::Halt),
        hand(2, 1),
        enter(wrong),
        quote(240, 240),
        amend(9, 0, 1),
        cancel(9),
        Step::Call(Call::Resume),
        Step::Ask(9),
        hand(3, 2),
        enter(wrong),
        quote(240, 240),
        amend(9, 0, 1),
        cancel(9),
        Step::Call(Call::Resume),
        Step::Ask(9),
        hand(3, 3),
        enter(wrong),
        enter(Entry {
            kind: Kind::MinimumEach.into(),
            ..wrong
        }),
        enter(Entry {
            kind: Kind::MiddlePeg.into(),
            ..wrong
        }),
        enter(Entry {
            kind: Kind::Limit.into(),
            ..wrong
        }),
        quote(240, 240),
        amend(9, 0, 1),
        amend(1, 0, 1),
        amend(1, 100, 1),
        order(Side::Buy, Kind::Limit, 500, 240, 0, 11),
        Step::Call(Call::Close),
        hand(2, 1),
        enter(wrong),
        Step::Call(Call::Close),
        Step::Ask(1),
        hand(3, 3),
        Step::Ask(1),
    ]
}

// The stamps run out: an amendment that keeps its time needs none.
pub(crate) fn last_stamp() -> [Step; 10] {
    [
        order(Side::Buy, Kind::Limit, 500, 240, 0, 11),
        order(Side::Buy, Kind::Limit, 600, 240, 0, 12),
        Step::Spend(999_997),
        amend(1, 501, 240),
        Step::Show(0),
        amend(2, 601, 240),
        amend(2, 600, 236),
        amend(2, 500, 240),
        Step::Show(1),
        order(Side::Buy, Kind::Market, 100, 0, 0, 11),
    ]
}

// Rows that nobody here wrote: one that is no order, and an at-once kind with a stamp to come.
pub(crate) fn foreign() -> [Step; 9] {
    let none = Row {
        side: Side::Buy.into(),
        kind: Kind::Limit.into(),
        left: 9,
        size: 0,
        limit: 4_000,
        minimum: 0,
        broker: 7,
        mark: 0,
        hidden: 0,
        stamp: 1,
        number: 1,
    };
    [
        Step::Write(1, none),
        Step::Write(
            2,
            Row {
                kind: Kind::LimitAtOnce.into(),
                size: 9,
                stamp: 500,
                number: 77,
                ..none
            },
        ),
        order(Side::Sell, Kind::Limit, 5, 4_004, 0, 50),
        Step::Show(0),
        Step::Show(1),
        order(Side::Sell, Kind::Limit, 4, 4_000, 0, 50),
        Step::Show(1),
        Step::Show(2),
        Step::Ask(77),
    ]
}

// A cut renews the size, and so does a raise: at 5,000 the younger order fails the size test, at 5,100 it passes.
pub(crate) fn sizes() -> [Step; 5] {
    [
        order(Side::Buy, Kind::Limit, 100, 4_040, 0, 7),
        order(Side::Sell, Kind::Limit, 5_100, 4_040, 0, 8),
        amend(2, 5_000, 4_040),
        quote(4_040, 4_060),
        amend(2, 5_100, 4_040),
    ]
}
