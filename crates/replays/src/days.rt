// The two days that are replayed, in books of six places.
use day::item::Item;
use orders::amendment::Amendment;
use orders::call::Call;
use orders::entry::Entry;
use orders::kind::Kind;
use orders::mark::Mark;
use orders::side::Side;

fn with_lists(call: Call, places: usize, fills: usize) -> Item {
    Item {
        call,
        places,
        fills,
    }
}

fn item(call: Call) -> Item {
    with_lists(call, 6, 6)
}

fn entry(side: Side, kind: Kind, shares: u32, limit: u32, minimum: u32, broker: u32) -> Entry {
    Entry {
        side: side.into(),
        kind: kind.into(),
        shares,
        limit,
        minimum,
        broker,
        mark: 0,
        hidden: 0,
    }
}

fn order(side: Side, kind: Kind, shares: u32, limit: u32, minimum: u32, broker: u32) -> Item {
    item(Call::Enter(entry(side, kind, shares, limit, minimum, broker)))
}

fn amend(number: u32, shares: u32, limit: u32) -> Item {
    item(Call::Amend(Amendment {
        number,
        shares,
        limit,
    }))
}

fn cancel(number: u32) -> Item {
    item(Call::Cancel { number })
}

fn quote(bid: u32, offer: u32) -> Item {
    item(Call::Quote { bid, offer })
}

// A minimum that shrinks until a resting pair trades, twice; an amendment that loses time; sums and minimums at the
// touch; pegs that meet when the quote has become narrow during a halt; and a time without a quote, in which nothing trades.
pub(crate) fn dark() -> [Item; 31] {
    let narrow = Call::Quote {
        bid: 4_040,
        offer: 4_044,
    };
    [
        quote(4_040, 4_060),
        order(Side::Buy, Kind::MiddlePeg, 900, 0, 500, 7),
        order(Side::Sell, Kind::Limit, 300, 4_044, 0, 8),
        order(Side::Sell, Kind::LimitAtOnce, 600, 4_048, 0, 9),
        order(Side::Buy, Kind::MinimumImprovement, 1_000, 0, 0, 7),
        order(Side::Buy, Kind::Limit, 2_000, 4_048, 200, 5),
        order(Side::Sell, Kind::Limit, 100, 4_048, 0, 7),
        order(Side::Sell, Kind::Market, 1_500, 0, 0, 7),
        amend(5, 150, 4_048),
        amend(5, 100, 4_048),
        amend(4, 1_200, 0),
        order(Side::Sell, Kind::Limit, 5_000, 4_060, 0, 8),
        order(Side::Sell, Kind::Limit, 400, 4_052, 0, 6),
        order(Side::Buy, Kind::MinimumSum, 6_000, 4_060, 5_100, 6),
        order(Side::Buy, Kind::MinimumEach, 6_000, 4_060, 5_000, 6),
        item(Call::Halt),
        order(Side::Sell, Kind::Market, 100, 0, 0, 8),
        order(Side::Sell, Kind::MiddlePeg, 700, 0, 0, 8),
        with_lists(narrow, 5, 6),
        with_lists(narrow, 6, 5),
        item(narrow),
        item(Call::Resume),
        cancel(13),
        order(Side::Sell, Kind::SeekImprovement, 200, 4_040, 0, 7),
        item(Call::Withdraw),
        order(Side::Sell, Kind::Market, 100, 0, 0, 8),
        order(Side::Sell, Kind::MiddlePeg, 100, 0, 0, 8),
        item(narrow),
        cancel(4),
        item(Call::Close),
        quote(4_040, 4_052),
    ]
}

// A hidden bid at a better price, a large one, and a preferred broker; amendments that lose and keep time; a quote, which
// changes nothing; and a halt in which orders cross that trade when the book resumes.
pub(crate) fn lit() -> [Item; 29] {
    let anonymous = Entry {
        mark: Mark::Anonymous.into(),
        ..entry(Side::Sell, Kind::LimitAtOnce, 1_500, 240, 0, 12)
    };
    let hidden = Entry {
        hidden: 1,
        ..entry(Side::Buy, Kind::Limit, 2_000, 244, 0, 13)
    };
    [
        order(Side::Buy, Kind::Limit, 1_000, 240, 0, 11),
        order(Side::Buy, Kind::Limit, 30_000, 240, 0, 12),
        item(Call::Enter(hidden)),
        order(Side::Sell, Kind::Limit, 12_000, 236, 0, 50),
        order(Side::Sell, Kind::LimitAtOnce, 1_500, 240, 0, 12),
        item(Call::Enter(anonymous)),
        amend(2, 35_000, 240),
        order(Side::Buy, Kind::Limit, 500, 240, 0, 14),
        amend(8, 500, 244),
        order(Side::Sell, Kind::Limit, 400, 248, 0, 50),
        order(Side::Sell, Kind::Limit, 600, 248, 0, 51),
        order(Side::Buy, Kind::Market, 700, 0, 0, 51),
        quote(240, 260),
        quote(240, 242),
        with_lists(Call::Cancel { number: 10 }, 5, 6),
        item(Call::Halt),
        order(Side::Buy, Kind::Limit, 1_000, 252, 0, 15),
        order(Side::Sell, Kind::Limit, 2_000, 240, 0, 52),
        order(Side::Buy, Kind::Limit, 100, 200, 0, 16),
        order(Side::Sell, Kind::Limit, 100, 300, 0, 16),
        item(Call::Halt),
        item(Call::Resume),
        amend(2, 30_000, 240),
        order(Side::Sell, Kind::MiddlePeg, 1_000, 0, 0, 50),
        order(Side::Sell, Kind::Limit, 100, 242, 0, 50),
        cancel(15),
        order(Side::Sell, Kind::Market, 20_000, 0, 0, 53),
        item(Call::Close),
        cancel(2),
    ]
}
