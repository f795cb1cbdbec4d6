// The edges of the lit and the dark terms.
use crate::dark::Dark;
use crate::lit::Lit;
use crate::rejection::Rejection;
use crate::terms::Terms;
use orders::entry::Entry;
use orders::kind::Kind;
use orders::lot::Lot;
use orders::quote::Quote;
use orders::row::Row;
use orders::side::Side;
use std::test::Fail;

fn row(side: Side, kind: Kind, left: u32, limit: u32, minimum: u32) -> Row {
    Row {
        side: side.into(),
        kind: kind.into(),
        left,
        size: left,
        limit,
        minimum,
        broker: 7,
        mark: 0,
        hidden: 0,
        stamp: 9,
        number: 3,
    }
}

// The deal of two rows, of which both must be orders.
fn deal<T: Terms>(
    terms: &T,
    active: Row,
    resting: Row,
    quote: Option<Quote>,
    last: u32,
) -> Result<Option<u32>, Fail> {
    let active = active.order().ok_or("the active row is no order")?;
    let resting = resting.order().ok_or("the resting row is no order")?;
    Ok(terms.deal(&active, &resting, quote, Lot::at(last)))
}

#[test]
fn lit_deals(rt: HostRuntime) -> Result<(), Fail> {
    // the active side, kind and limit, the resting limit, and the price
    let deals = [
        (Side::Sell, Kind::Limit, 240, 240, Some(240)),
        (Side::Sell, Kind::Limit, 240, 244, Some(244)),
        (Side::Sell, Kind::Limit, 244, 240, None),
        (Side::Buy, Kind::LimitAtOnce, 240, 240, Some(240)),
        (Side::Buy, Kind::LimitAtOnce, 240, 236, Some(236)),
        (Side::Buy, Kind::LimitAtOnce, 240, 244, None),
        (Side::Buy, Kind::Market, 0, 4_000_000, Some(4_000_000)),
        (Side::Sell, Kind::Market, 0, 2, Some(2)),
        // a peg that lies in a lit book carries limit 0: active it sells at any price and buys at none
        (Side::Sell, Kind::MiddlePeg, 0, 2, Some(2)),
        (Side::Sell, Kind::MinimumImprovement, 0, 240, Some(240)),
        (Side::Buy, Kind::MiddlePeg, 0, 2, None),
        (Side::Buy, Kind::MinimumImprovement, 0, 240, None),
    ];
    for (side, kind, limit, other, expected) in deals {
        let resting = row(side.other(), Kind::Limit, 500, other, 0);
        assert_eq!(rt;
            deal(&Lit, row(side, kind, 500, limit, 0), resting, None, 240)?,
            expected
        );
        // neither the quote nor a minimum counts
        let least = Row {
            minimum: 900,
            ..resting
        };
        assert_eq!(rt;
            deal(
                &Lit,
                row(side, kind, 500, limit, 0),
                least,
                Quote::new(236, 244),
                240,
            )?,
            expected
        );
        assert_eq!(rt;
            deal(
                &Lit,
                row(side, kind, 500, limit, 0),
                row(side, Kind::Limit, 500, other, 0),
                None,
                240,
            )?,
            None
        );
    }
    // a resting peg carries no price
    assert_eq!(rt;
        deal(
            &Lit,
            row(Side::Buy, Kind::Market, 500, 0, 0),
            row(Side::Sell, Kind::MiddlePeg, 500, 0, 0),
            None,
            240,
        )?,
        None
    );
    Ok(())
}

#[test]
fn dark_prices(rt: HostRuntime) -> Result<(), Fail> {
    // a large buyer with a high limit against a seller of a kind and limit, under a quote: the standing price
    let offers = [
        (Kind::Limit, 4_044, 4_040, 4_052, Some(4_044)),
        (Kind::Limit, 4_036, 4_040, 4_052, Some(4_040)),
        (Kind::Limit, 4_052, 4_040, 4_052, Some(4_052)),
        (Kind::Limit, 4_056, 4_040, 4_052, None),
        (Kind::MiddlePeg, 0, 4_040, 4_052, Some(4_046)),
        (Kind::MinimumImprovement, 0, 4_040, 4_052, Some(4_048)),
        (Kind::MinimumImprovement, 0, 4_040, 4_044, Some(4_042)),
        (Kind::MinimumImprovement, 0, 198, 204, Some(200)),
        (Kind::MinimumImprovement, 0, 198, 200, Some(199)),
        (Kind::LimitAtOnce, 4_044, 4_040, 4_052, None),
        (Kind::MinimumEach, 4_044, 4_040, 4_052, None),
        (Kind::MinimumSum, 4_044, 4_040, 4_052, None),
        (Kind::SeekImprovement, 4_044, 4_040, 4_052, None),
        (Kind::Market, 0, 4_040, 4_052, None),
    ];
    for (kind, limit, bid, offer, expected) in offers {
        let seller = row(Side::Sell, kind, 500, limit, 0);
        assert_eq!(rt;
            deal(
                &Dark,
                row(Side::Buy, Kind::Market, 60_000, 0, 0),
                seller,
                Quote::new(bid, offer),
                4_040,
            )?,
            expected
        );
        assert_eq!(rt;
            deal(
                &Dark,
                row(Side::Buy, Kind::Market, 60_000, 0, 0),
                seller,
                None,
                4_040
            )?,
            None
        );
    }
    let quote = Quote::new(4_040, 4_060);
    assert_eq!(rt;
        deal(
            &Dark,
            row(Side::Sell, Kind::Market, 60_000, 0, 0),
            row(Side::Buy, Kind::Limit, 100, 4_064, 0),
            quote,
            4_040,
        )?,
        Some(4_060)
    );
    assert_eq!(rt;
        deal(
            &Dark,
            row(Side::Sell, Kind::Market, 60_000, 0, 0),
            row(Side::Buy, Kind::MinimumImprovement, 100, 0, 0),
            quote,
            4_040,
        )?,
        Some(4_044)
    );
    // pegs as active orders have their standing prices as limits
    assert_eq!(rt;
        deal(
            &Dark,
            row(Side::Buy, Kind::MiddlePeg, 60_000, 0, 0),
            row(Side::Sell, Kind::Limit, 100, 4_048, 0),
            quote,
            4_040,
        )?,
        Some(4_048)
    );
    assert_eq!(rt;
        deal(
            &Dark,
            row(Side::Buy, Kind::MiddlePeg, 60_000, 0, 0),
            row(Side::Sell, Kind::Limit, 100, 4_052, 0),
            quote,
            4_040,
        )?,
        None
    );
    assert_eq!(rt;
        deal(
            &Dark,
            row(Side::Buy, Kind::MinimumImprovement, 60_000, 0, 0),
            row(Side::Sell, Kind::Limit, 100, 4_044, 0),
            quote,
            4_040,
        )?,
        Some(4_044)
    );
    assert_eq!(rt;
        deal(
            &Dark,
            row(Side::Buy, Kind::MinimumImprovement, 60_000, 0, 0),
            row(Side::Sell, Kind::MiddlePeg, 100, 0, 0),
            quote,
            4_040,
        )?,
        None
    );
    Ok(())
}

#[test]
fn dark_edges(rt: HostRuntime) -> Result<(), Fail> {
    // a market seller of a size against a buyer at the bid
    let sales = [
        (4_040, 5_000, None),
        (4_040, 5_001, Some(4_040)),
        (4_040, 5_100, Some(4_040)),
        (8_000, 5_000, None),
        (8_004, 5_000, Some(8_004)),
    ];
    for (bid, size, expected) in sales {
        let quote = Quote::new(bid, bid + 20);
        assert_eq!(rt;
            deal(
                &Dark,
                row(Side::Sell, Kind::Market, size, 0, 0),
                row(Side::Buy, Kind::Limit, 100, bid, 0),
                quote,
                4_040,
            )?,
            expected
        );
        // what is left does not count, the size does
        let partly = Row {
            left: 100,
            ..row(Side::Sell, Kind::Market, size, 0, 0)
        };
        assert_eq!(rt;
            deal(
                &Dark,
                partly,
                row(Side::Buy, Kind::Limit, 100, bid, 0),
                quote,
                4_040
            )?,
            expected
        );
        // an order that seeks improvement never reaches the touch
        assert_eq!(rt;
            deal(
                &Dark,
                row(Side::Sell, Kind::SeekImprovement, size, bid, 0),
                row(Side::Buy, Kind::Limit, 100, bid, 0),
                quote,
                4_040,
            )?,
            None
        );
    }
    let seeking = row(Side::Sell, Kind::SeekImprovement, 60_000, 4_040, 0);
    assert_eq!(rt;
        deal(
            &Dark,
            seeking,
            row(Side::Buy, Kind::Limit, 100, 4_044, 0),
            Quote::new(4_040, 4_060),
            4_040,
        )?,
        Some(4_044)
    );
    // 198 and 204 are two steps apart: a small buyer's edge is 200, and a middle peg stands at 201
    let quote = Quote::new(198, 204);
    assert_eq!(rt;
        deal(
            &Dark,
            row(Side::Buy, Kind::Market, 500, 0, 0),
            row(Side::Sell, Kind::MiddlePeg, 500, 0, 0),
            quote,
            200,
        )?,
        None
    );
    assert_eq!(rt;
        deal(
            &Dark,
            row(Side::Sell, Kind::Market, 500, 0, 0),
            row(Side::Buy, Kind::MiddlePeg, 500, 0, 0),
            quote,
            200,
        )?,
        Some(201)
    );
    Ok(())
}

#[test]
fn dark_minimums(rt: HostRuntime) -> Result<(), Fail> {
    let quote = Quote::new(4_040, 4_052);
    // the active kind and minimum, the resting limit, shares left and minimum, and the price, for a buyer of 10,000
    let pairs = [
        (Kind::Limit, 600, 4_044, 500, 0, None),
        (Kind::Limit, 500, 4_044, 500, 0, Some(4_044)),
        (Kind::Limit, 0, 4_044, 20_000, 10_100, None),
        (Kind::Limit, 0, 4_044, 20_000, 10_000, Some(4_044)),
        // the resting minimum is in force only up to what is left
        (Kind::Limit, 0, 4_044, 9_000, 10_100, Some(4_044)),
        (Kind::MinimumEach, 6_000, 4_044, 500, 0, Some(4_044)),
        (Kind::MinimumEach, 6_000, 4_052, 500, 0, None),
        (Kind::MinimumEach, 6_000, 4_052, 6_000, 0, Some(4_052)),
        (Kind::MinimumSum, 6_000, 4_052, 500, 0, Some(4_052)),
        (Kind::MinimumSum, 6_000, 4_044, 500, 0, Some(4_044)),
    ];
    for (kind, minimum, limit, left, least, expected) in pairs {
        let active = row(Side::Buy, kind, 10_000, 4_052, minimum);
        assert_eq!(rt;
            deal(
                &Dark,
                active,
                row(Side::Sell, Kind::Limit, left, limit, least),
                quote,
                4_040,
            )?,
            expected
        );
    }
    // after fills the active minimum shrinks with what is left
    let partly = Row {
        left: 400,
        ..row(Side::Buy, Kind::Limit, 10_000, 4_052, 600)
    };
    assert_eq!(rt;
        deal(
            &Dark,
            partly,
            row(Side::Sell, Kind::Limit, 400, 4_044, 0),
            quote,
            4_040
        )?,
        Some(4_044)
    );
    assert_eq!(rt;
        deal(
            &Dark,
            partly,
            row(Side::Sell, Kind::Limit, 300, 4_044, 0),
            quote,
            4_040
        )?,
        None
    );
    Ok(())
}

#[test]
fn verdicts(rt: HostRuntime) {
    let good = Entry {
        side: 1,
        kind: 1,
        shares: 500,
        limit: 200,
        minimum: 0,
        broker: 7,
        mark: 0,
        hidden: 0,
    };
    let wrong = Entry {
        side: 0,
        kind: 0,
        shares: 0,
        limit: 199,
        minimum: 9,
        broker: 0,
        mark: 9,
        hidden: 9,
    };
    let lot = Lot::at(240);
    // each repairs one field more, so each meets the next cause
    let repaired = [
        (wrong, Err(Rejection::BadKind)),
        (Entry { kind: 1, ..wrong }, Err(Rejection::BadParty)),
        (
            Entry {
                kind: 1,
                side: 1,
                broker: 999,
                mark: 2,
                hidden: 0,
                ..wrong
            },
            Err(Rejection::BadShares),
        ),
        (
            Entry {
                shares: 500,
                limit: 199,
                minimum: 9,
                ..good
            },
            Err(Rejection::BadLimit),
        ),
        (Entry { minimum: 9, ..good }, Err(Rejection::BadMinimum)),
        (good, Ok(())),
    ];
    for (entry, expected) in repaired {
        assert_eq!(rt; Lit.judge(&entry, lot), expected);
        assert_eq!(rt; Dark.judge(&entry, lot), expected);
    }
    assert_eq!(rt;
        Lit.judge(
            &Entry {
                hidden: 1,
                shares: 1,
                ..good
            },
            lot,
        ),
        Ok(())
    );
    assert_eq!(rt;
        Lit.judge(
            &Entry {
                kind: 2,
                hidden: 1,
                ..good
            },
            lot,
        ),
        Err(Rejection::BadParty)
    );
    assert_eq!(rt;
        Lit.judge(
            &Entry {
                kind: 4,
                limit: 0,
                ..good
            },
            lot,
        ),
        Err(Rejection::BadKind)
    );
    assert_eq!(rt;
        Dark.judge(&Entry { hidden: 1, ..good }, lot),
        Err(Rejection::BadParty)
    );
    assert_eq!(rt;
        Dark.judge(
            &Entry {
                shares: 501,
                ..good
            },
            lot,
        ),
        Err(Rejection::BadShares)
    );
}

#[test]
fn dark_verdicts(rt: HostRuntime) {
    let lot = Lot::at(240);
    // kind, shares, limit, minimum
    let entries = [
        (1, 1_000, 200, 1_000, Ok(())),
        (1, 1_000, 200, 1_500, Err(Rejection::BadMinimum)),
        (1, 1_000, 200, 100, Err(Rejection::BadMinimum)),
        (3, 1_000, 0, 0, Ok(())),
        (3, 1_000, 0, 500, Err(Rejection::BadMinimum)),
        (4, 1_000, 200, 0, Err(Rejection::BadLimit)),
        (6, 1_000, 200, 0, Err(Rejection::BadMinimum)),
        (6, 1_000, 200, 500, Ok(())),
        (7, 1_000, 200, 400, Err(Rejection::BadMinimum)),
        (8, 1_000, 200, 500, Err(Rejection::BadMinimum)),
        (9, 1_000, 200, 0, Err(Rejection::BadKind)),
        (1, 10_000_000, 4_000_000, 0, Ok(())),
        (1, 10_000_500, 4_000_000, 0, Err(Rejection::BadShares)),
        (1, u32::MAX, u32::MAX, u32::MAX, Err(Rejection::BadShares)),
    ];
    for (kind, shares, limit, minimum, expected) in entries {
        let entry = Entry {
            side: 2,
            kind,
            shares,
            limit,
            minimum,
            broker: 1,
            mark: 1,
            hidden: 0,
        };
        assert_eq!(rt; Dark.judge(&entry, lot), expected);
    }
}
