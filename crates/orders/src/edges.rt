// The edges of prices, lots, quotes and rows.
use crate::lot::Lot;
use crate::price::{Price, is_on_grid};
use crate::quote::Quote;
use crate::row::Row;
use crate::side::Side;
use std::test::Fail;

#[test]
fn prices(rt: HostRuntime) -> Result<(), Fail> {
    let grid = [
        (0, false),
        (1, false),
        (2, true),
        (3, false),
        (198, true),
        (199, false),
        (200, true),
        (202, false),
        (204, true),
        (4_000_000, true),
        (4_000_004, false),
        (u32::MAX, false),
    ];
    for (price, expected) in grid {
        assert_eq!(rt; is_on_grid(price), expected);
        assert_eq!(rt; Price::new(price).is_some(), expected);
    }
    // a price, the step above it and the step below it
    let steps = [
        (2, 4, 0),
        (198, 200, 196),
        (200, 204, 198),
        (204, 208, 200),
        (4_000_000, 4_000_004, 3_999_996),
    ];
    for (price, above, below) in steps {
        let price = Price::new(price).ok_or("off the grid")?;
        assert_eq!(rt; price.step_above(), above);
        assert_eq!(rt; price.step_below(), below);
    }
    for (last, shares) in [
        (1, 1_000),
        (39, 1_000),
        (40, 500),
        (399, 500),
        (400, 100),
        (4_000_000, 100),
    ] {
        assert_eq!(rt; Lot::at(last).shares, shares);
    }
    Ok(())
}

#[test]
fn quotes(rt: HostRuntime) -> Result<(), Fail> {
    // bid, offer, middle, narrow
    let quotes = [
        (196, 198, 197, true),
        (198, 200, 199, true),
        (200, 204, 202, true),
        (198, 204, 201, false),
        (4_040, 4_052, 4_046, false),
    ];
    for (bid, offer, middle, narrow) in quotes {
        let quote = Quote::new(bid, offer).ok_or("no quote")?;
        assert_eq!(rt; quote.middle(), middle);
        assert_eq!(rt; quote.is_narrow(), narrow);
        assert_eq!(rt; quote.touch(Side::Buy), offer);
        assert_eq!(rt; quote.touch(Side::Sell), bid);
    }
    for (bid, offer) in [
        (4_040, 4_040),
        (4_044, 4_040),
        (199, 204),
        (198, 202),
        (0, 2),
        (4_000_000, 4_000_004),
    ] {
        assert!(rt; Quote::new(bid, offer).is_none());
    }
    Ok(())
}

fn row(side: u32, kind: u32, limit: u32, minimum: u32) -> Row {
    Row {
        side,
        kind,
        left: 100,
        size: 500,
        limit,
        minimum,
        broker: 7,
        mark: 0,
        hidden: 0,
        stamp: 9,
        number: 3,
    }
}

fn is_order(row: Row) -> bool {
    row.order().is_some()
}

#[test]
fn rows(rt: HostRuntime) {
    // side, kind, limit, minimum
    let orders = [
        (1, 1, 2, 0),
        (2, 2, 198, 10_000_000),
        (1, 3, 0, 0),
        (1, 4, 0, 9),
        (2, 5, 0, 9),
        (1, 6, 4_000_000, 0),
        (1, 7, 200, 1),
        (2, 8, 204, 0),
    ];
    for (side, kind, limit, minimum) in orders {
        assert!(rt; is_order(row(side, kind, limit, minimum)));
    }
    let none = [
        (0, 1, 2, 0),
        (3, 1, 2, 0),
        (1, 0, 2, 0),
        (1, 9, 2, 0),
        (1, 1, 0, 0),
        (1, 1, 199, 0),
        (1, 1, 202, 0),
        (1, 1, 4_000_004, 0),
        (1, 3, 200, 0),
        (1, 4, 200, 0),
        (1, 5, 200, 0),
        (1, 3, 0, 1),
        (1, 8, 200, 1),
        (1, 1, 200, 10_000_001),
    ];
    for (side, kind, limit, minimum) in none {
        assert!(rt; !is_order(row(side, kind, limit, minimum)));
    }
    assert!(rt; !is_order(Row::cleared()));
}

#[test]
fn plain_fields(rt: HostRuntime) {
    let good = row(1, 1, 200, 0);
    assert!(rt;
        is_order(Row {
            left: 10_000_000,
            size: 1,
            broker: 999,
            mark: 2,
            hidden: 1,
            stamp: 1,
            number: 1_000_000,
            ..good
        })
    );
    assert!(rt; !is_order(Row { left: 0, ..good }));
    assert!(rt;
        !is_order(Row {
            left: 10_000_001,
            ..good
        })
    );
    assert!(rt; !is_order(Row { size: 0, ..good }));
    assert!(rt; !is_order(Row { broker: 0, ..good }));
    assert!(rt;
        !is_order(Row {
            broker: 1_000,
            ..good
        })
    );
    assert!(rt; !is_order(Row { mark: 3, ..good }));
    assert!(rt; !is_order(Row { hidden: 2, ..good }));
    assert!(rt;
        !is_order(Row {
            kind: 2,
            hidden: 1,
            ..good
        })
    );
    assert!(rt; !is_order(Row { stamp: 0, ..good }));
    assert!(rt;
        !is_order(Row {
            stamp: 1_000_001,
            ..good
        })
    );
    assert!(rt; !is_order(Row { number: 0, ..good }));
}

#[test]
fn minimum_after_fills(rt: HostRuntime) -> Result<(), Fail> {
    for (left, minimum, expected) in [
        (1_000, 400, 400),
        (400, 400, 400),
        (300, 400, 300),
        (300, 0, 0),
    ] {
        let row = Row {
            left,
            minimum,
            ..row(1, 1, 200, 0)
        };
        let order = row.order().ok_or("no order")?;
        assert_eq!(rt; order.minimum_in_force(), expected);
    }
    Ok(())
}
