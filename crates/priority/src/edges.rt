// The edges of the two rankings.
use crate::candidate::Candidate;
use crate::priority::Priority;
use crate::ranking::{PriceBrokerSizeTime, PriceBrokerTime};
use orders::kind::Kind;
use orders::mark::Mark;
use orders::row::Row;
use orders::side::Side;
use std::test::Fail;

// A resting order, as far as rankings look at it.
#[derive(Clone, Copy)]
struct Bid {
    price: u32,
    left: u32,
    hidden: bool,
    broker: u32,
    mark: Mark,
    stamp: u32,
}

// The bid that the others are set beside.
const OLD: Bid = Bid {
    price: 240,
    left: 1_000,
    hidden: false,
    broker: 11,
    mark: Mark::Attributed,
    stamp: 1,
};

fn candidate(side: Side, bid: Bid) -> Result<Candidate, Fail> {
    let row = Row {
        side: side.into(),
        kind: Kind::Limit.into(),
        left: bid.left,
        size: bid.left,
        limit: bid.price,
        minimum: 0,
        broker: bid.broker,
        mark: bid.mark.into(),
        hidden: bid.hidden.into(),
        stamp: bid.stamp,
        number: bid.stamp,
    };
    Ok(Candidate {
        order: row.order().ok_or("no order")?,
        price: bid.price,
    })
}

// Whether the first bid comes before the second, and the second before the first, for a seller of a mark.
fn compare<P: Priority>(
    priority: &P,
    mark: Mark,
    first: Bid,
    second: Bid,
) -> Result<(bool, bool), Fail> {
    let seller = Bid {
        price: 200,
        left: 100,
        hidden: false,
        broker: 50,
        mark,
        stamp: 99,
    };
    let active = candidate(Side::Sell, seller)?.order;
    let x = candidate(Side::Buy, first)?;
    let y = candidate(Side::Buy, second)?;
    Ok((
        priority.precedes(&active, &x, &y),
        priority.precedes(&active, &y, &x),
    ))
}

#[test]
fn both_rankings(rt: HostRuntime) -> Result<(), Fail> {
    let old = OLD;
    let new = Bid { stamp: 2, ..old };
    let dear = Bid { price: 244, ..new };
    let ours = Bid { broker: 50, ..new };
    // the younger bid, the seller's mark, and whether the younger comes first
    let pairs = [
        (new, Mark::Attributed, false),
        (dear, Mark::Attributed, true),
        (
            Bid {
                hidden: true,
                ..dear
            },
            Mark::Attributed,
            true,
        ),
        (Bid { price: 236, ..ours }, Mark::Attributed, false),
        (ours, Mark::Attributed, true),
        (ours, Mark::Anonymous, false),
        (ours, Mark::Jitney, false),
        (
            Bid {
                mark: Mark::Anonymous,
                ..ours
            },
            Mark::Attributed,
            false,
        ),
        (
            Bid {
                mark: Mark::Jitney,
                ..ours
            },
            Mark::Attributed,
            false,
        ),
        (
            Bid {
                hidden: true,
                ..ours
            },
            Mark::Attributed,
            false,
        ),
    ];
    for (bid, mark, first) in pairs {
        assert_eq!(rt; compare(&PriceBrokerTime, mark, bid, old)?, (first, !first));
        assert_eq!(rt;
            compare(&PriceBrokerSizeTime, mark, bid, old)?,
            (first, !first)
        );
    }
    assert_eq!(rt;
        compare(&PriceBrokerTime, Mark::Attributed, old, old)?,
        (false, false)
    );
    assert_eq!(rt;
        compare(
            &PriceBrokerSizeTime,
            Mark::Attributed,
            old,
            Bid { left: 900, ..old }
        )?,
        (false, false)
    );
    assert_eq!(rt;
        compare(
            &PriceBrokerTime,
            Mark::Attributed,
            Bid {
                hidden: true,
                ..old
            },
            new
        )?,
        (false, true)
    );
    Ok(())
}

#[test]
fn large_sizes(rt: HostRuntime) -> Result<(), Fail> {
    let old = OLD;
    // the older and the younger bid's shares left, the younger hidden, and whether the younger comes first by size
    let pairs = [
        (1_000, 29_999, false, false),
        (1_000, 30_000, false, true),
        (30_000, 30_000, false, false),
        (30_000, 30_001, false, true),
        (60_000, 50_000, false, false),
        (1_000, 10_000_000, true, false),
    ];
    for (left, younger, hidden, first) in pairs {
        let new = Bid {
            left: younger,
            hidden,
            stamp: 2,
            ..old
        };
        assert_eq!(rt;
            compare(
                &PriceBrokerSizeTime,
                Mark::Attributed,
                new,
                Bid { left, ..old }
            )?,
            (first, !first)
        );
        assert_eq!(rt;
            compare(&PriceBrokerTime, Mark::Attributed, new, Bid { left, ..old })?,
            (false, true)
        );
    }
    let large = Bid {
        left: 90_000,
        ..old
    };
    // two hidden ones: neither is large
    assert_eq!(rt;
        compare(
            &PriceBrokerSizeTime,
            Mark::Attributed,
            Bid {
                hidden: true,
                stamp: 2,
                ..large
            },
            Bid {
                hidden: true,
                ..old
            },
        )?,
        (false, true)
    );
    // the broker comes before the size
    let ours = Bid {
        broker: 50,
        stamp: 2,
        ..old
    };
    assert_eq!(rt;
        compare(&PriceBrokerSizeTime, Mark::Attributed, large, ours)?,
        (false, true)
    );
    Ok(())
}
