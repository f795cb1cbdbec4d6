// The standard trading unit.
ghost use Rattle.std.specs.Prelude.{◌≡◌, true};
ghost use Rattle.orders.specs.Grid.{is_lot, lot_shares};

// A lot is 100, 500 or 1,000 shares: no other exists, and none of 0.
#[derive(Clone, Copy, PartialEq, Eq, Debug)]
pub struct Lot {
    pub shares: u32,
    ghost ok: { is_lot shares ≡ true },
}

fn lot_shares(last: u32) -> u32
    ensures { result ≡ lot_shares last }
{
    if last >= 400 {
        100
    } else if last >= 40 {
        500
    } else {
        1000
    }
}

impl Lot {
    ghost use Rattle.orders.specs.Quotes.{lot_of};

    // The lot at the price of the last sale.
    pub fn at(last: u32) -> Lot
        ensures { result ≡ lot_of last }
    {
        Lot {
            shares: lot_shares(last),
        }
    }
}
