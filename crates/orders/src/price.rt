// A price is a whole number of quarter cents.
ghost use Rattle.std.specs.Prelude.{◌≡◌, true};
ghost use Rattle.orders.specs.Grid.{on_grid, step_above, step_below};

// A price that may be entered or quoted: none exists off its range or grid.
#[derive(Clone, Copy, PartialEq, Eq, Debug)]
pub struct Price {
    pub quarters: u32,
    ghost ok: { on_grid quarters ≡ true },
}

// Whether a price may be entered or quoted: 2 to 4,000,000, a multiple of 4 from 200 up, else of 2.
pub fn is_on_grid(price: u32) -> bool
    ensures { result ≡ on_grid price }
{
    price >= 2 && price <= 4_000_000 && price % (if price >= 200 { 4 } else { 2 }) == 0
}

impl Price {
    ghost use Rattle.orders.specs.Quotes.{price_of};

    // A checked constructor, as that of `NonZero`.
    pub fn new(quarters: u32) -> Option<Price>
        ensures { result ≡ price_of quarters }
    {
        if !is_on_grid(quarters) {
            return None;
        }
        Some(Price { quarters })
    }

    // The next price up. It passes the range at 4,000,000, so it is a plain number.
    pub fn step_above(self) -> u32
        ensures { result ≡ step_above self.quarters }
    {
        if self.quarters >= 200 {
            self.quarters + 4
        } else {
            self.quarters + 2
        }
    }

    // The next price down. It passes the range at 2, so it is a plain number.
    pub fn step_below(self) -> u32
        ensures { result ≡ step_below self.quarters }
    {
        if self.quarters > 200 {
            self.quarters - 4
        } else {
            self.quarters - 2
        }
    }
}
