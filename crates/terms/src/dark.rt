// The terms of the dark book.
ghost use Rattle.std.specs.Prelude.{◌≡◌, ◌==◌};
ghost use Rattle.orders.specs.Quotes.{touch};
ghost use Rattle.orders.specs.Rows.{in_force};
ghost use Rattle.terms.specs.Dark.{inside_price, standing, within_limit, improving_edge, passes, edge, asks, agrees, whole_lots, dark_minimum, dark_deal, dark_verdict, dark_rules};
ghost use Rattle.terms.specs.DarkLaws.{dark_priced, dark_sound};
ghost use Rattle.terms.specs.Taken.{takes};
ghost use Rattle.terms.specs.Taken;
ghost use Rattle.std.proofs.Common.{rules};

use crate::judging::first_wrong;
use crate::rejection::Rejection;
use crate::terms::Terms;
use orders::entry::Entry;
use orders::kind::Kind;
use orders::lot::Lot;
use orders::order::Order;
use orders::quote::Quote;
use orders::side::Side;

#[derive(Clone, Copy)]
pub struct Dark;

// One step inside the quote, from this side of it.
fn inside_price(side: Side, quote: &Quote) -> u32
    ensures { result ≡ inside_price side quote.now }
{
    match side {
        _ if quote.is_narrow() => quote.middle(),
        Side::Buy => quote.bid.step_above(),
        Side::Sell => quote.offer.step_below(),
    }
}

// The functions below take of the order, the quote and the lot of the deal what they need, as `deal` has it.

// The price at which a resting order stands, if its kind rests.
fn standing_price(resting: &Order, quote: &Quote) -> Option<u32>
    ensures { result ≡ standing resting.now.kind resting.now.side resting.now.limit quote.now }
{
    match resting.kind {
        Kind::Limit => match resting.side {
            Side::Buy => Some(resting.limit.min(quote.offer.quarters)),
            Side::Sell => Some(resting.limit.max(quote.bid.quarters)),
        },
        Kind::MiddlePeg => Some(quote.middle()),
        Kind::MinimumImprovement => Some(inside_price(resting.side, quote)),
        Kind::LimitAtOnce
        | Kind::Market
        | Kind::MinimumEach
        | Kind::MinimumSum
        | Kind::SeekImprovement => None,
    }
}

// Whether a price is no worse than the limit that an active order has.
fn within_limit(active: &Order, quote: &Quote, price: u32) -> bool
    ensures { result ≡ within_limit active.now.kind active.now.side active.now.limit quote.now price }
{
    let side = active.side;
    match active.kind {
        Kind::Market => true,
        Kind::MiddlePeg => side.is_no_worse(price, quote.middle()),
        Kind::MinimumImprovement => side.is_no_worse(price, inside_price(side, quote)),
        _ => side.is_no_worse(price, active.limit),
    }
}

// One step inside the quote, from the other side of it.
fn improving_edge(side: Side, quote: &Quote) -> u32
    ensures { result ≡ improving_edge side quote.now }
{
    inside_price(side.other(), quote)
}

// The size test of an active order.
fn passes(active: &Order, quote: &Quote, lot: Lot) -> bool
    ensures { result ≡ passes active.now.side active.now.size quote.now lot }
{
    let size = active.size;
    size > 50 * lot.shares || u64::from(size) * u64::from(quote.touch(active.side)) > 40_000_000
}

// The worst price that the kind and size of an active order allow.
fn edge(active: &Order, quote: &Quote, lot: Lot) -> u32
    ensures { result ≡ edge active.now.kind active.now.side active.now.size quote.now lot }
{
    match active.kind {
        Kind::SeekImprovement => improving_edge(active.side, quote),
        _ if passes(active, quote, lot) => quote.touch(active.side),
        _ => improving_edge(active.side, quote),
    }
}

fn is_touch(side: Side, quote: &Quote, price: u32) -> bool
    ensures { result ≡ (price == touch side quote.now) }
{
    price == quote.touch(side)
}

// The shares that an active order asks of the one it meets at a price.
fn asks(active: &Order, quote: &Quote, price: u32) -> u32
    ensures { result ≡ asks active.now.kind (in_force active.now) (touch active.now.side quote.now) price }
{
    match active.kind {
        Kind::MinimumSum => 0,
        Kind::MinimumEach if !is_touch(active.side, quote, price) => 0,
        _ => active.minimum_in_force(),
    }
}

// Whether an active and a resting order trade at the price at which the resting one stands.
fn agrees(active: &Order, resting: &Order, quote: &Quote, lot: Lot, price: u32) -> bool
    ensures { result ≡ agrees active.now resting.now quote.now lot price }
{
    within_limit(active, quote, price)
        && active.side.is_no_worse(price, edge(active, quote, lot))
        && asks(active, quote, price) <= resting.left
        && resting.minimum_in_force() <= active.left
}

fn whole_lots(shares: u32, lot: Lot) -> bool
    ensures { result ≡ whole_lots lot shares }
{
    shares % lot.shares == 0
}

// Whether an entry of a kind may carry a minimum.
fn minimum_allowed(kind: Kind, shares: u32, minimum: u32, lot: Lot) -> bool
    ensures { result ≡ dark_minimum lot kind shares minimum }
{
    match kind {
        Kind::Market | Kind::SeekImprovement => minimum == 0,
        Kind::MinimumEach | Kind::MinimumSum if minimum < lot.shares => false,
        _ => minimum <= shares && whole_lots(minimum, lot),
    }
}

impl Terms for Dark {
    ghost deals = { λ _. dark_deal };

    ghost verdict = { λ _. dark_verdict };

    ghost opposite_sides = { Prim.search rules };

    ghost priced = { λ t a r q l. dark_priced a r q l };

    ghost in_range = { λ t e l taken s low high. takes (dark_rules l) (dark_sound l) e taken s low high };

    ghost modest = { λ t e l taken. Taken.modest (dark_rules l) (dark_sound l) e taken };

    fn deal(&self, active: &Order, resting: &Order, quote: Option<Quote>, lot: Lot) -> Option<u32> {
        let quote = quote?;
        if !active.side.is_opposite(resting.side) {
            return None;
        }
        let price = standing_price(resting, &quote)?;
        agrees(active, resting, &quote, lot, price).then_some(price)
    }

    fn judge(&self, entry: &Entry, lot: Lot) -> Result<(), Rejection> {
        let Ok(kind) = Kind::try_from(entry.kind) else {
            return Err(Rejection::BadKind);
        };
        let whole = whole_lots(entry.shares, lot);
        let minimum = minimum_allowed(kind, entry.shares, entry.minimum, lot);
        first_wrong(entry, kind, false, whole, minimum)
    }
}
