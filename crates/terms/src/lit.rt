// The terms of the lit book.
ghost use Rattle.std.specs.Prelude.{◌≡◌};
ghost use Rattle.terms.specs.Lit.{lit_accepts, lit_trades, lit_deal, lit_verdict, lit_rules};
ghost use Rattle.terms.specs.LitLaws.{lit_priced, lit_sound};
ghost use Rattle.terms.specs.Taken.{takes};
ghost use Rattle.terms.specs.Taken;
ghost use Rattle.std.proofs.Common.{rules};

use crate::judging::first_wrong;
use crate::rejection::Rejection;
use crate::terms::Terms;
use orders::entry::Entry;
use orders::kind::Kind;
use orders::lot::Lot;
use orders::order::Order;
use orders::quote::Quote;

#[derive(Clone, Copy)]
pub struct Lit;

// Whether an active order takes a price.
fn accepts(active: &Order, price: u32) -> bool
    ensures { result ≡ lit_accepts active.now.kind active.now.side active.now.limit price }
{
    match active.kind {
        Kind::Market => true,
        _ => active.side.is_no_worse(price, active.limit),
    }
}

// The kinds of the lit book.
fn trades(kind: Kind) -> bool
    ensures { result ≡ lit_trades kind }
{
    matches!(kind, Kind::Limit | Kind::LimitAtOnce | Kind::Market)
}

impl Terms for Lit {
    ghost deals = { λ _. lit_deal };

    ghost verdict = { λ _. lit_verdict };

    ghost opposite_sides = { Prim.search rules };

    ghost priced = { λ t a r q l. lit_priced a r q l };

    ghost in_range = { λ t e l taken s low high. takes lit_rules lit_sound e taken s low high };

    ghost modest = { λ t e l taken. Taken.modest lit_rules lit_sound e taken };

    fn deal(&self, active: &Order, resting: &Order, quote: Option<Quote>, lot: Lot) -> Option<u32> {
        let price = resting.limit;
        let deals = active.side.is_opposite(resting.side) && price != 0 && accepts(active, price);
        deals.then_some(price)
    }

    // The few lines that this book and the dark one have alike differ in all that they hand on.
    fn judge(&self, entry: &Entry, lot: Lot) -> Result<(), Rejection> {
        let Ok(kind) = Kind::try_from(entry.kind) else {
            return Err(Rejection::BadKind);
        };
        if !trades(kind) {
            return Err(Rejection::BadKind);
        }
        first_wrong(entry, kind, kind.hides(), true, entry.minimum == 0)
    }
}
