// The two books, as terms that are chosen while the program runs: by an enum, since a `dyn` cannot be made and handed out.
// What is a law of each book's terms is one of the chosen.
ghost use Rattle.std.specs.Prelude.{◌≡◌};
ghost use Rattle.venue.specs.Venues.{venue_deals, venue_verdict};
ghost use Rattle.venue.specs.declared.venue.Venue.TheVariants.{LitBook, DarkBook};
ghost use Rattle.terms.specs.contracts.lit.LitTerms.TheImpl.Laws as lit;
ghost use Rattle.terms.specs.contracts.dark.DarkTerms.TheImpl.Laws as dark;

use orders::entry::Entry;
use orders::lot::Lot;
use orders::order::Order;
use orders::quote::Quote;
use terms::dark::Dark;
use terms::lit::Lit;
use terms::rejection::Rejection;
use terms::terms::Terms;

#[derive(Clone, Copy, PartialEq, Eq, Debug)]
pub enum Venue {
    LitBook,
    DarkBook,
}

impl Terms for Venue {
    ghost deals = { venue_deals };

    ghost verdict = { venue_verdict };

    ghost opposite_sides = { elim [ LitBook ↦ lit.opposite_sides-law (record {}) | DarkBook ↦ dark.opposite_sides-law (record {}) ] };

    ghost priced = { elim [ LitBook ↦ lit.priced-law (record {}) | DarkBook ↦ dark.priced-law (record {}) ] };

    ghost in_range = { elim [ LitBook ↦ lit.in_range-law (record {}) | DarkBook ↦ dark.in_range-law (record {}) ] };

    ghost modest = { elim [ LitBook ↦ lit.modest-law (record {}) | DarkBook ↦ dark.modest-law (record {}) ] };

    fn deal(&self, active: &Order, resting: &Order, quote: Option<Quote>, lot: Lot) -> Option<u32> {
        match self {
            Venue::LitBook => Lit.deal(active, resting, quote, lot),
            Venue::DarkBook => Dark.deal(active, resting, quote, lot),
        }
    }

    fn judge(&self, entry: &Entry, lot: Lot) -> Result<(), Rejection> {
        match self {
            Venue::LitBook => Lit.judge(entry, lot),
            Venue::DarkBook => Dark.judge(entry, lot),
        }
    }
}
