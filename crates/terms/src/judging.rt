// What every book judges alike.
ghost use Rattle.std.specs.Prelude.{◌≡◌, ◌&&◌};
ghost use Rattle.orders.specs.Kinds.{limit_fits};
ghost use Rattle.orders.specs.Ranges.{shares_fit};
ghost use Rattle.terms.specs.Verdicts.{party_fits, first_wrong};

use crate::rejection::Rejection;
use orders::entry::Entry;
use orders::kind::Kind;
use orders::mark::Mark;
use orders::row::{broker_fits, shares_fit};
use orders::side::Side;

// Side, broker, mark and hidden mark.
fn party_fits(entry: &Entry, may_hide: bool) -> bool
    ensures { result ≡ party_fits entry.now may_hide }
{
    Side::try_from(entry.side).is_ok()
        && broker_fits(entry.broker)
        && Mark::try_from(entry.mark).is_ok()
        && (entry.hidden == 0 || may_hide && entry.hidden == 1)
}

// The first wrong field of an entry of a kind that the book trades, where the book says whether it may be hidden, whether
// its shares are in whole units, and whether its minimum is allowed: outcomes of tests that are not the same in every book.
pub(crate) fn first_wrong(
    entry: &Entry,
    kind: Kind,
    may_hide: bool,
    whole: bool,
    minimum: bool,
) -> Result<(), Rejection>
    ensures { result ≡ first_wrong (party_fits entry.now may_hide) (shares_fit entry.now.shares && whole) (limit_fits kind entry.now.limit) minimum }
{
    if !party_fits(entry, may_hide) {
        return Err(Rejection::BadParty);
    }
    if !(shares_fit(entry.shares) && whole) {
        return Err(Rejection::BadShares);
    }
    if !kind.limit_fits(entry.limit) {
        return Err(Rejection::BadLimit);
    }
    if !minimum {
        return Err(Rejection::BadMinimum);
    }
    Ok(())
}
