// What becomes of an order that was tried.
ghost use Rattle.std.specs.Prelude.{◌≡◌, ℕ, cond, ◌&&◌, is_some};
ghost use Rattle.orders.specs.Codes.{kind_of};
ghost use Rattle.orders.specs.Rows.{order_of};
ghost use Rattle.places.specs.Remainders.{rests_as, at_once_as};

use crate::searching::is_order;
use orders::kind::Kind;
use orders::row::Row;

// Whether what an entry calls its kind is one that rests: until it is judged, an entry's kind is a number.
pub fn rests_as(kind: u32) -> bool
    ensures { result ≡ rests_as (kind_of kind) }
{
    Kind::try_from(kind).is_ok_and(|kind| kind.rests())
}

// Whether what an entry calls its kind is one that trades at once or not at all. It is not the contrary of the other, since
// what is no kind is neither.
pub fn at_once_as(kind: u32) -> bool
    ensures { result ≡ at_once_as (kind_of kind) }
{
    Kind::try_from(kind).is_ok_and(|kind| !kind.rests())
}

// Whether an order that was tried stays in the book. Its kind rests or not by what the entry said, so it is told here and in the
// next function: the row may be cleared by now.
pub fn stays_as(rests: bool, active: &Row) -> bool
    ensures { result ≡ (rests && is_some (order_of active.now)) }
{
    rests && is_order(active)
}

// What is cancelled of an order that was tried.
pub fn cancelled_of(rests: bool, active: &Row) -> u32
    ensures { result ≡ cond {A = ℕ} rests 0 active.now.left }
{
    if rests { 0 } else { active.left }
}
