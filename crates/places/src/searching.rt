// What lies where in the places.
ghost use Rattle.std.specs.Prelude.{◌≡◌, ◌<◌, true, is_some, length, IfOk};
ghost use Rattle.orders.specs.Rows.{order_of};
ghost use Rattle.places.specs.Places.{is_free, free_place, holds_number, place_of, look_up, row_at, placed, left_at};

use orders::refusal::Refusal;
use orders::row::Row;

pub fn is_order(row: &Row) -> bool
    ensures { result ≡ is_some (order_of row.now) }
{
    row.order().is_some()
}

fn is_free(row: &Row) -> bool
    ensures { result ≡ is_free row.now }
{
    !is_order(row)
}

// The lowest free place.
pub fn free_place(places: &[Row]) -> Option<usize>
    ensures { result ≡ free_place places.now }
{
    places.iter().position(is_free)
}

// Whether the order of this number lies in the row.
fn holds_number(row: &Row, number: u32) -> bool
    ensures { result ≡ holds_number number row.now }
{
    is_order(row) && row.number == number
}

// The lowest place where the order of this number lies.
pub fn place_of(number: u32, places: &[Row]) -> Option<usize>
    ensures { result ≡ place_of number places.now }
{
    places.iter().position(|row| holds_number(row, number))
}

// The place of the order with this number, which amendments, cancels and questions name.
pub fn look_up(number: u32, places: &[Row]) -> Result<usize, Refusal>
    ensures value { result ≡ look_up (place_of number places.now) }
    ensures found { IfOk result (λ place. place_of number places.now ≡ Some place) }
    ensures within { IfOk result (λ place. place < length places.now) }
{
    let Some(place) = place_of(number, places) else {
        return Err(Refusal::NotResting);
    };
    Ok(place)
}

// The row of a place.
pub fn row_at(places: &[Row], place: Option<usize>) -> Row
    ensures { result ≡ row_at place places.now }
{
    place
        .and_then(|i| places.get(i))
        .copied()
        .unwrap_or_default()
}

// Writes a row into a place, if there is one.
pub fn put(places: &mut [Row], place: Option<usize>, row: &Row)
    ensures { places.new ≡ placed place true row.now places.old }
{
    if let Some(i) = place
        && i < places.len()
    {
        places[i] = *row;
    }
}

// The shares left in a place.
pub fn left_at(places: &[Row], place: Option<usize>) -> u32
    ensures { result ≡ left_at place true places.now }
{
    row_at(places, place).left
}
