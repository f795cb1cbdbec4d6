// Plays a day.
ghost use Rattle.std.specs.Prelude.{take};
ghost use Rattle.book.specs.Calls.{count_in};
ghost use Rattle.day.specs.Plays.{stand_of, Turn, Turns};
ghost use Rattle.day.specs.Replays.{Replayed};

use crate::item::Item;
use crate::recorder::{Recorder, Told};
use book::book::Book;
use orders::call::{Fill, Reply};
use orders::refusal::Refusal;
use orders::row::Row;
use priority::priority::Priority;
use terms::terms::Terms;

// Tells the recorder of a call: its own fills, which lie first in the list, and all the places, whatever was handed in.
fn tell<R: Recorder>(recorder: &mut R, item: &Item, reply: &Reply, fills: &[Fill], places: &[Row])
    ensures { R.Recorder.notes recorder.old (record { item = item.now; reply = reply.now; fills = take (count_in reply.now) fills.now; rows = places.now }) recorder.new }
{
    let count = reply.map_or(0, |receipt| receipt.fills);
    recorder.note(Told {
        item,
        reply,
        fills: fills.get(..count).unwrap_or(fills),
        places,
    });
}

// Makes one call, with the first of the places and of the fill entries, and tells the recorder of it. What a day is played on
// is lent thing by thing, so it travels so; clauses have it as one `Stand`.
fn play_item<P: Priority, T: Terms, R: Recorder>(
    book: &mut Book<P, T>,
    item: &Item,
    places: &mut [Row],
    fills: &mut [Fill],
    recorder: &mut R,
)
    ensures { Turn R.Recorder.notes item.now (stand_of P.Priority T.Terms book.old places.old fills.old recorder.old) (stand_of P.Priority T.Terms book.new places.new fills.new recorder.new) }
{
    let handed = item.places.min(places.len());
    let entries = item.fills.min(fills.len());
    let reply = book.answer(&item.call, &mut places[..handed], &mut fills[..entries]);
    tell(recorder, item, &reply, fills, places);
}

// Makes every call on what the one before left, and tells the recorder of each.
fn play_items<P: Priority, T: Terms, R: Recorder>(
    book: &mut Book<P, T>,
    items: &[Item],
    places: &mut [Row],
    fills: &mut [Fill],
    recorder: &mut R,
)
    ensures { Turns R.Recorder.notes items.now (stand_of P.Priority T.Terms book.old places.old fills.old recorder.old) (stand_of P.Priority T.Terms book.new places.new fills.new recorder.new) }
{
    for item in items {
        play_item(book, item, places, fills, recorder);
    }
}

// Opens a book and makes every call on what the one before left, and tells the recorder of each. All that is lent for the day
// is handed in here once, each thing by itself, as to the book.
pub fn replay<P: Priority + Drop, T: Terms + Drop, R: Recorder>(
    priority: P,
    terms: T,
    last: u32,
    places: &mut [Row],
    fills: &mut [Fill],
    items: &[Item],
    recorder: &mut R,
) -> Result<(), Refusal>
    ensures { Replayed (record { deals = T.Terms.deals terms; verdict = T.Terms.verdict terms; before = P.Priority.before priority }) R.Recorder.notes last items.now (record { rows = places.old; fills = fills.old; recorder = recorder.old }) (record { rows = places.new; fills = fills.new; recorder = recorder.new }) result }
{
    let mut book = Book::open(priority, terms, last, places)?;
    play_items(&mut book, items, places, fills, recorder);
    Ok(())
}
