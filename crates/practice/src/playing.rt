// Plays a day and prints its listing.
use book::book::Book;
use listing::line::{Line, Report};
use orders::call::{Call, Fill, Receipt, Reply};
use orders::entry::Entry;
use orders::kind::Kind;
use orders::row::Row;
use orders::side::Side;
use priority::priority::Priority;
use terms::terms::Terms;

// How many places and fill entries a call hands in, or all where there are fewer. An item of `day` says so of one call; here
// it holds for those that follow.
#[derive(Clone, Copy)]
pub struct Handed {
    pub places: usize,
    pub fills: usize,
}

// One step of a day.
#[derive(Clone, Copy)]
pub enum Step {
    Call(Call),
    // the question for the shares left of the order with this number
    Ask(u32),
    // so many market orders to buy 100, of which only the last is printed
    Spend(u32),
    // from here on so much is handed in
    Hand(Handed),
    // somebody else writes a row into a place
    Write(usize, Row),
    // prints the shares left, stamp and number of the row in a place
    Show(usize),
}

// Enters market orders, and gives the last reply.
fn spend<P: Priority, T: Terms>(
    book: &mut Book<P, T>,
    orders: u32,
    places: &mut [Row],
    fills: &mut [Fill],
) -> Reply {
    let order = Call::Enter(Entry {
        side: Side::Buy.into(),
        kind: Kind::Market.into(),
        shares: 100,
        limit: 0,
        minimum: 0,
        broker: 1,
        mark: 0,
        hidden: 0,
    });
    let mut reply = Ok(Receipt::default());
    for _ in 0..orders {
        reply = book.answer(&order, places, fills);
    }
    reply
}

fn print_row(rt: &HostRuntime, place: usize, row: &Row) -> anyhow::Result<()> {
    let Row {
        left,
        stamp,
        number,
        ..
    } = *row;
    println!(rt; "  place {place}: {left} left, stamp {stamp}, number {number}")?;
    Ok(())
}

fn print_line(rt: &HostRuntime, number: usize, report: Report) -> anyhow::Result<()> {
    let line = Line { number, report };
    print!(rt; "{line}")?;
    Ok(())
}

// The listing of one call: its reply, and the first entries of the list of fills.
fn print_reply(
    rt: &HostRuntime,
    number: usize,
    reply: &Reply,
    fills: &[Fill],
) -> anyhow::Result<()> {
    match *reply {
        Ok(receipt) => {
            print_line(rt, number, Report::Taken(receipt))?;
            for fill in fills.iter().take(receipt.fills) {
                print_line(rt, number, Report::Filled(*fill))?;
            }
            Ok(())
        }
        Err(refusal) => print_line(rt, number, Report::Refused(refusal)),
    }
}

// Takes every step on what the one before left, and prints the listing of those that are calls.
fn play_steps<P: Priority, T: Terms>(
    rt: &HostRuntime,
    book: &mut Book<P, T>,
    steps: &[Step],
    places: &mut [Row],
    fills: &mut [Fill],
) -> anyhow::Result<()> {
    // counted here, since only a step that has a reply has a line
    let mut line: usize = 2;
    let mut handed = Handed {
        places: places.len(),
        fills: fills.len(),
    };
    for step in steps {
        let p = handed.places.min(places.len());
        let f = handed.fills.min(fills.len());
        let reply = match *step {
            Step::Call(call) => book.answer(&call, &mut places[..p], &mut fills[..f]),
            Step::Ask(number) => book.ask(number, &places[..p]),
            Step::Spend(orders) => spend(book, orders, &mut places[..p], &mut fills[..f]),
            Step::Hand(next) => {
                handed = next;
                continue;
            }
            Step::Write(place, row) => {
                if let Some(old) = places.get_mut(place) {
                    *old = row;
                }
                continue;
            }
            Step::Show(place) => {
                if let Some(row) = places.get(place) {
                    print_row(rt, place, row)?;
                }
                continue;
            }
        };
        print_reply(rt, line, &reply, fills)?;
        line = line.saturating_add(1);
    }
    Ok(())
}

// What a book is opened with, its places apart. It lies in this program, as the short words for calls do: the other one
// that plays days tells of a book too, and wraps each call in an item.
#[derive(Clone, Copy)]
pub(crate) struct Setting<P, T> {
    pub(crate) priority: P,
    pub(crate) terms: T,
    pub(crate) last: u32,
}

impl<P: Priority + Drop, T: Terms + Drop> Setting<P, T> {
    // Opens a book with so many places, at most eight, and plays a day in it. The rows and the fills are arrays, so that no day
    // can want memory.
    pub(crate) fn play(
        self,
        rt: &HostRuntime,
        places: usize,
        steps: &[Step],
    ) -> anyhow::Result<()> {
        let Setting {
            priority,
            terms,
            last,
        } = self;
        let mut rows = [Row::cleared(); 8];
        let mut fills = [Fill::BLANK; 8];
        let rows = &mut rows[..places.min(8)];
        let fills = &mut fills[..places.min(8)];
        match Book::open(priority, terms, last, rows) {
            Ok(mut book) => {
                print_line(rt, 1, Report::Taken(Receipt::default()))?;
                play_steps(rt, &mut book, steps, rows, fills)
            }
            Err(refusal) => print_line(rt, 1, Report::Refused(refusal)),
        }
    }

    // The same, with a title above.
    pub(crate) fn play_titled(
        self,
        rt: &HostRuntime,
        title: &str,
        places: usize,
        steps: &[Step],
    ) -> anyhow::Result<()> {
        println!(rt; "{title}")?;
        self.play(rt, places, steps)
    }
}
