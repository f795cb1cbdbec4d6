// Plays a whole text, line by line, into a sink.
ghost use Rattle.std.specs.Prelude.{◌≡◌, ◌≤◌, length, IfOk, None, string_bytes};
ghost use Rattle.reader.specs.Faults.{longest_text};
ghost use Rattle.listing.specs.Lines.{all_bytes};
ghost use Rattle.listing.specs.Sinks.{Handed};
ghost use Rattle.book.specs.Calls.{count_in};
ghost use Rattle.session.specs.Desks.{desk_of};
ghost use Rattle.session.specs.Plays.{plays};
ghost use Rattle.session.specs.Listings.{result_line, fill_lines, line_listing, listing_from, listing_of};

use crate::fault::SessionFault;
use crate::session::Session;
use listing::keeper::Keeper;
use listing::line::{Line, Report};
use listing::sink::Sink;
use orders::call::{Fill, Receipt};
use reader::text::Reader;
use std::alloc::{AllocError, Global};

// What is listed of a line that came to this.
fn result_line(number: usize, outcome: Result<Receipt, SessionFault>) -> Line
    ensures { result ≡ result_line number outcome }
{
    let (number, report) = match outcome {
        Ok(receipt) => (number, Report::Taken(receipt)),
        Err(SessionFault::Refused(refusal)) => (number, Report::Refused(refusal)),
        // it says itself which line it stands in
        Err(SessionFault::Text(fault)) => (fault.line, Report::Bad(fault.fault)),
    };
    Line { number, report }
}

fn list_fills<S: Sink>(number: usize, fills: &[Fill], sink: &mut S)
    ensures { Handed S.Sink.writes sink.old (fill_lines number fills.now) sink.new }
{
    for fill in fills {
        sink.write_line(&Line {
            number,
            report: Report::Filled(*fill),
        });
    }
}

// Plays a line and lists what came of it.
fn list_line<S: Sink>(session: &mut Session, number: usize, line: &[u8], sink: &mut S)
    ensures desk { desk_of session.new ≡ (plays number line.now (desk_of session.old)).desk }
    ensures handed { Handed S.Sink.writes sink.old (line_listing number (plays number line.now (desk_of session.old))) sink.new }
{
    let result = session.play(number, line);
    sink.write_line(&result_line(number, result));
    let count = result.map_or(0, |receipt| receipt.fills);
    list_fills(number, session.fills(count), sink);
}

// Plays the lines that are still to be read, each on what the one before left.
fn list_lines<S: Sink>(lines: Reader<'_>, sink: &mut S)
    requires { length lines ≤ longest_text }
    ensures { Handed S.Sink.writes sink.old (listing_from 1 lines.entry None) sink.new }
{
    let mut session = Session::new();
    for (i, line) in lines.enumerate() {
        list_line(&mut session, i + 1, line, sink);
    }
}

// Plays a text: the sink is handed exactly the lines of its listing. It needs no memory beside its own, and cannot fail.
pub fn play_text<S: Sink>(text: &[u8], sink: &mut S)
    ensures { Handed S.Sink.writes sink.old (listing_of text.now) sink.new }
{
    match Reader::new(text) {
        Ok(reader) => list_lines(reader, sink),
        Err(fault) => sink.write_line(&Line {
            number: 0,
            report: Report::Bad(fault),
        }),
    }
}

// The listing of a text, kept as bytes.
pub fn listing_of(heap: Global, text: &[u8]) -> Result<String, AllocError>
    ensures { IfOk result (λ s. string_bytes s ≡ all_bytes (listing_of text.now)) }
{
    let mut keeper = Keeper::new(heap);
    play_text(text, &mut keeper);
    keeper.into_listing()
}
