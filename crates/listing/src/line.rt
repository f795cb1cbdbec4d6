// One line of a listing.
ghost use Rattle.std.specs.Prelude.{Some};
ghost use Rattle.listing.specs.Lines.{line_bytes};

use orders::call::{Fill, Receipt};
use orders::refusal::Refusal;
use reader::fault::TextFault;
use std::fmt;

// What a line tells of the session's line that it belongs to.
#[derive(Clone, Copy)]
pub enum Report {
    // a call was accepted
    Taken(Receipt),
    // one of its fills
    Filled(Fill),
    // a call was sent back
    Refused(Refusal),
    // the line could not be read, or the whole text
    Bad(TextFault),
}

// The number of the session's line, counted from 1, and what is told of it. The rules number a fault of the whole text 0.
#[derive(Clone, Copy)]
pub struct Line {
    pub number: usize,
    pub report: Report,
}

impl fmt::Display for Line {
    ghost output = { λ l. Some (line_bytes l) };

    fn fmt<W: fmt::Write>(&self, f: &mut fmt::Formatter<W>) -> fmt::Result {
        let n = self.number;
        match self.report {
            Report::Taken(receipt) => writeln!(
                f,
                "{n} OK {} {} {} {} {}",
                receipt.number, receipt.filled, receipt.resting, receipt.cancelled, receipt.fills
            ),
            Report::Filled(fill) => writeln!(
                f,
                "{n} FILL {} {} {} {} {}",
                fill.buyer, fill.seller, fill.price, fill.shares, fill.active
            ),
            Report::Refused(refusal) => writeln!(f, "{n} NO {}", refusal.number()),
            Report::Bad(fault) => writeln!(f, "{n} BAD {} {}", fault.number(), fault.byte()),
        }
    }
}
