// Where the lines of a listing go.
ghost use Rattle.listing.specs.declared.line.Line.{Line};

use crate::line::Line;

pub trait Sink {
    // What writing a line does to the sink.
    ghost writes: { Self → Line → Self → Type 0 };

    // Takes the next line. It cannot fail: a sink remembers what went wrong.
    fn write_line(&mut self, line: &Line)
        ensures { writes self.old line.now self.new };
}
