// A sink that prints.
ghost use Rattle.std.specs.Prelude.{◌≡◌, true, is_ok};

use listing::line::Line;
use listing::sink::Sink;
use std::io;

// Prints each line as it comes, until one cannot be printed: a listing is never continued after a gap.
#[derive(Drop)]
pub(crate) struct Printer<'a> {
    rt: &'a HostRuntime,
    printed: io::Result<()>,
}

impl<'a> Printer<'a> {
    pub(crate) fn new(rt: &'a HostRuntime) -> Printer<'a>
        ensures { is_ok result.printed ≡ true }
    {
        Printer {
            rt,
            printed: Ok(()),
        }
    }

    // Whether every line was printed.
    pub(crate) fn finish(self) -> io::Result<()>
        ensures { result ≡ self.entry.printed }
    {
        self.printed
    }
}

impl Sink for Printer<'_> {
    ghost writes = { λ s l t. is_ok t.printed ≡ true → is_ok s.printed ≡ true };

    fn write_line(&mut self, line: &Line) {
        if self.printed.is_ok() {
            self.printed = print_line(self.rt, line);
        }
    }
}

// One write for a whole line, which `print!` would hand out in pieces.
fn print_line(rt: &HostRuntime, line: &Line) -> io::Result<()> {
    let bytes = line.to_string(rt.alloc())?;
    rt.write_all(bytes.as_bytes())
}
