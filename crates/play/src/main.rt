// The practice market: a session text from standard input, its listing to standard output.
#![tactic(auto)]

mod printing;

use printing::Printer;
use reader::fault::LONGEST_TEXT;
use session::text::play_text;
use std::io;
use std::io::Read;

// No more is read than shows that a text is too long.
const READ: u64 = LONGEST_TEXT as u64 + 1;

fn run(rt: &HostRuntime) -> io::Result<()> {
    let mut text = Vec::new(rt.alloc());
    rt.stdin().take(READ).read_to_end(&mut text)?;
    let mut printer = Printer::new(rt);
    play_text(&text, &mut printer);
    printer.finish()
}

fn main(rt: HostRuntime) -> io::Result<()> {
    run(&rt)
}
