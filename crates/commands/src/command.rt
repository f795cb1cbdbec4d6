// What a line of a session asks for.
ghost use Rattle.std.specs.Prelude.{◌≡◌, Ok, length, nat_lt};
ghost use Rattle.reader.specs.Faults.{longest_line};

use crate::phrases::first_command;
use orders::call::Call;
use reader::fault::{LONGEST_LINE, TextFault};
use reader::words::Words;
use venue::venue::Venue;

#[derive(Clone, Copy)]
pub enum Command {
    Open {
        venue: Venue,
        last: u32,
        places: u32,
    },
    Make(Call),
    Ask {
        number: u32,
    },
}

fn is_too_long(line: &[u8]) -> bool
    ensures { result ≡ nat_lt longest_line (length line.now) }
{
    line.len() > LONGEST_LINE
}

impl Command {
    ghost use Rattle.commands.specs.Commands.{command_of};
    ghost use Rattle.commands.specs.Written.{Written};

    // The command that a line writes: it is taken just when it is a written form of the command. A `TryFrom` would have both
    // promises in one ghost member.
    #[tactic(auto, unfolding(crate::specs::Commands::command_of))]
    pub fn parse(line: &[u8]) -> Result<Command, TextFault>
        ensures value { result ≡ command_of line.now }
        ensures taken { (c : Command) → (result ≡ Ok c → Written c line.now) × (Written c line.now → result ≡ Ok c) }
    {
        if is_too_long(line) {
            return Err(TextFault::LongLine);
        }
        first_command(&mut Words::new(line))
    }
}
