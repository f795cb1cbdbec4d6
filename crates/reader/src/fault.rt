// What keeps a text from being read.
ghost use Rattle.std.specs.Prelude.{◌≡◌};
ghost use Rattle.reader.specs.Faults.{fault_number, fault_byte};

// The most bytes of a text.
pub const LONGEST_TEXT: usize = 65_536;

// The most bytes of a line, its end apart.
pub const LONGEST_LINE: usize = 120;

#[derive(Clone, Copy, PartialEq, Eq, Debug)]
pub enum TextFault {
    // the text has more than 65,536 bytes
    LongText,
    // the line has more than 120 bytes, its end apart
    LongLine,
    // a word that is not allowed at this byte of its line, or is missing there
    Word(usize),
}

// A listing has two numbers of a fault, so neither is its conversion.
impl TextFault {
    // The number that a listing names.
    pub fn number(self) -> u32
        ensures { result ≡ fault_number self }
    {
        match self {
            TextFault::LongText | TextFault::LongLine => 21,
            TextFault::Word(_) => 22,
        }
    }

    // The byte that a listing names, counted from 0.
    pub fn byte(self) -> usize
        ensures { result ≡ fault_byte self }
    {
        match self {
            TextFault::LongText => LONGEST_TEXT,
            TextFault::LongLine => LONGEST_LINE,
            TextFault::Word(at) => at,
        }
    }
}
