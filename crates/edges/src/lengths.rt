// The longest line that is read, and the longest text that is played.
use crate::trying::expect;
use std::alloc::AllocError;
use std::fmt::Write;

// A text of so many bytes: how it begins, the same byte over and over, and how it ends.
#[derive(Clone, Copy)]
struct Padded {
    name: &'static str,
    first: &'static [u8],
    byte: u8,
    last: &'static [u8],
    length: usize,
    expected: &'static str,
}

impl Padded {
    fn text(&self, rt: &HostRuntime) -> Result<Vec<u8>, AllocError> {
        let mut text = Vec::from_slice(rt.alloc(), self.first)?;
        text.resize(self.length.saturating_sub(self.last.len()), self.byte)?;
        text.extend_from_slice(self.last)?;
        Ok(text)
    }

    fn play(&self, rt: &HostRuntime) -> anyhow::Result<()> {
        let text = self.text(rt)?;
        expect(self.name, &text, self.expected).play(rt)
    }
}

// The line end is not counted. No command takes 120 bytes, so a line that is read meets 22.
const LINES: [Padded; 6] = [
    Padded {
        name: "120 bytes",
        first: b"ASK ",
        byte: b'1',
        last: b"\n",
        length: 121,
        expected: "1 BAD 22 4\n",
    },
    Padded {
        name: "121 bytes",
        first: b"ASK ",
        byte: b'1',
        last: b"\n",
        length: 122,
        expected: "1 BAD 21 120\n",
    },
    Padded {
        name: "120 bytes, no line end",
        first: b"HALT",
        byte: b' ',
        last: b"",
        length: 120,
        expected: "1 BAD 22 5\n",
    },
    Padded {
        name: "121 bytes, no line end",
        first: b"HALT",
        byte: b' ',
        last: b"",
        length: 121,
        expected: "1 BAD 21 120\n",
    },
    Padded {
        name: "121 bytes with the carriage return",
        first: b"HALT",
        byte: b' ',
        last: b"\r\n",
        length: 122,
        expected: "1 BAD 21 120\n",
    },
    Padded {
        name: "a line after a long one",
        first: b"OPEN LIT 400 8\n",
        byte: b'x',
        last: b"\nHALT\n",
        length: 200,
        expected: "1 OK 0 0 0 0 0\n2 BAD 21 120\n3 OK 0 0 0 0 0\n",
    },
];

// Of a text that is too long nothing is played, not even the opening.
const TEXTS: [Padded; 3] = [
    Padded {
        name: "a text of 65536 bytes",
        first: b"OPEN LIT 400 8\n",
        byte: b'x',
        last: b"\nHALT",
        length: 65_536,
        expected: "1 OK 0 0 0 0 0\n2 BAD 21 120\n3 OK 0 0 0 0 0\n",
    },
    Padded {
        name: "a text of 65537 bytes",
        first: b"OPEN LIT 400 8\n",
        byte: b'x',
        last: b"\nHALT",
        length: 65_537,
        expected: "0 BAD 21 65536\n",
    },
    Padded {
        name: "65537 bytes with the last line end",
        first: b"OPEN LIT 400 8\n",
        byte: b'x',
        last: b"\nHALT\n",
        length: 65_537,
        expected: "0 BAD 21 65536\n",
    },
];

// The most lines that a text can have: 65,536 line ends.
fn play_line_ends(rt: &HostRuntime) -> anyhow::Result<()> {
    let text = vec![in rt.alloc(); b'\n'; 65_536]?;
    let mut expected = String::new(rt.alloc());
    for line in 1..=65_536_u32 {
        writeln!(expected, "{line} BAD 22 0")?;
    }
    expect("65536 line ends", &text, &expected).play(rt)
}

pub(crate) fn play_lines(rt: &HostRuntime) -> anyhow::Result<()> {
    for line in &LINES {
        line.play(rt)?;
    }
    Ok(())
}

pub(crate) fn play_texts(rt: &HostRuntime) -> anyhow::Result<()> {
    for text in &TEXTS {
        text.play(rt)?;
    }
    play_line_ends(rt)
}
