// Where lines and words begin and end.
use crate::trying::{Edge, expect};

pub(crate) fn lines() -> [Edge<'static>; 6] {
    [
        expect("an empty text", b"", ""),
        expect("only a line end", b"\n", "1 BAD 22 0\n"),
        expect("two line ends", b"\n\n", "1 BAD 22 0\n2 BAD 22 0\n"),
        expect("a line end last", b"HALT\n", "1 NO 1\n"),
        expect(
            "no final line end",
            b"OPEN LIT 400 8\nHALT",
            "1 OK 0 0 0 0 0\n2 OK 0 0 0 0 0\n",
        ),
        expect(
            "an empty line between two",
            b"OPEN LIT 400 8\n\nHALT\n",
            "1 OK 0 0 0 0 0\n2 BAD 22 0\n3 OK 0 0 0 0 0\n",
        ),
    ]
}

pub(crate) fn spaces() -> [Edge<'static>; 6] {
    [
        expect("only a space", b" \n", "1 BAD 22 0\n"),
        expect("a leading space", b" HALT\n", "1 BAD 22 0\n"),
        expect("a double space", b"ASK  4\n", "1 BAD 22 4\n"),
        expect("a trailing space", b"HALT \n", "1 BAD 22 5\n"),
        expect(
            "a trailing space after a number",
            b"ASK 4 \n",
            "1 BAD 22 6\n",
        ),
        expect("a trailing space for a word", b"ASK \n", "1 BAD 22 4\n"),
    ]
}

pub(crate) fn other_bytes() -> [Edge<'static>; 10] {
    [
        expect("only a carriage return", b"\r\n", "1 BAD 22 0\n"),
        expect(
            "a carriage return after a command",
            b"HALT\r\n",
            "1 BAD 22 0\n",
        ),
        expect(
            "a carriage return after a number",
            b"ASK 4\r\n",
            "1 BAD 22 4\n",
        ),
        expect("a tab for a space", b"ASK\t4\n", "1 BAD 22 0\n"),
        expect("a tab after a number", b"ASK 4\t\n", "1 BAD 22 4\n"),
        expect("a NUL after a command", b"HALT\0\n", "1 BAD 22 0\n"),
        expect("a NUL for a number", b"ASK \0\n", "1 BAD 22 4\n"),
        expect("a NUL after a number", b"ASK 4\0", "1 BAD 22 4\n"),
        expect(
            "a command with a byte over 127",
            b"H\xc4LT\n",
            "1 BAD 22 0\n",
        ),
        expect("the byte 255 for a number", b"ASK \xff\n", "1 BAD 22 4\n"),
    ]
}
