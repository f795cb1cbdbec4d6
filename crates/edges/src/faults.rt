// Words that are missing, that are too many, or that do not belong where they stand.
use crate::trying::{Edge, expect};

// The byte is the length of the line.
pub(crate) fn missing() -> [Edge<'static>; 10] {
    [
        expect("no book", b"OPEN\n", "1 BAD 22 4\n"),
        expect("no last sale", b"OPEN LIT\n", "1 BAD 22 8\n"),
        expect("no places", b"OPEN LIT 400\n", "1 BAD 22 12\n"),
        expect("no side", b"ENTER\n", "1 BAD 22 5\n"),
        expect("no kind", b"ENTER BUY\n", "1 BAD 22 9\n"),
        expect("no broker", b"ENTER BUY 1 100 240 0\n", "1 BAD 22 21\n"),
        expect("no limit in an amendment", b"AMEND 1 2\n", "1 BAD 22 9\n"),
        expect("no number in a cancel", b"CANCEL\n", "1 BAD 22 6\n"),
        expect("no offer", b"QUOTE 4000\n", "1 BAD 22 10\n"),
        expect(
            "no number in a question, no line end",
            b"ASK",
            "1 BAD 22 3\n",
        ),
    ]
}

pub(crate) fn extra() -> [Edge<'static>; 9] {
    [
        expect(
            "a word after an opening",
            b"OPEN LIT 400 8 9\n",
            "1 BAD 22 15\n",
        ),
        expect(
            "a word after an entry",
            b"ENTER BUY 1 100 240 0 7 0 0 0\n",
            "1 BAD 22 28\n",
        ),
        expect(
            "a word after an amendment",
            b"AMEND 1 2 3 4\n",
            "1 BAD 22 12\n",
        ),
        expect("a word after a cancel", b"CANCEL 3 4\n", "1 BAD 22 9\n"),
        expect("a word after a quote", b"QUOTE 4 8 12\n", "1 BAD 22 10\n"),
        expect("a word after a halt", b"HALT 1\n", "1 BAD 22 5\n"),
        expect("a word after a resumption", b"RESUME 1\n", "1 BAD 22 7\n"),
        expect("a word after a close", b"CLOSE NOW\n", "1 BAD 22 6\n"),
        expect("a word after a question", b"ASK 1 1\n", "1 BAD 22 6\n"),
    ]
}

// The mark and the hidden mark of an entry are left out both together.
pub(crate) fn marks() -> [Edge<'static>; 7] {
    [
        expect(
            "a mark without a hidden mark",
            b"ENTER BUY 1 100 240 0 7 0\n",
            "1 BAD 22 25\n",
        ),
        expect(
            "a malformed mark without a hidden mark",
            b"ENTER BUY 1 100 240 0 7 x\n",
            "1 BAD 22 24\n",
        ),
        expect(
            "a malformed mark and a hidden mark",
            b"ENTER BUY 1 100 240 0 7 01 0\n",
            "1 BAD 22 24\n",
        ),
        expect(
            "a malformed hidden mark",
            b"ENTER BUY 1 100 240 0 7 0 x\n",
            "1 BAD 22 26\n",
        ),
        expect(
            "a malformed hidden mark and a further word",
            b"ENTER BUY 1 100 240 0 7 0 x 0\n",
            "1 BAD 22 26\n",
        ),
        expect(
            "a trailing space for the mark",
            b"ENTER BUY 1 100 240 0 7 \n",
            "1 BAD 22 24\n",
        ),
        expect(
            "a malformed kind and missing words",
            b"ENTER BUY 01 100 240\n",
            "1 BAD 22 10\n",
        ),
    ]
}

pub(crate) fn capitals() -> [Edge<'static>; 8] {
    [
        expect("a command in small letters", b"halt\n", "1 BAD 22 0\n"),
        expect("a command with one capital", b"Halt\n", "1 BAD 22 0\n"),
        expect("a command cut short", b"HAL\n", "1 BAD 22 0\n"),
        expect("a command with a letter more", b"HALTS\n", "1 BAD 22 0\n"),
        expect(
            "a book in small letters",
            b"OPEN lit 400 8\n",
            "1 BAD 22 5\n",
        ),
        expect("no such book", b"OPEN GREY 400 8\n", "1 BAD 22 5\n"),
        expect(
            "a side in small letters",
            b"ENTER buy 1 100 240 0 7\n",
            "1 BAD 22 6\n",
        ),
        expect(
            "a side as a number",
            b"ENTER 1 1 100 240 0 7\n",
            "1 BAD 22 6\n",
        ),
    ]
}

pub(crate) fn openings() -> [Edge<'static>; 4] {
    [
        expect(
            "before any opening",
            b"HALT\nASK 1\nASK x\nENTER BUY 9 0 1 9 0\nQUOTE 4 4\nOPEN LIT 0 8\nCANCEL 1\n",
            "1 NO 1\n2 NO 1\n3 BAD 22 4\n4 NO 1\n5 NO 1\n6 NO 15\n7 NO 1\n",
        ),
        expect(
            "a fault leaves the book as it was",
            b"OPEN LIT 400 8\nENTER BUY 1 100 400 0 7\nENTER SELL 1 100 400 0 7 0\nASK 1\nENTER BUY 1 200 400 0 7\n",
            "1 OK 0 0 0 0 0\n2 OK 1 0 100 0 0\n3 BAD 22 26\n4 OK 1 0 100 0 0\n5 OK 2 0 200 0 0\n",
        ),
        expect(
            "a refused opening leaves the book as it was",
            b"OPEN LIT 400 8\nENTER BUY 1 100 400 0 7\nOPEN DARK 400 0\nASK 1\nENTER SELL 3 100 0 0 7\n",
            "1 OK 0 0 0 0 0\n2 OK 1 0 100 0 0\n3 NO 15\n4 OK 1 0 100 0 0\n5 OK 2 100 0 0 1\n5 FILL 1 2 400 100 SELL\n",
        ),
        expect(
            "an accepted opening ends a closed book",
            b"OPEN LIT 400 8\nENTER BUY 1 100 400 0 7\nCLOSE\nHALT\nOPEN LIT 400 8\nASK 1\nENTER BUY 1 200 400 0 7\n",
            "1 OK 0 0 0 0 0\n2 OK 1 0 100 0 0\n3 OK 0 0 0 0 0\n4 NO 1\n5 OK 0 0 0 0 0\n6 NO 5\n7 OK 1 0 200 0 0\n",
        ),
    ]
}
