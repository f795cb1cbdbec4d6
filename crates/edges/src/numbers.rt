// What is a number, and the largest number in each place where one stands.
use crate::trying::{Edge, expect};

// Nothing is open: a number that is well formed meets 1.
pub(crate) fn forms() -> [Edge<'static>; 11] {
    [
        expect("the number 0", b"ASK 0\n", "1 NO 1\n"),
        expect("the number 4294967295", b"ASK 4294967295\n", "1 NO 1\n"),
        expect("4294967296", b"ASK 4294967296\n", "1 BAD 22 4\n"),
        // 1 and 0 if only the low bits were kept
        expect("4294967297", b"ASK 4294967297\n", "1 BAD 22 4\n"),
        expect(
            "18446744073709551616",
            b"ASK 18446744073709551616\n",
            "1 BAD 22 4\n",
        ),
        expect("00", b"ASK 00\n", "1 BAD 22 4\n"),
        expect("01", b"ASK 01\n", "1 BAD 22 4\n"),
        expect("-1", b"ASK -1\n", "1 BAD 22 4\n"),
        expect("+1", b"ASK +1\n", "1 BAD 22 4\n"),
        expect("1,000", b"ASK 1,000\n", "1 BAD 22 4\n"),
        expect("0x1", b"ASK 0x1\n", "1 BAD 22 4\n"),
    ]
}

// Well formed, however large: the call meets the refusal that fits.
pub(crate) fn ranges() -> [Edge<'static>; 6] {
    [
        expect(
            "the largest number in an opening",
            b"OPEN LIT 4294967295 8\nOPEN LIT 400 4294967295\nHALT\n",
            "1 NO 15\n2 NO 15\n3 NO 1\n",
        ),
        expect(
            "the ranges of an opening",
            b"OPEN LIT 0 1\nOPEN LIT 1 0\nOPEN LIT 1 1\nOPEN DARK 4000000 1024\nOPEN DARK 4000001 1024\nOPEN DARK 4000000 1025\n",
            "1 NO 15\n2 NO 15\n3 OK 0 0 0 0 0\n4 OK 0 0 0 0 0\n5 NO 15\n6 NO 15\n",
        ),
        expect(
            "the largest number as kind, shares, limit and minimum",
            b"OPEN LIT 400 8\nENTER BUY 4294967295 0 1 1 0\nENTER BUY 1 4294967295 1 1 7\nENTER BUY 1 100 4294967295 1 7\nENTER BUY 1 100 400 4294967295 7\n",
            "1 OK 0 0 0 0 0\n2 NO 6\n3 NO 8\n4 NO 9\n5 NO 10\n",
        ),
        expect(
            "the largest number as broker, mark and hidden mark",
            b"OPEN LIT 400 8\nENTER BUY 1 100 400 0 4294967295\nENTER BUY 1 100 400 0 7 4294967295 0\nENTER BUY 1 100 400 0 7 0 4294967295\n",
            "1 OK 0 0 0 0 0\n2 NO 7\n3 NO 7\n4 NO 7\n",
        ),
        expect(
            "the largest number in an amendment",
            b"OPEN LIT 400 8\nENTER BUY 1 100 400 0 7\nAMEND 4294967295 0 0\nAMEND 1 4294967295 0\nAMEND 1 100 4294967295\n",
            "1 OK 0 0 0 0 0\n2 OK 1 0 100 0 0\n3 NO 5\n4 NO 8\n5 NO 9\n",
        ),
        expect(
            "the largest number in a cancel, a quote and a question",
            b"OPEN LIT 400 8\nCANCEL 4294967295\nQUOTE 400 4294967295\nASK 4294967295\n",
            "1 OK 0 0 0 0 0\n2 NO 5\n3 NO 13\n4 NO 5\n",
        ),
    ]
}
