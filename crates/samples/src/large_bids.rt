// The large-size priority: bids at 60 cents in a lit book.
use crate::sample::Sample;

const SMALL: Sample = Sample {
    name: "Small bids go by time",
    text: "\
OPEN LIT 240 8
QUOTE 240 248
ENTER BUY 1 1000 240 0 9
ENTER BUY 1 500 240 0 7
ENTER BUY 1 1000 240 0 79
ENTER SELL 1 1000 240 0 50
",
};

const LARGE: Sample = Sample {
    name: "A bid of 35000 goes before an older small one",
    text: "\
OPEN LIT 240 8
QUOTE 240 248
ENTER BUY 1 1000 240 0 9
ENTER BUY 1 35000 240 0 7
ENTER BUY 1 1000 240 0 79
ENTER SELL 1 1000 240 0 50
",
};

const DEARER: Sample = Sample {
    name: "From a last sale of 400 up it does not",
    text: "\
OPEN LIT 400 8
QUOTE 240 248
ENTER BUY 1 1000 240 0 9
ENTER BUY 1 35000 240 0 7
ENTER BUY 1 1000 240 0 79
ENTER SELL 1 1000 240 0 50
",
};

const OLDER: Sample = Sample {
    name: "Of two large bids the larger goes first: the older one",
    text: "\
OPEN LIT 240 8
QUOTE 240 248
ENTER BUY 1 1000 240 0 9
ENTER BUY 1 35000 240 0 7
ENTER BUY 1 30000 240 0 79
ENTER SELL 1 1000 240 0 50
",
};

const YOUNGER: Sample = Sample {
    name: "Of two large bids the larger goes first: the younger one",
    text: "\
OPEN LIT 240 8
QUOTE 240 248
ENTER BUY 1 1000 240 0 9
ENTER BUY 1 35000 240 0 7
ENTER BUY 1 50000 240 0 79
ENTER SELL 1 1000 240 0 50
",
};

const FALLEN: Sample = Sample {
    name: "A large bid that falls below 30000 goes by its time again",
    text: "\
OPEN LIT 240 8
QUOTE 240 248
ENTER BUY 1 1000 240 0 9
ENTER BUY 1 30000 240 0 7
ENTER BUY 1 1000 240 0 79
ENTER SELL 1 5000 240 0 50
ASK 2
ENTER SELL 1 1000 240 0 50
",
};

const RAISED_BEFORE: Sample = Sample {
    name: "A bid that fell to 25000 and is raised to 55000 goes first again",
    text: "\
OPEN LIT 240 8
QUOTE 240 248
ENTER BUY 1 1000 240 0 9
ENTER BUY 1 60000 240 0 7
ENTER BUY 1 50000 240 0 79
ENTER BUY 1 35000 240 0 2
ENTER SELL 1 35000 240 0 50
ASK 2
AMEND 2 55000 240
ENTER SELL 1 1000 240 0 50
",
};

const RAISED_BEHIND: Sample = Sample {
    name: "Raised to 30000 it goes behind the larger ones",
    text: "\
OPEN LIT 240 8
QUOTE 240 248
ENTER BUY 1 1000 240 0 9
ENTER BUY 1 60000 240 0 7
ENTER BUY 1 50000 240 0 79
ENTER BUY 1 35000 240 0 2
ENTER SELL 1 35000 240 0 50
ASK 2
AMEND 2 30000 240
ENTER SELL 1 1000 240 0 50
ENTER SELL 1 84000 240 0 50
ASK 2
",
};

pub(crate) const SAMPLES: [Sample; 8] = [
    SMALL,
    LARGE,
    DEARER,
    OLDER,
    YOUNGER,
    FALLEN,
    RAISED_BEFORE,
    RAISED_BEHIND,
];
