// The minimum price improvement peg, whose price shows in what a probing sale gets. A probe one step above it gets nothing.
use crate::sample::Sample;

const PROBED: Sample = Sample {
    name: "A price improvement peg of 300 under three quotes, a lot sold to it under each",
    text: "\
OPEN DARK 4040 8
QUOTE 4040 4060
ENTER BUY 5 300 0 0 11
ENTER SELL 2 100 4048 0 50
ENTER SELL 2 100 4044 0 50
QUOTE 4048 4060
ENTER SELL 2 100 4056 0 50
ENTER SELL 2 100 4052 0 50
QUOTE 4056 4060
ENTER SELL 2 100 4060 0 50
ENTER SELL 2 100 4056 0 50
",
};

const FOLLOWING: Sample = Sample {
    name: "A price improvement peg of 100 that follows the quote twice and then fills",
    text: "\
OPEN DARK 4040 8
QUOTE 4040 4060
ENTER BUY 5 100 0 0 11
ENTER SELL 2 100 4048 0 50
QUOTE 4048 4060
ENTER SELL 2 100 4056 0 50
QUOTE 4056 4060
ENTER SELL 2 100 4060 0 50
ENTER SELL 2 100 4056 0 50
",
};

pub(crate) const SAMPLES: [Sample; 2] = [PROBED, FOLLOWING];
