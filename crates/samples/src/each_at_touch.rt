// A buyer of 10000 that asks 6000 of each order at the touch.
use crate::sample::Sample;

const MET: Sample = Sample {
    name: "A minimum of 6000 for each order at the touch, and an offer of 6000 there",
    text: "\
OPEN DARK 4040 8
QUOTE 4040 4052
ENTER SELL 1 500 4044 0 11
ENTER SELL 1 500 4048 0 12
ENTER SELL 1 6000 4052 0 13
ENTER BUY 6 10000 4052 6000 50
",
};

const NOT_MET: Sample = Sample {
    name: "The same minimum, and two offers of 5000 at the touch",
    text: "\
OPEN DARK 4040 8
QUOTE 4040 4052
ENTER SELL 1 500 4044 0 11
ENTER SELL 1 500 4048 0 12
ENTER SELL 1 5000 4052 0 13
ENTER SELL 1 5000 4052 0 14
ENTER BUY 6 10000 4052 6000 50
ASK 3
ASK 4
",
};

const SHRUNKEN: Sample = Sample {
    name: "The same minimum, shrunken to the 5500 that are left at the touch",
    text: "\
OPEN DARK 4040 8
QUOTE 4040 4052
ENTER SELL 1 2000 4044 0 11
ENTER SELL 1 2500 4048 0 12
ENTER SELL 1 6000 4052 0 13
ENTER SELL 1 6000 4052 0 14
ENTER BUY 6 10000 4052 6000 50
ASK 3
ASK 4
",
};

pub(crate) const SAMPLES: [Sample; 3] = [MET, NOT_MET, SHRUNKEN];
