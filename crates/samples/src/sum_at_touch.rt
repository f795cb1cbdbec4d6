// A buyer of 10000 that asks 6000 in sum at the touch.
use crate::sample::Sample;

const MET: Sample = Sample {
    name: "A minimum of 6000 in sum at the touch, and two offers of 5000 there",
    text: "\
OPEN DARK 4040 8
QUOTE 4040 4052
ENTER SELL 1 500 4044 0 11
ENTER SELL 1 500 4048 0 12
ENTER SELL 1 5000 4052 0 13
ENTER SELL 1 5000 4052 0 14
ENTER BUY 7 10000 4052 6000 50
ASK 4
",
};

const NOT_MET: Sample = Sample {
    name: "The same minimum in sum, and 3000 and 2000 at the touch",
    text: "\
OPEN DARK 4040 8
QUOTE 4040 4052
ENTER SELL 1 500 4044 0 11
ENTER SELL 1 500 4048 0 12
ENTER SELL 1 3000 4052 0 13
ENTER SELL 1 2000 4052 0 14
ENTER BUY 7 10000 4052 6000 50
ASK 3
ASK 4
",
};

const SHRUNKEN: Sample = Sample {
    name: "The same minimum in sum, shrunken to the 5500 that are left and are offered at the touch",
    text: "\
OPEN DARK 4040 8
QUOTE 4040 4052
ENTER SELL 1 2000 4044 0 11
ENTER SELL 1 2500 4048 0 12
ENTER SELL 1 3000 4052 0 13
ENTER SELL 1 2500 4052 0 14
ENTER BUY 7 10000 4052 6000 50
",
};

pub(crate) const SAMPLES: [Sample; 3] = [MET, NOT_MET, SHRUNKEN];
