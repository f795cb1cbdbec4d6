// Orders that seek price improvement.
use crate::sample::Sample;

const WIDE: Sample = Sample {
    name: "A seller that seeks improvement takes the bids inside the quote and leaves the one at its bid",
    text: "\
OPEN DARK 4000 8
QUOTE 4000 4020
ENTER BUY 1 100 4008 0 11
ENTER BUY 1 500 4004 0 12
ENTER BUY 1 500 4000 0 13
ENTER SELL 8 1000 4000 0 50
ASK 3
",
};

const NARROW: Sample = Sample {
    name: "Under a quote of one cent a buyer that seeks improvement takes the middle alone",
    text: "\
OPEN DARK 4000 8
QUOTE 4000 4004
ENTER SELL 4 100 0 0 11
ENTER SELL 1 500 4004 0 12
ENTER BUY 8 1000 4004 0 50
ASK 2
",
};

pub(crate) const SAMPLES: [Sample; 2] = [WIDE, NARROW];
