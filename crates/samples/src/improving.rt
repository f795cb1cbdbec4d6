// What the dark book asks of the price: a small order must improve on the quote, and one above 50 lots need not.
use crate::sample::Sample;

const INSIDE: Sample = Sample {
    name: "A small sale takes a bid that stands two cents inside the quote",
    text: "\
OPEN DARK 4040 8
QUOTE 4040 4060
ENTER BUY 1 100 4048 0 11
ENTER SELL 1 100 4060 0 12
ENTER SELL 3 100 0 0 50
",
};

const AT_THE_OFFER: Sample = Sample {
    name: "A small purchase gets nothing at the offer",
    text: "\
OPEN DARK 4040 8
QUOTE 4040 4060
ENTER BUY 1 100 4040 0 11
ENTER SELL 1 100 4060 0 12
ENTER BUY 3 100 0 0 50
ASK 2
",
};

const MIDDLE: Sample = Sample {
    name: "Under a quote of one cent a small sale takes a middle peg",
    text: "\
OPEN DARK 4040 8
QUOTE 4048 4052
ENTER BUY 4 100 0 0 11
ENTER SELL 3 100 0 0 50
",
};

const ABOVE_FIFTY_LOTS: Sample = Sample {
    name: "A sale of 51 lots takes the bid",
    text: "\
OPEN DARK 4040 8
QUOTE 4040 4060
ENTER BUY 1 100 4040 0 11
ENTER SELL 1 100 4060 0 12
ENTER SELL 3 5100 0 0 50
",
};

pub(crate) const SAMPLES: [Sample; 4] = [INSIDE, AT_THE_OFFER, MIDDLE, ABOVE_FIFTY_LOTS];
