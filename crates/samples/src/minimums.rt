// The minimum acceptable quantity of a resting buyer.
use crate::sample::Sample;

const MINIMUM: Sample = Sample {
    name: "A buyer with a minimum of 1000 passes over a sale of 900",
    text: "\
OPEN DARK 4040 8
QUOTE 4040 4060
ENTER BUY 1 10000 4048 1000 11
ENTER SELL 1 2000 4040 0 12
ASK 1
ENTER SELL 1 900 4044 0 13
ENTER SELL 1 10000 4044 0 50
ASK 1
ASK 3
ASK 4
",
};

pub(crate) const SAMPLES: [Sample; 1] = [MINIMUM];
