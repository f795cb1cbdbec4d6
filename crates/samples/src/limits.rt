// Limits on the price grid and off it.
use crate::sample::Sample;

const LIT: Sample = Sample {
    name: "Limits 2 and 198 stand in a lit book, and 0, 199, 202 and 4000004 do not",
    text: "\
OPEN LIT 240 8
ENTER BUY 1 500 2 0 11
ENTER BUY 1 500 198 0 11
ENTER BUY 1 500 0 0 11
ENTER BUY 1 500 199 0 11
ENTER BUY 1 500 202 0 11
ENTER BUY 1 500 4000004 0 11
",
};

const DARK: Sample = Sample {
    name: "So it is in a dark book",
    text: "\
OPEN DARK 240 8
ENTER BUY 1 500 2 0 11
ENTER BUY 1 500 198 0 11
ENTER BUY 1 500 0 0 11
ENTER BUY 1 500 199 0 11
ENTER BUY 1 500 202 0 11
ENTER BUY 1 500 4000004 0 11
",
};

pub(crate) const SAMPLES: [Sample; 2] = [LIT, DARK];
