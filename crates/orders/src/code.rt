// Numbers that stand for cases: of sides, kinds and marks.

// A number that stands for no case.
#[derive(Clone, Copy, PartialEq, Eq, Debug)]
pub struct UnknownCode(pub u32);
