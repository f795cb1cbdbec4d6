// Who is told of every call of a day.
ghost use Rattle.day.specs.Steps.{Step, step_told};

use crate::item::Item;
use orders::call::{Fill, Reply};
use orders::row::Row;

// One call, its reply, its fills in turn, and all the lent places after it.
#[derive(Clone, Copy)]
pub struct Told<'a> {
    pub item: &'a Item,
    pub reply: &'a Reply,
    pub fills: &'a [Fill],
    pub places: &'a [Row],
}

pub trait Recorder {
    // What noting a step does to the recorder.
    ghost notes: { Self → Step → Self → Type 0 };

    // Takes a step. It cannot fail: a recorder remembers what went wrong.
    fn note(&mut self, told: Told<'_>)
        ensures { notes self.old (step_told told.entry) self.new };
}
