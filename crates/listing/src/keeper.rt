// A sink that keeps the bytes.
ghost use Rattle.std.specs.Prelude.{◌≡◌, [], Ok, Err, is_err, string_bytes, MatchResult};
ghost use Rattle.listing.specs.Sinks.{Appends};

use crate::line::Line;
use crate::sink::Sink;
use std::alloc::{AllocError, Global};
use std::fmt::Write;

#[derive(Drop)]
pub struct Keeper {
    pub(crate) bytes: String,
    // an error once memory ended; nothing is kept from then on
    pub(crate) outcome: Result<(), AllocError>,
}

impl Keeper {
    pub fn new(heap: Global) -> Keeper
        ensures { (string_bytes result.bytes ≡ []) × (result.outcome ≡ Ok tt) }
    {
        Keeper {
            bytes: String::new(heap),
            outcome: Ok(()),
        }
    }

    // All that was kept, unless memory ended: what stood before a gap is no listing.
    pub fn into_listing(self) -> Result<String, AllocError>
        ensures { MatchResult result (λ x. (x ≡ self.bytes) × (self.outcome ≡ Ok tt)) (λ e. self.outcome ≡ Err e) }
    {
        let Keeper { bytes, outcome } = self;
        outcome?;
        Ok(bytes)
    }
}

impl Sink for Keeper {
    ghost writes = { λ s l t. Appends (is_err s.outcome) (string_bytes s.bytes) l (is_err t.outcome) (string_bytes t.bytes) };

    fn write_line(&mut self, line: &Line) {
        if self.outcome.is_ok() {
            self.outcome = write!(self.bytes, "{line}");
        }
    }
}
