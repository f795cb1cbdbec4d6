// A recorder that keeps every step.
ghost use Rattle.std.specs.Prelude.{◌≡◌, [], ◌∷◌, ◌++◌, Ok, Err, is_err, OnOk, MatchResult};
ghost use Rattle.day.specs.Keeps.{kept_in, Keeps};
ghost use Rattle.day.specs.Steps.{step_told};

use crate::item::Item;
use crate::recorder::{Recorder, Told};
use orders::call::{Fill, Reply};
use orders::row::Row;
use std::alloc::{AllocError, Global};

// One call, its reply, its fills in turn, and all the places after it.
#[derive(Drop)]
pub struct KeptStep {
    pub item: Item,
    pub reply: Reply,
    pub fills: Vec<Fill>,
    pub places: Vec<Row>,
}

#[derive(Drop)]
pub struct Keeper {
    pub(crate) steps: Vec<KeptStep>,
    // an error once memory ended; nothing is kept from then on, and the steps kept before can still be read
    pub(crate) outcome: Result<(), AllocError>,
}

impl Keeper {
    pub fn new(heap: Global) -> Keeper
        ensures { (kept_in result ≡ []) × (result.outcome ≡ Ok tt) }
    {
        Keeper {
            steps: Vec::new(heap),
            outcome: Ok(()),
        }
    }

    // Whether memory ended, so that steps are missing.
    pub fn is_full(&self) -> bool
        ensures { result ≡ is_err self.now.outcome }
    {
        self.outcome.is_err()
    }

    // The steps that were kept.
    pub fn steps(&self) -> &[KeptStep]
        ensures { result.now ≡ self.now.steps.items }
    {
        &self.steps
    }

    // All the steps, unless memory ended.
    pub fn into_steps(self) -> Result<Vec<KeptStep>, AllocError>
        ensures { MatchResult result (λ x. (x ≡ self.steps) × (self.outcome ≡ Ok tt)) (λ e. self.outcome ≡ Err e) }
    {
        let Keeper { steps, outcome } = self;
        outcome?;
        Ok(steps)
    }

    fn keep(&mut self, told: Told<'_>) -> Result<(), AllocError>
        ensures { OnOk result (kept_in self.new ≡ kept_in self.old ++ step_told told.entry ∷ []) }
    {
        let heap = *self.steps.allocator();
        let step = KeptStep {
            item: *told.item,
            reply: *told.reply,
            fills: Vec::from_slice(heap, told.fills)?,
            places: Vec::from_slice(heap, told.places)?,
        };
        self.steps.push(step)?;
        Ok(())
    }
}

impl Recorder for Keeper {
    ghost notes = { Keeps };

    fn note(&mut self, told: Told<'_>) {
        if self.outcome.is_ok() {
            self.outcome = self.keep(told);
        }
    }
}
