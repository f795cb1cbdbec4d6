// The phases of a book.
ghost use Rattle.std.specs.Prelude.{◌≡◌};
ghost use Rattle.places.specs.Phases.{is_open, is_halted, is_closed, phase_after};
ghost use Rattle.places.specs.Shifts.{shift_cause};

use orders::refusal::Refusal;

#[derive(Clone, Copy, PartialEq, Eq, Debug)]
pub enum Phase {
    Open,
    // calls are taken, and nothing trades
    Halted,
    // only the question is answered
    Closed,
}

// What changes the phase.
#[derive(Clone, Copy, PartialEq, Eq, Debug)]
pub enum Event {
    Halt,
    Resume,
    Close,
}

impl Phase {
    // Lets an event change the phase, if it fits.
    pub fn shift(&mut self, event: Event) -> Result<(), Refusal>
        ensures value { result ≡ shift_cause self.old event }
        ensures phase { self.new ≡ phase_after self.old event }
    {
        match (self, event) {
            (phase @ Phase::Open, Event::Halt) => *phase = Phase::Halted,
            (phase @ Phase::Halted, Event::Resume) => *phase = Phase::Open,
            (phase @ (Phase::Open | Phase::Halted), Event::Close) => *phase = Phase::Closed,
            (Phase::Open, Event::Resume) | (Phase::Halted, Event::Halt) => return Err(
                Refusal::WrongPhase,
            ),
            (Phase::Closed, _) => return Err(Refusal::Closed),
        }
        Ok(())
    }

    // The three tests have the names that the definitions have; a comparison at each use would read no better.
    pub fn is_open(self) -> bool
        ensures { result ≡ is_open self }
    {
        self == Phase::Open
    }

    pub fn is_halted(self) -> bool
        ensures { result ≡ is_halted self }
    {
        self == Phase::Halted
    }

    pub fn is_closed(self) -> bool
        ensures { result ≡ is_closed self }
    {
        self == Phase::Closed
    }
}
