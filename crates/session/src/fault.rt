// Why a line of a session was not done.
ghost use Rattle.std.specs.Prelude.{◌≡◌};
ghost use Rattle.session.specs.declared.fault.SessionFault.TheVariants.{Text, Refused};

use orders::refusal::Refusal;
use reader::fault::TextFault;

// The reader's fault, whole, and the number of its line.
#[derive(Clone, Copy)]
pub struct LineFault {
    pub line: usize,
    pub fault: TextFault,
}

#[derive(Clone, Copy)]
pub enum SessionFault {
    Text(LineFault),
    Refused(Refusal),
}

impl From<LineFault> for SessionFault {
    ghost from_gives = { λ f r. r ≡ Text f };

    fn from(fault: LineFault) -> SessionFault {
        SessionFault::Text(fault)
    }
}

impl From<Refusal> for SessionFault {
    ghost from_gives = { λ x r. r ≡ Refused x };

    fn from(refusal: Refusal) -> SessionFault {
        SessionFault::Refused(refusal)
    }
}
