ghost use Rattle.std.specs.Prelude.{◌≡◌};
ghost use Rattle.sf_script.specs.declared.check.stop.Stop.TheVariants.{Memory, Refused};

use crate::fault::LineFault;
use sf_field::OutOfMemory;

/// Why the check of a line ends early.
#[derive(Debug, Drop)]
pub enum Stop {
    Memory,
    Refused(LineFault),
}

impl From<OutOfMemory> for Stop {
    ghost from_gives = { λ _ e. e ≡ Memory };

    fn from(_error: OutOfMemory) -> Stop {
        Stop::Memory
    }
}

impl From<LineFault> for Stop {
    ghost from_gives = { λ fault e. e ≡ Refused fault };

    fn from(fault: LineFault) -> Stop {
        Stop::Refused(fault)
    }
}
