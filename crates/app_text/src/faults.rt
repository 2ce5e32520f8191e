//! Why a run ended before its work was done.
ghost use Rattle.std.specs.Prelude.{◌≡◌, Some};
ghost use Rattle.app_text.specs.declared.faults.Fault.TheVariants.{NoMemory};
ghost use Rattle.app_text.specs.Faults.{fault_text, fault_status};

use std::alloc::{AllocError, AllocFailed};
use std::fmt;

/// Why a run ended before its work was done.
#[derive(Clone, Copy)]
pub enum Fault {
    /// The arguments ask for no mode.
    Usage,
    /// The line of this number, counted from 1, is the first that cannot be read.
    Unreadable(usize),
    /// Memory was wanted and refused.
    NoMemory,
    /// The input could not be read to its end.
    InputFailed,
    /// The output could not be written to its end.
    OutputFailed,
}

impl Fault {
    /// The status that the program ends with.
    pub fn status(self) -> u8
        ensures { result ≡ fault_status self }
    {
        match self {
            Fault::Usage | Fault::Unreadable(_) => 2,
            Fault::NoMemory | Fault::InputFailed | Fault::OutputFailed => 3,
        }
    }
}

impl From<AllocError> for Fault {
    ghost from_gives = { λ _ fault. fault ≡ NoMemory };

    fn from(_error: AllocError) -> Fault {
        Fault::NoMemory
    }
}

impl<X: Drop> From<AllocFailed<X>> for Fault {
    ghost from_gives = { λ _ fault. fault ≡ NoMemory };

    fn from(_failed: AllocFailed<X>) -> Fault {
        Fault::NoMemory
    }
}

impl fmt::Display for Fault {
    ghost output = { λ fault. Some (fault_text fault) };

    fn fmt<W: fmt::Write>(&self, f: &mut fmt::Formatter<W>) -> fmt::Result {
        match self {
            Fault::Usage => f.write_str(
                "usage: queue_run script KIND | replay KIND PARTIES | threads KIND PUSHERS POPPERS ITEMS | handshake | channel KIND SENDERS RECEIVERS ITEMS",
            ),
            Fault::Unreadable(number) => write!(f, "line {number}: unreadable"),
            Fault::NoMemory => f.write_str("no memory"),
            Fault::InputFailed => f.write_str("input failed"),
            Fault::OutputFailed => f.write_str("output failed"),
        }
    }
}
