//! Why the lines of a program cannot be read.
ghost use Rattle.std.specs.Prelude.{◌≡◌, Some};
ghost use Rattle.app_explore.specs.declared.read_faults.ReadFault.TheVariants as read;
ghost use Rattle.app_explore.specs.Faults.{line_fault_text};

use std::alloc::{AllocError, AllocFailed};
use std::fmt;

/// Why a line is none that a program may go on with.
#[derive(Clone, Copy, PartialEq)]
pub enum LineFault {
    /// It is not that of the party which comes next.
    Party,
    /// There are as many parties as there may be.
    TooManyParties,
    /// There are more calls than so many.
    TooManyCalls(usize),
    /// Something else is where a call should be.
    Call,
}

impl fmt::Display for LineFault {
    ghost output = { λ why. Some (line_fault_text why) };

    fn fmt<W: fmt::Write>(&self, f: &mut fmt::Formatter<W>) -> fmt::Result {
        match self {
            LineFault::Party => f.write_str("party: a line each, from 0 on, in order"),
            LineFault::TooManyParties => f.write_str("parties: 1 to 8"),
            LineFault::TooManyCalls(most) => write!(f, "calls: 1 to {most}"),
            LineFault::Call => f.write_str(
                "call: one space, then push N, force N, pop, close, is_closed, is_empty, is_full, len or capacity",
            ),
        }
    }
}

/// Why no program was read.
#[derive(Clone, Copy, PartialEq)]
pub enum ReadFault {
    /// The line of this number, counted from 1, is the first that is wrong, or the one that is missing.
    Unreadable(usize, LineFault),
    /// Memory was wanted and refused.
    NoMemory,
}

impl From<AllocError> for ReadFault {
    ghost from_gives = { λ _ why. why ≡ read.NoMemory };

    fn from(_error: AllocError) -> ReadFault {
        ReadFault::NoMemory
    }
}

impl<X: Drop> From<AllocFailed<X>> for ReadFault {
    ghost from_gives = { λ _ why. why ≡ read.NoMemory };

    fn from(_failed: AllocFailed<X>) -> ReadFault {
        ReadFault::NoMemory
    }
}
