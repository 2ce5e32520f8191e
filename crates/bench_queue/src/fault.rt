//! Why a load was not run to its end.
use std::alloc::AllocError;
use std::{fmt, io};

/// Why a load was not run to its end.
#[derive(Debug, Drop)]
pub enum Fault {
    /// The arguments name no load.
    NoLoad,
    /// Memory was wanted and refused, or there may be no more seats.
    NoMemory,
    /// A thread could not be started.
    NoThread,
    /// The clock could not be read, or the output could not be written.
    System(io::Error),
}

impl Fault {
    /// The status that the program ends with.
    pub fn status(&self) -> u8 {
        match self {
            Fault::NoLoad => 2,
            Fault::NoMemory | Fault::NoThread | Fault::System(_) => 3,
        }
    }
}

impl From<AllocError> for Fault {
    fn from(_error: AllocError) -> Fault {
        Fault::NoMemory
    }
}

impl From<io::Error> for Fault {
    fn from(error: io::Error) -> Fault {
        Fault::System(error)
    }
}

impl fmt::Display for Fault {
    fn fmt<W: fmt::Write>(&self, f: &mut fmt::Formatter<W>) -> fmt::Result {
        match self {
            Fault::NoLoad => f.write_str("the arguments name no load"),
            Fault::NoMemory => f.write_str("no memory"),
            Fault::NoThread => f.write_str("a thread cannot be started"),
            Fault::System(error) => write!(f, "{error}"),
        }
    }
}
