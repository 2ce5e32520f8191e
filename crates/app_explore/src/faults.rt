//! Why the explorer ended before its work was done.
ghost use Rattle.std.specs.Prelude.{◌≡◌, Some};
ghost use Rattle.app_explore.specs.declared.faults.Stop.TheVariants as stop;
ghost use Rattle.app_explore.specs.Stops.{read_stop, search_stop, stop_text, stop_status};

use crate::read_faults::{LineFault, ReadFault};
use crate::usage::UsageFault;
use app_text::faults::Fault;
use machine_explore::search::faults::SearchFault;
use std::fmt;

/// Why the explorer ended before its work was done.
#[derive(Clone, Copy)]
pub enum Stop {
    /// The arguments ask for nothing that exists.
    Usage(UsageFault),
    /// As any program of queues may end.
    Fault(Fault),
    /// The line of this number, counted from 1, is the first that is wrong, or the one that is missing.
    Line(usize, LineFault),
    /// The program has more states than may be looked at.
    TooManyStates,
    /// The program has no outcome of this number.
    NoOutcome(u64),
    /// The program has no wait of this number.
    NoWait(u64),
    /// What was found could not be shown to be right.
    NotShown,
}

impl Stop {
    /// The status that the explorer ends with.
    pub fn status(self) -> u8
        ensures { result ≡ stop_status self }
    {
        match self {
            Stop::Fault(fault) => fault.status(),
            Stop::Usage(_) | Stop::Line(_, _) | Stop::NoOutcome(_) | Stop::NoWait(_) => 2,
            Stop::TooManyStates | Stop::NotShown => 3,
        }
    }
}

impl From<UsageFault> for Stop {
    ghost from_gives = { λ why s. s ≡ stop.Usage why };

    fn from(why: UsageFault) -> Stop {
        Stop::Usage(why)
    }
}

impl From<Fault> for Stop {
    ghost from_gives = { λ fault s. s ≡ stop.Fault fault };

    fn from(fault: Fault) -> Stop {
        Stop::Fault(fault)
    }
}

impl From<ReadFault> for Stop {
    ghost from_gives = { λ why s. s ≡ read_stop why };

    fn from(why: ReadFault) -> Stop {
        match why {
            ReadFault::Unreadable(number, why) => Stop::Line(number, why),
            ReadFault::NoMemory => Stop::Fault(Fault::NoMemory),
        }
    }
}

impl From<SearchFault> for Stop {
    ghost from_gives = { λ fault s. s ≡ search_stop fault };

    fn from(fault: SearchFault) -> Stop {
        match fault {
            SearchFault::NoMemory => Stop::Fault(Fault::NoMemory),
            SearchFault::TooManyStates => Stop::TooManyStates,
            SearchFault::EndlessCall | SearchFault::NotShown => Stop::NotShown,
        }
    }
}

impl fmt::Display for Stop {
    ghost output = { λ stop. Some (stop_text stop) };

    fn fmt<W: fmt::Write>(&self, f: &mut fmt::Formatter<W>) -> fmt::Result {
        match self {
            Stop::Usage(why) => write!(
                f,
                "usage: queue_explore KIND [refuse] [schedule N | lanes N | waits [N]]\nreads: [before: CALLS] 0: CALLS 1: CALLS .., a line each; CALLS is CALL; CALL ..; CALL is push N, force N, pop, close, is_closed, is_empty, is_full, len or capacity\n{why}"
            ),
            Stop::Fault(fault) => write!(f, "{fault}"),
            Stop::Line(number, why) => write!(f, "{}\n{why}", Fault::Unreadable(*number)),
            Stop::TooManyStates => f.write_str("too many states"),
            Stop::NoOutcome(number) => write!(f, "no outcome {number}"),
            Stop::NoWait(number) => write!(f, "no wait {number}"),
            Stop::NotShown => f.write_str("not shown"),
        }
    }
}
