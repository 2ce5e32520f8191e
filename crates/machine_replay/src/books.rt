//! What brought a machine where it is, as a reader's book has it. Each function is there for its contract alone.
ghost use Rattle.machine_replay.specs.BookRuns.{EventsHaveBooks, RunsHaveBooks};
ghost use Rattle.machine_replay.specs.Served.{ServedIsExact};

use std::alloc::Allocator;

/// At each point of a run of the machine, what was told leads from the empty open queue to a last state, whose items the machine holds. So it is also where the run cannot be ended, for want of memory.
pub fn runs_have_books<T, A: Allocator>()
    ensures { RunsHaveBooks T A }
{}

/// What any events make of a machine, where each request that no event refuses is granted, is such a run. So the outcomes that an explorer finds are those of legal histories.
pub fn events_have_books<T>()
    ensures { EventsHaveBooks T }
{}

/// A replay that reports want of memory only at steps that their events refuse is what its events make, and nothing else: the allocator refused nothing.
pub fn served_is_exact<T, A: Allocator>()
    ensures { ServedIsExact T A }
{}
