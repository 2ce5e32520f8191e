//! A schedule is run once more, and shows the outcome that it leads to.
ghost use Rattle.std.specs.Prelude.{⊤, IfOk, MatchOption};
ghost use Rattle.machine_replay.specs.Replays.{CanReplay};
ghost use Rattle.machine_explore.specs.Certified.{IsOutcomeOf};

use crate::outcome::Outcome;
use crate::program::Program;
use crate::schedule::Move;
use crate::trace::follow;
use queue_steps::steps::Kind;
use std::alloc::{AllocError, Allocator};

/// What the program ends with by these moves, if they are a whole run of it.
///
/// # Errors
///
/// Where there is no memory, for a block too, or no queue may have the capacity.
pub fn certify<A: Allocator + Copy>(
    alloc: A,
    kind: Kind,
    refuses: bool,
    program: &Program<A>,
    schedule: &[Move],
) -> Result<Option<Outcome<A>>, AllocError>
    requires { CanReplay kind }
    ensures { IfOk result (λ o. MatchOption o ⊤ (IsOutcomeOf kind refuses program.now.before program.now.parties.items schedule.now)) }
{
    match follow(alloc, kind, refuses, program, schedule)? {
        None => Ok(None),
        Some(trace) => Ok(Some(trace.into_outcome())),
    }
}
