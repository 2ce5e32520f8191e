//! Who waits for whom in a program: a line for each wait, or the schedule of one.
ghost use Rattle.std.specs.Prelude.{◌<◌, IfOk, MatchOption, map, string_bytes};
ghost use Rattle.machine_replay.specs.Replays.{CanReplay};
ghost use Rattle.app_explore.specs.Listed.{listed_wait};
ghost use Rattle.app_explore.specs.Waits.{AreWaits, HasFewerWaits, IsWaitList, IsWaitSchedule};

use crate::listed::{Listed, sorted_by_text};
use crate::schedules::write_schedule;
use crate::wait_lines::write_waits;
use machine_explore::explore::explore_waits;
use machine_explore::problem::Problem;
use machine_explore::search::faults::SearchFault;
use machine_explore::waiting::Wait;
use std::alloc::Allocator;

/// The line of each wait, sorted by their bytes, and how many there are.
///
/// # Errors
///
/// `NoMemory`, also where no queue may have the capacity, `TooManyStates`, and `NotShown`.
pub fn list_waits<A: Allocator + Copy>(
    alloc: A,
    problem: &Problem<A>,
) -> Result<String<A>, SearchFault>
    requires { CanReplay problem.now.kind }
    ensures { IfOk result (λ text. IsWaitList problem.now.kind problem.now.refuses problem.now.program.before problem.now.program.parties.items (string_bytes text)) }
{
    let waits = all_waits(alloc, problem)?;
    let mut text = String::new(alloc);
    write_waits(&waits, &mut text)?;
    Ok(text)
}

/// The lines of the schedule of the wait of this number, counted from 1, if there are so many.
///
/// # Errors
///
/// As of `list_waits`.
pub fn wait_schedule<A: Allocator + Copy>(
    alloc: A,
    problem: &Problem<A>,
    number: u64,
) -> Result<Option<String<A>>, SearchFault>
    requires can { CanReplay problem.now.kind }
    requires counted { 0 < number }
    ensures { IfOk result (λ o. MatchOption o
        (HasFewerWaits problem.now.kind problem.now.refuses problem.now.program.before problem.now.program.parties.items number)
        (λ text. IsWaitSchedule problem.now.kind problem.now.refuses problem.now.program.before problem.now.program.parties.items number (string_bytes text))) }
{
    let waits = all_waits(alloc, problem)?;
    let Some(wait) = waits.get((number - 1) as usize) else {
        return Ok(None);
    };
    let mut text = String::new(alloc);
    write_schedule(
        problem.program.before.as_slice(),
        wait.item.entries.as_slice(),
        &mut text,
    )?;
    Ok(Some(text))
}

// The waits of the program, in the order of their texts.
fn all_waits<A: Allocator + Copy>(
    alloc: A,
    problem: &Problem<A>,
) -> Result<Vec<Listed<Wait<A>, A>, A>, SearchFault>
    requires { CanReplay problem.now.kind }
    ensures { IfOk result (λ waits. AreWaits problem.now.kind problem.now.refuses problem.now.program.before problem.now.program.parties.items (map listed_wait waits.items)) }
{
    let waits = explore_waits(alloc, problem)?;
    sorted_by_text(alloc, waits)
}
