//! All outcomes of a program, or all waits: what a search finds, each shown by its schedule, and shown to be all.
ghost use Rattle.std.specs.Prelude.{map, IfOk};
ghost use Rattle.std.specs.List.{All};
ghost use Rattle.machine_replay.specs.Replays.{CanReplay};
ghost use Rattle.machine_explore.specs.Reports.{AreAllOutcomes, AreAllWaits, IsShownOutcome, IsShownWait};
ghost use Rattle.machine_explore.specs.Waiting.{wait_of};

use crate::certify::certify;
use crate::check::check;
use crate::check_waits::check_waits;
use crate::problem::Problem;
use crate::search::counts::ScheduleCount;
use crate::search::faults::SearchFault;
use crate::search::find::find;
use crate::search::findings::{Findings, FoundOutcome, search};
use crate::search::rounds::{Approach, approaches};
use crate::shown::ShownOutcome;
use crate::waiting::{Wait, show_wait};
use std::alloc::Allocator;

/// What was shown of a program, and what was counted.
#[derive(Drop)]
pub struct Report<A: Allocator> {
    /// Its outcomes, in the order in which they were found.
    pub outcomes: Vec<ShownOutcome<A>, A>,
    /// How many schedules there are. Nothing shows that.
    pub schedules: ScheduleCount,
    /// The most steps that a call alone takes. Nothing shows that.
    pub alone: u64,
}

/// Every outcome of the problem's program, each with a schedule that shows it, and no other.
///
/// # Errors
///
/// `NoMemory`, also where no queue may have the capacity, `TooManyStates`, `EndlessCall`, and `NotShown`.
pub fn explore<A: Allocator + Copy>(
    alloc: A,
    problem: &Problem<A>,
) -> Result<Report<A>, SearchFault>
    requires { CanReplay problem.now.kind }
    ensures { IfOk result (λ report. AreAllOutcomes problem.now.kind problem.now.refuses problem.now.program.before problem.now.program.parties.items report.outcomes.items) }
{
    let findings = search(alloc, problem)?;
    show(alloc, problem, findings)
}

/// The same, by what a search found. Whoever found it is not trusted.
///
/// # Errors
///
/// `NoMemory`, and `NotShown` where a schedule is no whole run of the program, or the table does not show that there is no other outcome.
pub fn show<A: Allocator + Copy>(
    alloc: A,
    problem: &Problem<A>,
    findings: Findings<A>,
) -> Result<Report<A>, SearchFault>
    requires { CanReplay problem.now.kind }
    ensures { IfOk result (λ report. AreAllOutcomes problem.now.kind problem.now.refuses problem.now.program.before problem.now.program.parties.items report.outcomes.items) }
{
    let Findings {
        table,
        outcomes,
        schedules,
        alone,
    } = findings;
    let outcomes = show_outcomes(alloc, problem, outcomes)?;
    if !check(
        alloc,
        problem.kind,
        problem.refuses,
        &problem.program,
        &table,
        &outcomes,
    )? {
        return Err(SearchFault::NotShown);
    }
    Ok(Report {
        outcomes,
        schedules,
        alone,
    })
}

// What each schedule that was found ends with.
fn show_outcomes<A: Allocator + Copy>(
    alloc: A,
    problem: &Problem<A>,
    outcomes: Vec<FoundOutcome<A>, A>,
) -> Result<Vec<ShownOutcome<A>, A>, SearchFault>
    requires { CanReplay problem.now.kind }
    ensures { IfOk result (λ shown. All (IsShownOutcome problem.now.kind problem.now.refuses problem.now.program.before problem.now.program.parties.items) shown.items) }
{
    let mut shown = Vec::new(alloc);
    for found in outcomes {
        let outcome = show_outcome(alloc, problem, found)?;
        shown.push(outcome)?;
    }
    Ok(shown)
}

// What the schedule that was found ends with.
fn show_outcome<A: Allocator + Copy>(
    alloc: A,
    problem: &Problem<A>,
    found: FoundOutcome<A>,
) -> Result<ShownOutcome<A>, SearchFault>
    requires { CanReplay problem.now.kind }
    ensures { IfOk result (IsShownOutcome problem.now.kind problem.now.refuses problem.now.program.before problem.now.program.parties.items) }
{
    let FoundOutcome { schedule, figure } = found;
    let certified = certify(
        alloc,
        problem.kind,
        problem.refuses,
        &problem.program,
        schedule.as_slice(),
    )?;
    match certified {
        Some(outcome) => Ok(ShownOutcome {
            outcome,
            schedule,
            figure,
        }),
        None => Err(SearchFault::NotShown),
    }
}

/// Every wait of the problem's program, each with what is seen of a schedule that shows it, and no other, in the order in which they were found.
///
/// # Errors
///
/// As of `explore`.
pub fn explore_waits<A: Allocator + Copy>(
    alloc: A,
    problem: &Problem<A>,
) -> Result<Vec<Wait<A>, A>, SearchFault>
    requires { CanReplay problem.now.kind }
    ensures { IfOk result (λ waits. AreAllWaits problem.now.kind problem.now.refuses problem.now.program.before problem.now.program.parties.items (map wait_of waits.items)) }
{
    let table = find(
        alloc,
        problem.kind,
        problem.refuses,
        &problem.program,
        problem.most_states,
    )?;
    let found = approaches(alloc, &problem.program, &table)?;
    let waits = show_waits(alloc, problem, &found)?;
    if !check_waits(
        alloc,
        problem.kind,
        problem.refuses,
        &problem.program,
        &table,
        &waits,
    )? {
        return Err(SearchFault::NotShown);
    }
    Ok(waits)
}

// The wait at the end of each schedule that was found.
fn show_waits<A: Allocator + Copy>(
    alloc: A,
    problem: &Problem<A>,
    approaches: &[Approach<A>],
) -> Result<Vec<Wait<A>, A>, SearchFault>
    requires { CanReplay problem.now.kind }
    ensures { IfOk result (λ waits. All (IsShownWait problem.now.kind problem.now.refuses problem.now.program.before problem.now.program.parties.items) (map wait_of waits.items)) }
{
    let mut waits = Vec::new(alloc);
    for found in approaches {
        let wait = show_approach(alloc, problem, found)?;
        waits.push(wait)?;
    }
    Ok(waits)
}

// What is seen of the schedule that was found, shown to lead to a wait.
fn show_approach<A: Allocator + Copy>(
    alloc: A,
    problem: &Problem<A>,
    found: &Approach<A>,
) -> Result<Wait<A>, SearchFault>
    requires { CanReplay problem.now.kind }
    ensures { IfOk result (λ wait. IsShownWait problem.now.kind problem.now.refuses problem.now.program.before problem.now.program.parties.items (wait_of wait)) }
{
    let shown = show_wait(
        alloc,
        problem.kind,
        problem.refuses,
        &problem.program,
        found.schedule.as_slice(),
        found.waiter,
        found.other,
    )?;
    match shown {
        Some(wait) => Ok(wait),
        None => Err(SearchFault::NotShown),
    }
}
