//! What is told of a program: a line for each outcome, or the schedule of one.
ghost use Rattle.std.specs.Prelude.{◌≡◌, ◌++◌, ◌<◌, ◌≤◌, map, string_bytes, IfOk, MatchOption, OnOk};
ghost use Rattle.machine_replay.specs.Replays.{CanReplay};
ghost use Rattle.machine_explore.specs.Traces.{IsTraceOf};
ghost use Rattle.app_explore.specs.Listed.{bytes_of, listed_outcome, listed_schedule, listed_tail};
ghost use Rattle.app_explore.specs.Outcomes.{text_of};
ghost use Rattle.app_explore.specs.Tails.{items_in, none_of, tail_line, without_order};
ghost use Rattle.app_explore.specs.Listings.{AreOutcomes, HasFewer, IsListOf, IsListing, IsPictureOf, IsScheduleOf, IsTraceOfOutcome, outcome_lines};

use crate::lanes::write_lanes;
use crate::listed::{Listed, sorted_by_text};
use crate::outcomes::write_outcome_line;
use crate::schedules::write_schedule;
use crate::tails::{Totals, write_last};
use machine_explore::explore::{Report, explore};
use machine_explore::problem::Problem;
use machine_explore::search::counts::ScheduleCount;
use machine_explore::search::faults::SearchFault;
use machine_explore::search::figures::Figure;
use machine_explore::shown::ShownOutcome;
use machine_explore::trace::{Trace, follow};
use std::alloc::{AllocError, Allocator};

/// The outcomes of a program in the order of their texts, and what was counted of all.
#[derive(Drop)]
struct OutcomeList<A: Allocator> {
    outcomes: Vec<Listed<ShownOutcome<A>, A>, A>,
    schedules: ScheduleCount,
    alone: u64,
}

/// The line of each outcome, sorted by their bytes, and the line of all.
///
/// # Errors
///
/// `NoMemory`, also where no queue may have the capacity, `TooManyStates`, and `NotShown`.
pub fn list_outcomes<A: Allocator + Copy>(
    alloc: A,
    problem: &Problem<A>,
) -> Result<String<A>, SearchFault>
    requires { CanReplay problem.now.kind }
    ensures { IfOk result (λ text. IsListing problem.now.kind problem.now.refuses problem.now.program.before problem.now.program.parties.items (string_bytes text)) }
{
    let list = outcome_list(alloc, problem)?;
    Ok(write_list(alloc, &list)?)
}

/// The lines of the schedule of the outcome of this number, counted from 1, if there are so many.
///
/// # Errors
///
/// As of `list_outcomes`.
pub fn list_schedule<A: Allocator + Copy>(
    alloc: A,
    problem: &Problem<A>,
    number: u64,
) -> Result<Option<String<A>>, SearchFault>
    requires can { CanReplay problem.now.kind }
    requires counted { 0 < number }
    ensures { IfOk result (λ o. MatchOption o
        (HasFewer problem.now.kind problem.now.refuses problem.now.program.before problem.now.program.parties.items number)
        (λ text. IsScheduleOf problem.now.kind problem.now.refuses problem.now.program.before problem.now.program.parties.items number (string_bytes text))) }
{
    let Some(trace) = trace_outcome(alloc, problem, number)? else {
        return Ok(None);
    };
    let mut text = String::new(alloc);
    write_schedule(
        problem.program.before.as_slice(),
        trace.entries(),
        &mut text,
    )?;
    Ok(Some(text))
}

/// The picture of the schedule of the outcome of this number, counted from 1, if there are so many.
///
/// # Errors
///
/// As of `list_outcomes`.
pub fn draw_lanes<A: Allocator + Copy>(
    alloc: A,
    problem: &Problem<A>,
    number: u64,
) -> Result<Option<String<A>>, SearchFault>
    requires can { CanReplay problem.now.kind }
    requires counted { 0 < number }
    ensures { IfOk result (λ o. MatchOption o
        (HasFewer problem.now.kind problem.now.refuses problem.now.program.before problem.now.program.parties.items number)
        (λ text. IsPictureOf problem.now.kind problem.now.refuses problem.now.program.before problem.now.program.parties.items number (string_bytes text))) }
{
    let Some(trace) = trace_outcome(alloc, problem, number)? else {
        return Ok(None);
    };
    let mut text = String::new(alloc);
    write_lanes(
        alloc,
        problem.program.parties.len(),
        trace.opening(),
        trace.entries(),
        &mut text,
    )?;
    Ok(Some(text))
}

// What is seen of the schedule of the outcome of this number, if there are so many.
fn trace_outcome<A: Allocator + Copy>(
    alloc: A,
    problem: &Problem<A>,
    number: u64,
) -> Result<Option<Trace<A>>, SearchFault>
    requires can { CanReplay problem.now.kind }
    requires counted { 0 < number }
    ensures { IfOk result (λ o. MatchOption o
        (HasFewer problem.now.kind problem.now.refuses problem.now.program.before problem.now.program.parties.items number)
        (IsTraceOfOutcome problem.now.kind problem.now.refuses problem.now.program.before problem.now.program.parties.items number)) }
{
    let list = outcome_list(alloc, problem)?;
    let Some(outcome) = list.outcomes.get((number - 1) as usize) else {
        return Ok(None);
    };
    let trace = follow_to(alloc, problem, &outcome.item)?;
    Ok(Some(trace))
}

// What is seen of the schedule that shows this outcome.
fn follow_to<A: Allocator + Copy>(
    alloc: A,
    problem: &Problem<A>,
    shown: &ShownOutcome<A>,
) -> Result<Trace<A>, SearchFault>
    requires { CanReplay problem.now.kind }
    ensures trace { IfOk result (λ t. IsTraceOf problem.now.kind problem.now.refuses problem.now.program.before problem.now.program.parties.items shown.now.schedule t) }
    ensures outcome { IfOk result (λ t. t.outcome ≡ shown.now.outcome) }
{
    match follow(
        alloc,
        problem.kind,
        problem.refuses,
        &problem.program,
        shown.schedule.as_slice(),
    )? {
        Some(trace) if trace.outcome().is_same(&shown.outcome) => Ok(trace),
        _ => Err(SearchFault::NotShown),
    }
}

// The outcomes of the program in the order of their texts.
fn outcome_list<A: Allocator + Copy>(
    alloc: A,
    problem: &Problem<A>,
) -> Result<OutcomeList<A>, SearchFault>
    requires { CanReplay problem.now.kind }
    ensures are { IfOk result (λ list. AreOutcomes problem.now.kind problem.now.refuses problem.now.program.before problem.now.program.parties.items
        (map listed_schedule list.outcomes.items) (map listed_outcome list.outcomes.items)) }
    ensures texts { IfOk result (λ list. map bytes_of list.outcomes.items ≡ map text_of (map listed_outcome list.outcomes.items)) }
{
    let Report {
        outcomes,
        schedules,
        alone,
    } = explore(alloc, problem)?;
    Ok(OutcomeList {
        outcomes: sorted_by_text(alloc, outcomes)?,
        schedules,
        alone,
    })
}

// The line of each outcome, and the line of all.
fn write_list<A: Allocator + Copy>(alloc: A, list: &OutcomeList<A>) -> Result<String<A>, AllocError>
    ensures { IfOk result (λ text. IsListOf (map bytes_of list.now.outcomes.items) (string_bytes text)) }
{
    let mut text = String::new(alloc);
    write_lines(&list.outcomes, &mut text)?;
    let totals = Totals {
        outcomes: list.outcomes.len(),
        schedules: list.schedules,
        alone: list.alone,
        unordered: count_without_order(&list.outcomes),
    };
    write_last(totals, &mut text)?;
    Ok(text)
}

// How many of the outcomes no order of whole calls has.
fn count_without_order<A: Allocator>(outcomes: &[Listed<ShownOutcome<A>, A>]) -> usize
    ensures { result ≡ without_order (map listed_tail outcomes.now) }
{
    let mut count = 0;
    for outcome in outcomes {
        count += unordered(&outcome.item.figure);
    }
    count
}

// 1 if no order of whole calls has the outcome, else 0.
fn unordered<A: Allocator>(figure: &Figure<A>) -> usize
    ensures counted { result ≡ none_of (items_in figure.now.order) }
    ensures few { result ≤ 1 }
{
    match figure.order {
        Some(_) => 0,
        None => 1,
    }
}

// Appends the line of each outcome.
fn write_lines<A: Allocator, B: Allocator>(
    outcomes: &[Listed<ShownOutcome<B>, B>],
    text: &mut String<A>,
) -> Result<(), AllocError>
    ensures { OnOk result (string_bytes text.new ≡ string_bytes text.old ++ outcome_lines 1 (map bytes_of outcomes.now) (map tail_line (map listed_tail outcomes.now))) }
{
    for (index, outcome) in outcomes.iter().enumerate() {
        write_outcome_line(
            index as u64 + 1,
            outcome.text.as_str(),
            &outcome.item.figure,
            text,
        )?;
    }
    Ok(())
}
