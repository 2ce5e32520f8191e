//! What a walk over a program's positions finds: its outcomes, a shortest schedule for each, and what is counted. Nothing rests on it: `explore` shows it to be right.
ghost use Rattle.machine_replay.specs.Replays.{CanReplay};

use crate::check::Table;
use crate::problem::Problem;
use crate::program::Program;
use crate::schedule::Move;
use crate::search::alone::longest_call_alone;
use crate::search::counts::{ScheduleCount, counts};
use crate::search::edges::Graph;
use crate::search::faults::SearchFault;
use crate::search::figures::{Figure, figure_of, total};
use crate::search::find::find;
use crate::search::orders::orders;
use crate::search::outcomes::{FinalPositions, collect_finals};
use crate::search::paths::Paths;
use crate::sequence::Sequence;
use std::alloc::Allocator;

/// What was found of an outcome.
#[derive(Drop)]
pub struct FoundOutcome<A: Allocator> {
    /// The moves of a shortest schedule that leads to it, behind the calls that come first.
    pub schedule: Sequence<Move, A>,
    /// What was counted of it.
    pub figure: Figure<A>,
}

/// What was found of a program.
#[derive(Drop)]
pub struct Findings<A: Allocator> {
    /// The positions of the program.
    pub table: Table<A>,
    /// Its outcomes, in the order of the table.
    pub outcomes: Vec<FoundOutcome<A>, A>,
    /// How many schedules there are.
    pub schedules: ScheduleCount,
    /// The most steps that a call alone takes.
    pub alone: u64,
}

/// Walks over the positions of the problem's program.
///
/// # Errors
///
/// As of `find`, and `EndlessCall` where a call alone does not reply.
pub fn search<A: Allocator + Copy>(
    alloc: A,
    problem: &Problem<A>,
) -> Result<Findings<A>, SearchFault>
    requires { CanReplay problem.now.kind }
{
    let program = &problem.program;
    let parties = program.parties.len();
    let table = find(
        alloc,
        problem.kind,
        problem.refuses,
        program,
        problem.most_states,
    )?;
    let alone = longest_call_alone(parties, &table)?;
    let finals = collect_finals(alloc, program, &table)?;
    let counts = counts(alloc, parties, &table, &finals)?;
    let outcomes = found_outcomes(alloc, program, &table, &finals, &counts)?;
    Ok(Findings {
        table,
        outcomes,
        schedules: total(&counts),
        alone,
    })
}

// What is found of each outcome.
fn found_outcomes<A: Allocator + Copy>(
    alloc: A,
    program: &Program<A>,
    table: &Table<A>,
    finals: &FinalPositions<A>,
    counts: &[ScheduleCount],
) -> Result<Vec<FoundOutcome<A>, A>, SearchFault> {
    let parties = program.parties.len();
    let graph = Graph { table, parties };
    let paths = Paths::new(alloc, &graph)?;
    let mut orders = orders(alloc, parties, table, finals)?;
    let mut outcomes = Vec::new(alloc);
    for number in 0..finals.outcomes.len() {
        let schedule = paths.schedule(alloc, &graph, finals, number)?;
        let figure = figure_of(program, number, schedule.as_slice(), counts, &mut orders);
        outcomes.push(FoundOutcome { schedule, figure })?;
    }
    Ok(outcomes)
}
