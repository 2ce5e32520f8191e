//! What a walk found, changed in one place, is not shown. No program is known for which a walk finds such a thing, so `queue_explore` is not known to end with `not shown`.
ghost use Rattle.machine_replay.specs.Replays.{CanReplay};

use crate::asserts::is_in;
use app_explore::limits::MOST_STATES;
use app_explore::listed::{Listed, sorted_by_text};
use app_explore::reading::read_program;
use machine_explore::check::check;
use machine_explore::explore::{explore, show};
use machine_explore::problem::Problem;
use machine_explore::schedule::Move;
use machine_explore::search::faults::SearchFault;
use machine_explore::search::figures::Figure;
use machine_explore::search::findings::{Findings, FoundOutcome, search};
use machine_explore::sequence::Sequence;
use machine_explore::shown::ShownOutcome;
use queue_steps::steps::Kind;
use std::alloc::Global;
use std::process::Abort;

/// Two outcomes: the pop is before the push, or after it.
const PROGRAM: &str = "0: pop\n1: push 1\n";

/// What is changed of what was found.
#[derive(Debug)]
enum Change {
    Nothing,
    /// The last link is missing.
    EdgeLost,
    /// The first link leads back.
    LinkBent,
    /// The last state is missing.
    StateLost,
    /// The states are in the opposite order.
    StartMoved,
    /// The last outcome that was shown is missing.
    OutcomeLost,
    /// The last schedule is missing.
    ScheduleLost,
    /// The last schedule is there twice.
    ScheduleTwice,
    /// The schedules are in the opposite order.
    SchedulesTurned,
    /// The first schedule has no last move.
    MoveLost,
    /// The first schedule ends with a move of a party that is not there.
    PartyUnknown,
    /// The first schedule ends with a step that is refused.
    MoveRefused,
}

/// The moves of one of the schedules.
fn moves_of(
    rt: &impl Abort,
    alloc: Global,
    findings: &Findings<Global>,
    number: usize,
) -> Vec<Move> {
    match findings.outcomes.get(number) {
        Some(found) => Vec::from_slice(alloc, found.schedule.as_slice()).expect(rt, "memory"),
        None => Vec::new(alloc),
    }
}

/// Puts another move in the place of the last one of the first schedule, or none.
fn change_move(
    rt: &impl Abort,
    alloc: Global,
    findings: &mut Findings<Global>,
    last: Option<Move>,
) {
    let mut moves = moves_of(rt, alloc, findings, 0);
    moves.pop();
    if let Some(step) = last {
        moves.push(step).expect(rt, "memory");
    }
    if let Some(found) = findings.outcomes.get_mut(0) {
        found.schedule = Sequence::of(moves);
    }
}

/// Puts a schedule behind the others.
fn add_schedule(rt: &impl Abort, findings: &mut Findings<Global>, moves: Vec<Move>) {
    let added = findings.outcomes.push(FoundOutcome {
        schedule: Sequence::of(moves),
        figure: Figure {
            schedules: Some(1),
            steps: 1,
            order: None,
        },
    });
    added.ok().expect(rt, "memory");
}

/// Takes the last away.
fn lose<T: Drop>(list: &mut Vec<T>) {
    list.pop();
}

/// Changes what was found.
fn make_change(rt: &impl Abort, alloc: Global, findings: &mut Findings<Global>, change: &Change) {
    match change {
        Change::Nothing | Change::OutcomeLost => {}
        Change::EdgeLost => lose(&mut findings.table.edges),
        Change::LinkBent => {
            if let Some(edge) = findings.table.edges.get_mut(0) {
                edge.granted = 0;
            }
        }
        Change::StateLost => lose(&mut findings.table.positions),
        Change::StartMoved => findings.table.positions.reverse(),
        Change::ScheduleLost => lose(&mut findings.outcomes),
        Change::ScheduleTwice => {
            let moves = moves_of(rt, alloc, findings, 1);
            add_schedule(rt, findings, moves);
        }
        Change::SchedulesTurned => findings.outcomes.reverse(),
        Change::MoveLost => change_move(rt, alloc, findings, None),
        Change::PartyUnknown => change_move(rt, alloc, findings, Some(UNKNOWN)),
        Change::MoveRefused => change_move(rt, alloc, findings, Some(REFUSED)),
    }
}

/// A move of a party that is not there, and a refused step of the one whose move is the last.
const UNKNOWN: Move = Move {
    party: 2,
    granted: true,
};

const REFUSED: Move = Move {
    party: 1,
    granted: false,
};

/// The program as a problem.
fn problem(rt: &impl Abort, alloc: Global) -> Problem<Global>
    ensures { CanReplay result.kind }
{
    let Ok(program) = read_program(alloc, PROGRAM.as_bytes()) else {
        rt.panic("a program");
    };
    Problem {
        kind: Kind::Single,
        refuses: false,
        program,
        most_states: MOST_STATES,
    }
}

/// Whether the table shows that there is no outcome but those of the program, of which one may be missing.
fn is_checked(
    rt: &impl Abort,
    alloc: Global,
    problem: &Problem<Global>,
    findings: &Findings<Global>,
    change: &Change,
) -> bool
    requires { CanReplay problem.now.kind }
{
    let Ok(mut report) = explore(alloc, problem) else {
        return false;
    };
    if let Change::OutcomeLost = change {
        lose(&mut report.outcomes);
    }
    let checked = check(
        alloc,
        problem.kind,
        problem.refuses,
        &problem.program,
        &findings.table,
        &report.outcomes,
    );
    checked.expect(rt, "memory")
}

/// The outcomes in the order of their texts, by what was found.
fn list_found(
    alloc: Global,
    problem: &Problem<Global>,
    findings: Findings<Global>,
) -> Result<Vec<Listed<ShownOutcome<Global>, Global>>, SearchFault>
    requires { CanReplay problem.now.kind }
{
    let report = show(alloc, problem, findings)?;
    sorted_by_text(alloc, report.outcomes)
}

/// Of a walk that is changed, whether the table is checked, and whether the outcomes are listed. If not, they are not shown.
fn answers(rt: &impl Abort, alloc: Global, change: &Change) -> (bool, bool) {
    let problem = problem(rt, alloc);
    let Ok(mut findings) = search(alloc, &problem) else {
        rt.panic("findings");
    };
    make_change(rt, alloc, &mut findings, change);
    let checked = is_checked(rt, alloc, &problem, &findings, change);
    let listed = match list_found(alloc, &problem, findings) {
        Ok(_) => true,
        Err(SearchFault::NotShown) => false,
        Err(_) => panic!(rt; "another end"),
    };
    (checked, listed)
}

/// Each change, whether the table still shows that the outcomes are all, and whether they are listed.
static CHANGES: [(Change, bool, bool); 12] = [
    (Change::Nothing, true, true),
    (Change::OutcomeLost, false, true),
    (Change::EdgeLost, false, false),
    (Change::LinkBent, false, false),
    (Change::StateLost, false, false),
    (Change::StartMoved, false, false),
    (Change::ScheduleLost, true, false),
    (Change::ScheduleTwice, true, false),
    (Change::SchedulesTurned, true, true),
    (Change::MoveLost, true, false),
    (Change::PartyUnknown, true, false),
    (Change::MoveRefused, true, false),
];

#[test]
fn what_was_found_wrong_is_not_shown(rt: HostRuntime) {
    for (change, checked, listed) in &CHANGES {
        let found = answers(&rt, rt.alloc(), change);
        is_in(&rt, change, found, (*checked, *listed));
    }
}
