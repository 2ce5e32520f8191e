//! Calls that stop after each of their steps, while another party's call begins.
use crate::events::{Events, Item, add_call, add_steps, numbered};
use crate::flaw::Flaw;
use crate::runs::{AtEnd, Times, run};
use crate::shapes::{Shape, Start};
use crate::tally::Tally;
use queue_steps::model::Call;
use queue_steps::sizes::STEPS_ALONE;
use std::alloc::Global;
use std::io;
use std::io::ErrorKind;
use std::ops::Range;

/// Each queue at each start: its kind, how many items were pushed and how many of them popped, and whether it was closed then; and how many steps each call takes there alone, by the tables of the steps, in the order of `each_call`.
const ROWS: &str = "\
single 0 0 open 2 2 1 1 1 1 1 1 0
single 1 0 open 1 3 2 1 1 1 1 1 0
single 1 0 closed 1 1 3 1 1 1 1 1 0
bounded:2 0 0 open 4 4 3 1 1 2 2 3 0
bounded:2 1 0 open 4 4 4 1 1 2 2 3 0
bounded:2 2 0 open 3 5 4 1 1 2 2 3 0
bounded:2 1 0 closed 1 1 4 1 1 2 2 3 0
bounded:3 0 0 open 4 4 3 1 1 2 2 3 0
bounded:3 1 0 open 4 4 4 1 1 2 2 3 0
bounded:3 3 0 open 3 5 4 1 1 2 2 3 0
bounded:3 1 0 closed 1 1 4 1 1 2 2 3 0
unbounded 0 0 open 7 7 3 1 1 2 0 3 0
unbounded 1 0 open 4 4 6 1 1 2 0 3 0
unbounded 1 0 closed 1 1 6 1 1 2 0 3 0
unbounded 62 0 open 8 8 6 1 1 2 0 3 0
unbounded 63 62 open 4 4 70 1 1 2 0 3 0
";

/// Each call. A push has this number, and a forced push the next one.
fn each_call(number: u64) -> [Call<Item>; 9] {
    [
        Call::Push(numbered(number)),
        Call::ForcePush(numbered(number.wrapping_add(1))),
        Call::Pop,
        Call::Close,
        Call::IsClosed,
        Call::IsEmpty,
        Call::IsFull,
        Call::Len,
        Call::Capacity,
    ]
}

/// A queue at a start, and how many steps each call takes there alone.
#[derive(Clone, Copy)]
struct Row {
    shape: Shape,
    start: Start,
    steps: [u64; 9],
}

impl Row {
    /// The row that a line tells.
    fn parse(line: &str) -> Option<Row> {
        let mut words = line.split(' ');
        let shape = Shape::named(words.next()?)?;
        let start = Start {
            pushed: words.next()?.parse().ok()?,
            popped: words.next()?.parse().ok()?,
            closed: words.next()? == "closed",
        };
        let mut steps = [0; 9];
        for count in steps.iter_mut() {
            *count = words.next()?.parse().ok()?;
        }
        match words.next() {
            Some(_) => None,
            None => Some(Row {
                shape,
                start,
                steps,
            }),
        }
    }
}

/// To which of two parties a block is granted that asks for one.
static GRANTS: [[bool; 2]; 4] = [[true, true], [true, false], [false, true], [false, false]];

// Blocks are asked for on a chain alone.
fn grants_of(shape: Shape) -> &'static [[bool; 2]] {
    match shape {
        Shape::Chain => &GRANTS,
        _ => &GRANTS[..1],
    }
}

/// Two parties make a call each, stop after so many steps of it, party 0 first, and then go on.
#[derive(Clone, Copy, Debug)]
struct Case {
    shape: Shape,
    start: Start,
    calls: [Call<Item>; 2],
    stops: [u64; 2],
    grants: [bool; 2],
}

/// Which stops of party 1 are tried.
#[derive(Clone, Copy)]
pub enum Second {
    /// It goes on as long as a call alone ever does.
    GoesOn,
    /// It stops after each number of its steps.
    Stops,
}

impl Second {
    /// Its stops in a call of so many steps.
    fn stops(self, steps: u64) -> Range<u64> {
        match self {
            Second::GoesOn => STEPS_ALONE..STEPS_ALONE + 1,
            Second::Stops => 0..steps.wrapping_add(1),
        }
    }
}

/// Tries each call of party 0 at each of its stops, beside each call of party 1.
pub fn try_stops<R: Print>(rt: &R, alloc: Global, second: Second) -> io::Result<Tally> {
    let mut tally = Tally::NONE;
    for line in ROWS.lines() {
        let Some(row) = Row::parse(line) else {
            return Err(io::Error::from(ErrorKind::InvalidData));
        };
        for grants in grants_of(row.shape) {
            try_row(rt, alloc, &row, *grants, second, &mut tally)?;
        }
    }
    Ok(tally)
}

fn try_row<R: Print>(
    rt: &R,
    alloc: Global,
    row: &Row,
    grants: [bool; 2],
    second: Second,
    tally: &mut Tally,
) -> io::Result<()> {
    let calls = each_call(101);
    let others = each_call(201);
    for (call, alone) in calls.iter().zip(row.steps.iter()) {
        for stop in 0..alone.wrapping_add(1) {
            for (other, its_steps) in others.iter().zip(row.steps.iter()) {
                for other_stop in second.stops(*its_steps) {
                    let case = Case {
                        shape: row.shape,
                        start: row.start,
                        calls: [*call, *other],
                        stops: [stop, other_stop],
                        grants,
                    };
                    tally.count(rt, &case, judge(alloc, case, *alone))?;
                }
            }
        }
    }
    Ok(())
}

/// Where the calls of a case are, by the numbers of events.
#[derive(Clone, Copy)]
struct Marks {
    /// The first call begins.
    begun: usize,
    /// It has stopped.
    stopped: usize,
    /// The second call has stopped too.
    after: usize,
}

// Runs a case, up to where both stop and then to the end, and tells whether the second call waited for the first.
fn judge(alloc: Global, case: Case, alone: u64) -> Result<bool, Flaw> {
    let mut events = Vec::new(alloc);
    let marks = stop_both(case, &mut events)?;
    run(alloc, case.shape, &events, marks.begun, AtEnd::Stopped)?;
    add_steps(&mut events, 0, STEPS_ALONE, case.grants[0])?;
    add_steps(&mut events, 1, STEPS_ALONE, case.grants[1])?;
    add_steps(&mut events, 0, STEPS_ALONE, case.grants[0])?;
    let [first, second] = run(alloc, case.shape, &events, marks.begun, AtEnd::Ended)?;
    if case.grants[0] && !stops_in_time(first, marks, alone) {
        return Err(Flaw::Steps);
    }
    let waited = case.stops[1] == STEPS_ALONE && comes_late(second.ended, marks.after);
    if waited && !holds(first, marks.stopped) {
        return Err(Flaw::Waits);
    }
    Ok(waited)
}

// The events up to where both stop.
fn stop_both(case: Case, events: &mut Events) -> Result<Marks, Flaw> {
    case.start.reach(events)?;
    let begun = events.len();
    add_call(events, 0, case.calls[0], case.stops[0], case.grants[0])?;
    let stopped = events.len();
    add_call(events, 1, case.calls[1], case.stops[1], case.grants[1])?;
    Ok(Marks {
        begun,
        stopped,
        after: events.len(),
    })
}

// Whether the first call was in the middle where it stopped, or had ended with its last step.
fn stops_in_time(times: Times, marks: Marks, alone: u64) -> bool {
    let end = marks.begun.wrapping_add(alone as usize);
    match times.ended {
        Some(ended) if end < marks.stopped => ended == end,
        ended => comes_late(ended, marks.stopped),
    }
}

// Whether something came with the event of this number, or later, or never.
fn comes_late(when: Option<usize>, number: usize) -> bool {
    match when {
        Some(at) => at >= number,
        None => true,
    }
}

// Whether a call that stopped before the event of this number was in the middle, and had done something to the queue: of two calls, no other can make the other one wait.
fn holds(times: Times, stopped: usize) -> bool {
    !comes_late(times.acted, stopped) && comes_late(times.ended, stopped)
}
