//! What a replay of a schedule ends with, told as the explorer tells it.
use crate::stored::files::text_of;
use crate::stored::runs::run;
use std::alloc::AllocError;
use std::sync::Wait;
use std::thread::Threads;
use test_support::runs::{Outcome, SOUND};

/// Whether a replay of the schedule ends with this outcome of the program.
pub fn is_replayed<R: Threads + Wait + Sync + AllocGlobal>(
    rt: &R,
    args: &str,
    program: &str,
    schedule: &[u8],
    outcome: &str,
) -> Result<bool, AllocError> {
    let told = replay(rt, args, program, schedule)?;
    let mut ends = String::new(rt.alloc());
    write_ends(program, text_of(told.output.taken()), &mut ends)?;
    Ok(ends.as_str() == outcome)
}

/// Whether a replay of the schedule shows that the one party waits for the other at its end: the one takes the steps of a run and gets no reply, until the other has got its own.
pub fn is_held_up<R: Threads + Wait + Sync + AllocGlobal>(
    rt: &R,
    args: &str,
    program: &str,
    schedule: &[u8],
    waiter: &str,
    other: &str,
) -> Result<bool, AllocError> {
    let lines = text_of(schedule);
    let goes_on = format!(in rt.alloc(); "{lines}{waiter} run\n{other} run\n{waiter} run\n")?;
    let told = replay(rt, args, program, goes_on.as_bytes())?;
    let told = text_of(told.output.taken());
    let count = lines.lines().count();
    Ok(
        !is_answered(told, waiter, count)
            && is_answered(told, other, count.wrapping_add(1))
            && is_answered(told, waiter, count.wrapping_add(2)),
    )
}

// Whether the party gets a reply at the line behind so many.
fn is_answered(told: &str, party: &str, before: usize) -> bool {
    for line in told.lines() {
        if reply_in(line, party, before).is_some()
            && reply_in(line, party, before.wrapping_add(1)).is_none()
        {
            return true;
        }
    }
    false
}

// Replays the schedule on a queue of the kind that the explorer's arguments name, with the program's parties.
fn replay<R: Threads + Wait + Sync + AllocGlobal>(
    rt: &R,
    args: &str,
    program: &str,
    schedule: &[u8],
) -> Result<Outcome, AllocError> {
    let (kind, _) = args.split_once(" ").unwrap_or((args, ""));
    let parties = party_count(program);
    let line = format!(in rt.alloc(); "queue_run replay {kind} {parties}")?;
    run(rt, &rt.alloc(), line.as_str(), schedule, SOUND)
}

// Appends what is told of an end: the replies of each party behind the calls that come first, and what is left.
fn write_ends(program: &str, told: &str, ends: &mut String) -> Result<(), AllocError> {
    let before = lines_before(program);
    for line in program.lines() {
        if let Some(party) = party_in(line) {
            ends.push_str(party)?;
            ends.push_str(":")?;
            write_replies(told, party, before, ends)?;
            ends.push_str(" | ")?;
        }
    }
    for line in told.lines() {
        if line.starts_with("left") {
            ends.push_str(line)?;
        }
    }
    Ok(())
}

// Appends the replies of a party in what is told, each behind a space, with a semicolon between each two. Those that the first lines of the schedule got are left out.
fn write_replies(
    told: &str,
    party: &str,
    before: usize,
    ends: &mut String,
) -> Result<(), AllocError> {
    let mut is_first = true;
    for line in told.lines() {
        if let Some(reply) = reply_in(line, party, before) {
            if !is_first {
                ends.push_str(";")?;
            }
            ends.push_str(" ")?;
            ends.push_str(reply)?;
            is_first = false;
        }
    }
    Ok(())
}

// The reply of the party that a line tells, if it tells one, of a line of the schedule behind the first ones.
fn reply_in<'a>(line: &'a str, party: &str, before: usize) -> Option<&'a str> {
    let (number, rest) = line.split_once(" ")?;
    let (whose, told) = rest.split_once(" ")?;
    let Ok(number) = number.parse::<usize>() else {
        return None;
    };
    if whose != party || number <= before || is_effect(told) {
        return None;
    }
    Some(told)
}

// Whether this is the name of an effect.
fn is_effect(told: &str) -> bool {
    matches!(
        told,
        "append" | "take" | "replace" | "front" | "arrive" | "close" | "self_close"
    )
}

// How many lines of a schedule the calls that come first have: two for each.
fn lines_before(program: &str) -> usize {
    match program.split_once("\n") {
        Some((first, _)) if party_in(first).is_none() => {
            first.split("; ").count().saturating_mul(2)
        }
        _ => 0,
    }
}

// How many parties a program has.
fn party_count(program: &str) -> usize {
    let mut count: usize = 0;
    for line in program.lines() {
        if party_in(line).is_some() {
            count = count.wrapping_add(1);
        }
    }
    count
}

// The party whose calls a line of a program has. It is none where the line has the calls that come first.
fn party_in(line: &str) -> Option<&str> {
    match line.split_once(": ") {
        Some(("before", _)) | None => None,
        Some((party, _)) => Some(party),
    }
}
