//! Stored programs, which the explorer runs.
use crate::stored::cases::Case;
use crate::stored::files::text_of;
use crate::stored::replays::{is_held_up, is_replayed};
use crate::stored::runs::run;
use std::alloc::AllocError;
use std::io;
use std::rt::Files;
use std::sync::Wait;
use std::thread::Threads;
use test_support::runs::SOUND;

/// Whether the outcome or the wait of this number, which has this line, is what its schedule leads to; nothing where the line has neither.
fn is_shown<R: Threads + Wait + Sync + AllocGlobal>(
    rt: &R,
    args: &str,
    program: &str,
    number: usize,
    line: &str,
) -> Result<Option<bool>, AllocError> {
    let is_wait = line.starts_with("wait ");
    if !is_wait && !line.starts_with("outcome ") {
        return Ok(None);
    }
    let word = if is_wait { "" } else { " schedule" };
    let request = format!(in rt.alloc(); "queue_explore {args}{word} {number}")?;
    let told = run(rt, &rt.alloc(), request.as_str(), program.as_bytes(), SOUND)?;
    let schedule = told.output.taken();
    let leads = match sides_in(line) {
        Some((waiter, other)) if is_wait => is_held_up(rt, args, program, schedule, waiter, other)?,
        _ => is_replayed(rt, args, program, schedule, outcome_in(line))?,
    };
    Ok(Some(leads && told.status == 0))
}

/// The party that waits and the one that it waits for, of the line of a wait.
fn sides_in(line: &str) -> Option<(&str, &str)> {
    let (_, behind) = line.split_once(" | ")?;
    let (waiter, rest) = behind.split_once(": ")?;
    let (_, last) = rest.split_once(" | ")?;
    let (other, _) = last.split_once(": ")?;
    Some((waiter, other))
}

/// The part of an outcome's line that tells what it is.
fn outcome_in(line: &str) -> &str {
    let (_, behind) = line.split_once(" | ").unwrap_or(("", line));
    let (outcome, _) = behind.split_once(" | schedules ").unwrap_or((behind, ""));
    outcome
}

/// How many outcomes or waits a list has, if each is what its schedule leads to.
fn count_shown<R: Threads + Wait + Sync + AllocGlobal>(
    rt: &R,
    args: &str,
    program: &str,
    list: &str,
) -> Result<Option<usize>, AllocError> {
    let mut count: usize = 0;
    for (index, line) in list.lines().enumerate() {
        match is_shown(rt, args, program, index.wrapping_add(1), line)? {
            Some(true) => count = count.wrapping_add(1),
            Some(false) => return Ok(None),
            None => {}
        }
    }
    Ok(Some(count))
}

/// How many schedules of the program of this line are replayed, if the explorer prints what it is to print, and each leads to what it is to.
pub fn program_runs<R: Threads + Wait + Sync + Files + Print + AllocGlobal>(
    rt: &R,
    line: &str,
) -> io::Result<Option<usize>> {
    let Some((args, name)) = line.rsplit_once(" ") else {
        return Ok(None);
    };
    let line = format!(in rt.alloc();
        "queue_explore {args} < programs/{name}.in > programs/{name}.out"
    )?;
    let Some(case) = Case::parse(line.as_str()) else {
        return Ok(None);
    };
    if !case.agrees(rt)? {
        return Ok(None);
    }
    let (program, list) = (case.input(rt)?, case.text(rt)?);
    Ok(count_shown(rt, args, text_of(&program), text_of(&list))?)
}
