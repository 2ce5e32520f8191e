//! Stored cases and stored programs.
//!
//! The file `LIST` has a line for each case, as a shell has it. `failing/LIST` has one for each whose streams and requests fail. `programs/LIST` has a line for each program: the explorer's arguments, and then its name. `.in` is the program, `.out` the output.

mod cases;
mod failing;
mod files;
mod programs;
mod replays;
pub mod runs;

use crate::stored::cases::case_runs;
use crate::stored::failing::failing_runs;
use crate::stored::files::{file, text_of};
use crate::stored::programs::program_runs;
use std::io;
use std::rt::Files;
use std::sync::Wait;
use std::thread::Threads;

/// A list of what is stored.
#[derive(Clone, Copy)]
enum List {
    Cases,
    Failing,
    Programs,
}

impl List {
    /// The name of its file.
    fn name(self) -> &'static str {
        match self {
            List::Cases => "LIST",
            List::Failing => "failing/LIST",
            List::Programs => "programs/LIST",
        }
    }
}

/// How many lines there are, how many of them agree, and in how many runs beside their own.
#[derive(Clone, Copy)]
struct Tally {
    lines: usize,
    agreeing: usize,
    runs: usize,
}

impl Tally {
    /// Counts a line, which agrees in so many runs beside its own, if it does.
    fn count(&mut self, runs: Option<usize>) {
        self.lines = self.lines.wrapping_add(1);
        self.agreeing = self.agreeing.wrapping_add(usize::from(runs.is_some()));
        self.runs = self.runs.wrapping_add(runs.unwrap_or(0));
    }
}

/// In how many runs beside its own a line of this list agrees. One that does not is named.
fn line_runs<R: Threads + Wait + Sync + Files + Print + AllocGlobal>(
    rt: &R,
    list: List,
    line: &str,
) -> io::Result<Option<usize>> {
    let runs = match list {
        List::Cases => case_runs(rt, line)?,
        List::Failing => failing_runs(rt, line)?,
        List::Programs => program_runs(rt, line)?,
    };
    if runs.is_none() {
        println!(rt; "not as it should be: {line}")?;
    }
    Ok(runs)
}

/// Runs what a list says.
fn run_list<R: Threads + Wait + Sync + Files + Print + AllocGlobal>(
    rt: &R,
    list: List,
) -> io::Result<Tally> {
    let lines = file(rt, list.name())?;
    let mut tally = Tally {
        lines: 0,
        agreeing: 0,
        runs: 0,
    };
    for line in text_of(&lines).lines() {
        tally.count(line_runs(rt, list, line)?);
    }
    Ok(tally)
}

/// Runs all that is stored, and tells how it went. Gives whether all agree.
pub fn tell_stored<R: Threads + Wait + Sync + Files + Print + AllocGlobal>(
    rt: &R,
) -> io::Result<bool> {
    let cases = run_list(rt, List::Cases)?;
    println!(rt; "{} of {} cases agree", cases.agreeing, cases.lines)?;
    let failing = run_list(rt, List::Failing)?;
    println!(rt;
        "{} of {} cases agree in {} runs whose streams fail",
        failing.agreeing, failing.lines, failing.runs
    )?;
    let programs = run_list(rt, List::Programs)?;
    println!(rt;
        "{} of {} programs agree, {} schedules replayed",
        programs.agreeing, programs.lines, programs.runs
    )?;
    Ok(
        cases.agreeing == cases.lines
            && failing.agreeing == failing.lines
            && programs.agreeing == programs.lines,
    )
}
