//! Stored cases: a program with its arguments, what it reads, and what it is to write.
use crate::stored::files::{file, text_of};
use crate::stored::runs::{counting, run};
use std::io;
use std::rt::Files;
use std::sync::Wait;
use std::thread::Threads;
use test_support::runs::{End, SOUND, Streams};
use test_support::streams::{Failing, Flow};

/// A stored case.
#[derive(Clone, Copy)]
pub struct Case<'a> {
    /// The program's name, and its arguments.
    pub command: &'a str,
    /// The name of the input's file. Without one a read fails.
    input: Option<&'a str>,
    /// The name of the file with all that it is to write: to its output where it answers, else of a fault.
    pub written: &'a str,
    /// The status that it is to end with.
    pub status: u8,
}

impl<'a> Case<'a> {
    /// The case of a line, `COMMAND [< INPUT] > OUTPUT [STATUS]` or `COMMAND [< INPUT] 2> FAULT STATUS`.
    pub fn parse(line: &'a str) -> Option<Case<'a>> {
        let (words, written, status) = match line.split_once(" 2> ") {
            Some((words, rest)) => {
                let (written, status) = rest.split_once(" ")?;
                (words, written, status.parse().ok()?)
            }
            None => {
                let (words, rest) = line.split_once(" > ")?;
                match rest.split_once(" ") {
                    Some((written, status)) => (words, written, status.parse().ok()?),
                    None => (words, rest, 0),
                }
            }
        };
        let (command, input) = match words.split_once(" < ") {
            Some((command, input)) => (command, Some(input)),
            None => (words, None),
        };
        Some(Case {
            command,
            input,
            written,
            status,
        })
    }

    /// What it is to read, if anything.
    pub fn input<R: Files + Print + AllocGlobal>(&self, rt: &R) -> io::Result<Vec<u8>> {
        match self.input {
            Some(name) => file(rt, name),
            None => Ok(Vec::new(rt.alloc())),
        }
    }

    /// All that it is to write.
    pub fn text<R: Files + Print + AllocGlobal>(&self, rt: &R) -> io::Result<Vec<u8>> {
        file(rt, self.written)
    }

    /// How its streams move, and how many reads of single bytes find its input's end.
    pub fn streams(&self, input: &[u8]) -> (Streams, usize) {
        match self.input {
            Some(_) => (SOUND, input.len().wrapping_add(1)),
            None => (UNREADABLE, 0),
        }
    }

    /// Whether its program ends as it is to, with as many blocks at once as a replay tells of, and gives its memory back. If not, it names the line of the file that has something else, or the one behind the last, and what was counted.
    pub fn agrees<R: Threads + Wait + Sync + Files + Print + AllocGlobal>(
        &self,
        rt: &R,
    ) -> io::Result<bool> {
        let (input, text) = (self.input(rt)?, self.text(rt)?);
        let (streams, _) = self.streams(&input);
        let heap = counting(rt.alloc())?;
        let outcome = run(rt, &heap, self.command, &input, streams)?;
        let end = outcome.end();
        let (blocks, kept) = (heap.most_watched(), heap.live());
        let are_told = match most_blocks(text_of(&text)) {
            Some(told) => told == blocks,
            None => true,
        };
        let is_right = end == end_of(self.status, &text) && outcome.is_flushed();
        if is_right && are_told && kept == 0 {
            return Ok(true);
        }
        let written = match self.status {
            0 | 1 => end.output,
            _ => end.faults,
        };
        let (line, status) = (first_other_line(&text, written), end.status);
        println!(rt;
            "{}, line {line}, status {status}, {blocks} blocks at once, {kept} allocations kept",
            self.written
        )?;
        Ok(false)
    }
}

/// The case of this line has no runs beside its own, if it agrees.
pub fn case_runs<R: Threads + Wait + Sync + Files + Print + AllocGlobal>(
    rt: &R,
    line: &str,
) -> io::Result<Option<usize>> {
    match Case::parse(line) {
        Some(case) => Ok(case.agrees(rt)?.then_some(0)),
        None => Ok(None),
    }
}

/// How a run ends that writes this alone: to its output where it answers, with 0 or 1, else of a fault.
pub fn end_of(status: u8, text: &[u8]) -> End<'_> {
    match status {
        0 | 1 => End {
            status,
            ..End::right(text_of(text))
        },
        status => End::fault(status, text_of(text)),
    }
}

/// An input that is not to be read: a read fails.
const UNREADABLE: Streams = Streams {
    input: Flow {
        most: 1,
        failing: Failing::At(0, io::ErrorKind::BrokenPipe),
    },
    ..SOUND
};

/// The most blocks at once that the output of a replay tells of, which it does on a queue without a capacity alone.
fn most_blocks(output: &str) -> Option<u64> {
    for line in output.lines() {
        if let Some(told) = line.strip_prefix("blocks ") {
            let (blocks, _) = told.split_once(" of ").unwrap_or(("", ""));
            return blocks.parse().ok();
        }
    }
    None
}

/// The number of the first line in which the other text is not as this one; where there is none, that of the one behind the last.
pub fn first_other_line(text: &[u8], other: &[u8]) -> usize {
    let mut line: usize = 1;
    for (byte, found) in text.iter().zip(other) {
        if byte != found {
            return line;
        }
        if *byte == b'\n' {
            line = line.wrapping_add(1);
        }
    }
    line
}
