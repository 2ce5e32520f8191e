//! Stored cases whose streams fail at each of their calls, and whose requests for memory are refused in turn.
use crate::stored::cases::{Case, end_of, first_other_line};
use crate::stored::files::file;
use crate::stored::runs::run;
use std::alloc::AllocError;
use std::io;
use std::rt::Files;
use std::sync::Wait;
use std::thread::Threads;
use test_support::allocators::{Heap, Refusal};
use test_support::programs::{PIECE, Run};
use test_support::runs::{End, SOUND};

/// More requests than any case makes.
const MANY: u64 = 100_000;

/// A case whose streams fail, and whose requests are refused.
#[derive(Clone, Copy)]
struct FailingCase<'a> {
    /// How many requests it makes at least.
    least: u64,
    case: Case<'a>,
    /// The name of the output's file where the block that it asks for is refused, at which it goes on.
    refused: Option<&'a str>,
}

impl<'a> FailingCase<'a> {
    /// The case of a line, `LEAST CASE` or `LEAST CASE or OUTPUT`.
    fn parse(line: &'a str) -> Option<FailingCase<'a>> {
        let (least, rest) = line.split_once(" ")?;
        let (words, refused) = match rest.split_once(" or ") {
            Some((words, name)) => (words, Some(name)),
            None => (rest, None),
        };
        Some(FailingCase {
            least: least.parse().ok()?,
            case: Case::parse(words)?,
            refused,
        })
    }

    /// Whether each of these runs ends as it is to, and gives its memory back.
    fn all_end<R: Threads + Wait + Sync + AllocGlobal>(
        &self,
        rt: &R,
        input: &[u8],
        runs: &[Run<'_>],
    ) -> Result<bool, AllocError> {
        let mut right = true;
        for each in runs {
            let heap = Heap::new(rt.alloc(), Refusal::Never);
            let outcome = run(rt, &heap, self.case.command, input, each.streams)?;
            let ends = outcome.end() == each.end && outcome.is_flushed();
            right = ends && heap.live() == 0 && right;
        }
        Ok(right)
    }

    /// Refuses each request in turn. Whether the run goes on where that is the block's, if it asks for one, and ends for want of memory at every other, before any of its output is written if that is no longer than a piece. It gives its memory back.
    fn all_are_refused<R: Threads + Wait + Sync + Files + Print + AllocGlobal>(
        &self,
        rt: &R,
        input: &[u8],
        text: &[u8],
    ) -> io::Result<bool> {
        let (name, told) = match self.refused {
            Some(name) => (name, file(rt, name)?),
            None => (self.case.written, Vec::new(rt.alloc())),
        };
        let (mut blocks, mut begun) = (0u64, false);
        for number in 1..MANY {
            let heap = Heap::new(rt.alloc(), Refusal::Nth(number));
            let outcome = run(rt, &heap, self.case.command, input, SOUND)?;
            let end = outcome.end();
            if heap.live() != 0 {
                return Ok(false);
            }
            if heap.requests() < number {
                let is_seen = begun == (PIECE < text.len())
                    && blocks == u64::from(self.refused.is_some());
                return Ok(is_seen && self.least < number && end == end_of(0, text));
            }
            if wants_memory(end, text) {
                begun = begun || !end.output.is_empty();
            } else if end == end_of(0, &told) {
                blocks = blocks.wrapping_add(1);
            } else {
                let line = first_other_line(&told, end.output);
                println!(rt; "{name}, line {line}")?;
                return Ok(false);
            }
        }
        Ok(false)
    }
}

/// Whether a run of this output ends for want of memory, with a beginning of it written.
fn wants_memory(end: End<'_>, text: &[u8]) -> bool {
    end.status == 3 && end.faults == "no memory\n".as_bytes() && text.starts_with(end.output)
}

/// In how many runs beside its own the case of this line agrees, if it does.
pub fn failing_runs<R: Threads + Wait + Sync + Files + Print + AllocGlobal>(
    rt: &R,
    line: &str,
) -> io::Result<Option<usize>> {
    let Some(failing) = FailingCase::parse(line) else {
        return Ok(None);
    };
    let case = failing.case;
    let (input, text) = (case.input(rt)?, case.text(rt)?);
    let (streams, reads) = case.streams(&input);
    let end = end_of(case.status, &text);
    let runs = Run { streams, end }.failing(rt.alloc(), reads)?;
    let right = case.agrees(rt)?
        && failing.all_end(rt, &input, &runs)?
        && (case.status != 0 || failing.all_are_refused(rt, &input, &text)?);
    Ok(right.then_some(runs.len()))
}
