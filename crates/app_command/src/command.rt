//! The whole program as a function of its arguments, its input and its two outputs.
ghost use Rattle.std.specs.Prelude.{◌≡◌, ◌<◌, map, string_bytes, MatchResult};
ghost use Rattle.app_text.specs.declared.faults.Fault.TheVariants as fault;
ghost use Rattle.app_text.specs.Faults.{fault_status};
ghost use Rattle.app_threads.specs.declared.sharing.Sharing.TheVariants as sharing;
ghost use Rattle.app_threads.specs.declared.verdict.Verdict.TheVariants as verdict;
ghost use Rattle.app_command.specs.Ends.{IsEnd, IsDone, IsFaultOf};

use crate::replay::replay;
use crate::script::script;
use app_text::args::{Mode, parse_mode};
use app_text::faults::Fault;
use app_threads::channel::channel;
use app_threads::handshake::handshake;
use app_threads::limit::NO_LIMIT;
use app_threads::sharing::{Ran, Sharing};
use app_threads::threads::threads;
use app_threads::verdict::Verdict;
use std::alloc::Allocator;
use std::io::{Read, Write};
use std::sync::Wait;
use std::thread::Threads;

/// The status to end with, and what the threads of the run shared.
#[derive(Drop)]
pub struct Exit {
    pub status: u8,
    pub sharing: Sharing,
}

/// Does what the arguments after the program's name say, and answers the status to end with. Hands on what threads shared.
///
/// Scripts and replays take their memory of `alloc`. Threads are started, and wait, in the modes `threads`, `handshake` and `channel` alone, which take theirs of
/// the allocator of `rt`. A fault is told on `faults`. Where it cannot be written there, the status is the same.
pub fn command<R: Threads + Wait + Sync + AllocGlobal, A: Allocator, I: Read, O: Write, F: Write>(
    rt: &R,
    alloc: &A,
    args: Vec<String>,
    input: &mut I,
    output: &mut O,
    faults: &mut F,
) -> Exit
    ensures end { IsEnd (map string_bytes args.items) result.sharing
        (I.remaining input.old) (O.contents output.old) (O.contents output.new) result.status }
    ensures quiet { result.status < 2 → faults.new ≡ faults.old }
{
    let Ran { end, sharing } = run(rt, alloc, &args, input, output);
    let status = match end {
        Ok(verdict) => verdict.status(),
        Err(fault) => tell(fault, faults),
    };
    Exit { status, sharing }
}

/// Tells that there was no memory for the arguments, and answers the status to end with.
pub fn lack_memory<F: Write>(faults: &mut F) -> u8
    ensures { result ≡ fault_status fault.NoMemory }
{
    tell(Fault::NoMemory, faults)
}

// Tells of a fault, and answers the status to end with.
fn tell<F: Write>(fault: Fault, faults: &mut F) -> u8
    ensures { result ≡ fault_status fault }
{
    let _ = writeln!(faults, "{fault}");
    fault.status()
}

// Does what the arguments say.
fn run<R: Threads + Wait + Sync + AllocGlobal, A: Allocator, I: Read, O: Write>(
    rt: &R,
    alloc: &A,
    args: &[String],
    input: &mut I,
    output: &mut O,
) -> Ran
    ensures { MatchResult result.end
        (IsDone (map string_bytes args.now) result.sharing
        (I.remaining input.old) (O.contents output.old) (O.contents output.new))
        (IsFaultOf (map string_bytes args.now) result.sharing
        (I.remaining input.old) (O.contents output.old) (O.contents output.new)) }
{
    let mode = match parse_mode(args) {
        Some(mode) => mode,
        None => return alone(Err(Fault::Usage)),
    };
    match mode {
        Mode::Script(kind) => alone(shown(script(alloc, kind, input, output))),
        Mode::Replay(kind, parties) => alone(shown(replay(alloc, kind, parties, input, output))),
        Mode::Threads(load) => threads(rt, rt.alloc(), load, NO_LIMIT, output),
        Mode::Handshake => handshake(rt, rt.alloc(), NO_LIMIT, output),
        Mode::Channel(load) => channel(rt, rt.alloc(), load, NO_LIMIT, output),
    }
}

// A run without threads.
fn alone(end: Result<Verdict, Fault>) -> Ran
    ensures { result ≡ record { end = end; sharing = sharing.Nothing } }
{
    Ran {
        end,
        sharing: Sharing::Nothing,
    }
}

// What a run has shown that can only end well.
fn shown(end: Result<(), Fault>) -> Result<Verdict, Fault>
    ensures { MatchResult end (λ _. result ≡ Ok verdict.Right) (λ why. result ≡ Err why) }
{
    match end {
        Ok(()) => Ok(Verdict::Right),
        Err(fault) => Err(fault),
    }
}
