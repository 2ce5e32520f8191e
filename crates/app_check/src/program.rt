//! The checker with the arguments as the system gives them.
ghost use Rattle.std.specs.Process.{exit_status};
ghost use Rattle.app_check.specs.Commands.{IsProgramEnd};

use crate::command::{command, tell};
use crate::faults::Stop;
use app_text::faults::Fault;
use app_text::words::words_of;
use std::alloc::{Allocator, Global};
use std::env::Args;
use std::io;
use std::io::{Read, Write};
use std::process::ExitCode;

/// Does what the arguments say, of which the first is the program's name, and tells how the program ends. Arguments that are no text are wrong ones.
pub fn program<A: Allocator, I: Read, O: Write, F: Write>(
    words: Global,
    alloc: &A,
    given: io::Result<Args>,
    input: &mut I,
    output: &mut O,
    faults: &mut F,
) -> ExitCode
    ensures { IsProgramEnd given (I.remaining input.old) (O.contents output.old) (O.contents output.new) (exit_status result) }
{
    ExitCode::from(status_of(words, alloc, given, input, output, faults))
}

// The status to end with.
fn status_of<A: Allocator, I: Read, O: Write, F: Write>(
    words: Global,
    alloc: &A,
    given: io::Result<Args>,
    input: &mut I,
    output: &mut O,
    faults: &mut F,
) -> u8
    ensures { IsProgramEnd given (I.remaining input.old) (O.contents output.old) (O.contents output.new) result }
{
    match words_of(words, given) {
        Ok(words) => command(alloc, &words, input, output, faults),
        Err(_) => tell(Stop::Fault(Fault::NoMemory), faults),
    }
}
