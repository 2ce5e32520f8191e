//! The whole program, with the arguments as the system gives them, and how it ends.
ghost use Rattle.app_command.specs.Programs.{IsEndOf};

use crate::command::{Exit, command, lack_memory};
use app_text::words::words_of;
use app_threads::sharing::Sharing;
use std::alloc::Allocator;
use std::env::Args;
use std::io;
use std::io::{Read, Write};
use std::sync::Wait;
use std::thread::Threads;

/// Does what the arguments say, of which the first is the program's name, and answers the status to end with. Hands on what threads shared.
///
/// Arguments for which there is no memory end it as want of memory does, before anything is read or written. Arguments that are no text are wrong ones, as none are.
pub fn program<R: Threads + Wait + Sync + AllocGlobal, A: Allocator, I: Read, O: Write, F: Write>(
    rt: &R,
    alloc: &A,
    given: io::Result<Args>,
    input: &mut I,
    output: &mut O,
    faults: &mut F,
) -> Exit
    ensures { IsEndOf given (I.remaining input.old) (O.contents output.old) (O.contents output.new) result }
{
    match words_of(rt.alloc(), given) {
        Ok(words) => command(rt, alloc, words, input, output, faults),
        Err(_) => Exit {
            status: lack_memory(faults),
            sharing: Sharing::Nothing,
        },
    }
}
