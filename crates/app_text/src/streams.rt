//! All of the input, and all of the output, at once or in pieces.
ghost use Rattle.std.specs.Prelude.{◌≡◌, ◌⊎◌, ⊤, List, ℕ, ◌+◌, ◌≤◌, [], ◌++◌, length, vec_len, vec_capacity, IfOk, MatchResult, OnErr};
ghost use Rattle.std.specs.Fmt.{decimal};
ghost use Rattle.std.specs.Io.KnownBytes.{Appends, Keeps};
ghost use Rattle.app_text.specs.declared.faults.Fault.TheVariants as fault;
ghost use Rattle.app_text.specs.Streams.{IsBegun, IsInput, Puts};

use crate::faults::Fault;
use itoa::Buffer;
use std::alloc::{AllocError, Allocator};
use std::io::{ErrorKind, Read, Write};
use std::marker::Model;

/// How many bytes of an output are held before they are written.
pub const PIECE_BYTES: usize = 65_536;

const _: () = prove!(PIECE_BYTES == 65_536);

/// All of the input.
pub fn read_input<A: Allocator, I: Read>(alloc: A, input: &mut I) -> Result<Vec<u8, A>, Fault>
    ensures { MatchResult result
        (λ bytes. IsInput (I.remaining input.old) bytes.items)
        (λ why. (why ≡ fault.NoMemory) ⊎ (why ≡ fault.InputFailed)) }
{
    let mut bytes = Vec::new(alloc);
    match input.read_to_end(&mut bytes) {
        Ok(_) => Ok(bytes),
        Err(error) if error.kind() == ErrorKind::OutOfMemory => Err(Fault::NoMemory),
        Err(_) => Err(Fault::InputFailed),
    }
}

/// Writes all of the output.
///
/// # Errors
///
/// `OutputFailed`; a beginning of the text may be written then.
pub fn write_output<O: Write>(output: &mut O, text: &[u8]) -> Result<(), Fault>
    ensures written { MatchResult result
        (λ _. Appends (O.contents output.old) (O.contents output.new) text.now)
        (λ why. why ≡ fault.OutputFailed) }
    ensures begun { OnErr result (IsBegun (O.contents output.old) (O.contents output.new) text.now) }
{
    write_text(output, text)?;
    finish(output)
}

// Hands a writer all of a text.
fn write_text<O: Write>(output: &mut O, text: &[u8]) -> Result<(), Fault>
    ensures written { MatchResult result
        (λ _. Appends (O.contents output.old) (O.contents output.new) text.now)
        (λ why. why ≡ fault.OutputFailed) }
    ensures begun { OnErr result (IsBegun (O.contents output.old) (O.contents output.new) text.now) }
{
    let mut rest = text;
    for _ in 0..u64::MAX {
        if rest.is_empty() {
            return Ok(());
        }
        match output.write(rest) {
            Ok(0) => return Err(Fault::OutputFailed),
            Ok(count) => rest = &rest[count..],
            Err(error) if error.kind() == ErrorKind::Interrupted => {}
            Err(_) => return Err(Fault::OutputFailed),
        }
    }
    Err(Fault::OutputFailed)
}

// Has a writer hand on what it took.
fn finish<O: Write>(output: &mut O) -> Result<(), Fault>
    ensures kept { Keeps (O.contents output.old) (O.contents output.new) }
    ensures why { MatchResult result (λ _. ⊤) (λ why. why ≡ fault.OutputFailed) }
{
    match output.flush() {
        Ok(()) => Ok(()),
        Err(_) => Err(Fault::OutputFailed),
    }
}

/// What is not written yet of an output that is written in pieces, while it is made. Memory is asked for where one is made, and never later.
#[derive(Drop)]
pub struct Pieces<A: Allocator> {
    held: Vec<u8, A>,
}

impl<A: Allocator> Model for Pieces<A> {
    ghost Value = { List ℕ };

    ghost view = { λ pieces. pieces.held.items };
}

impl<A: Allocator> Pieces<A> {
    /// Nothing is held yet.
    pub fn new(alloc: A) -> Result<Pieces<A>, AllocError>
        ensures { IfOk result (λ pieces. pieces ≡ []) }
    {
        let held = Vec::with_capacity(alloc, PIECE_BYTES)?;
        Ok(Pieces { held })
    }

    /// Puts a text behind what is held, and writes that first where there is no room.
    ///
    /// # Errors
    ///
    /// `OutputFailed`; a beginning of what was held and of the text may be written then, and what is held is of no use any more.
    #[inline]
    pub fn put<O: Write>(&mut self, text: &[u8], output: &mut O) -> Result<(), Fault>
        ensures { Puts self.old text.now self.new (O.contents output.old) (O.contents output.new) result }
    {
        if text.len() > self.held.capacity() - self.held.len() {
            return self.put_behind(text, output);
        }
        append(&mut self.held, text);
        Ok(())
    }

    // Writes what is held, and then puts a text, for which there is no room behind it.
    #[cold]
    #[inline(never)]
    fn put_behind<O: Write>(&mut self, text: &[u8], output: &mut O) -> Result<(), Fault>
        ensures { Puts self.old text.now self.new (O.contents output.old) (O.contents output.new) result }
    {
        write_text(output, &self.held)?;
        self.held.clear();
        if text.len() > self.held.capacity() {
            return write_text(output, text);
        }
        append(&mut self.held, text);
        Ok(())
    }

    /// Puts the decimal digits of a number behind what is held, as `put` does.
    #[inline]
    pub fn put_number<O: Write>(&mut self, number: u64, output: &mut O) -> Result<(), Fault>
        ensures { Puts self.old (decimal number) self.new (O.contents output.old) (O.contents output.new) result }
    {
        let mut digits = Buffer::new();
        self.put(digits.format(number).as_bytes(), output)
    }

    /// Writes what is held: the output is at its end.
    ///
    /// # Errors
    ///
    /// `OutputFailed`; a beginning of what was held may be written then.
    pub fn end<O: Write>(self, output: &mut O) -> Result<(), Fault>
        ensures written { MatchResult result
            (λ _. Appends (O.contents output.old) (O.contents output.new) self)
            (λ why. why ≡ fault.OutputFailed) }
        ensures begun { OnErr result (IsBegun (O.contents output.old) (O.contents output.new) self) }
    {
        write_output(output, &self.held)
    }
}

// Puts a text behind another, with room for it.
#[inline]
fn append<A: Allocator>(held: &mut Vec<u8, A>, text: &[u8])
    requires { vec_len held.old + length text.now ≤ vec_capacity held.old }
    ensures { held.new.items ≡ held.old.items ++ text.now }
{
    let Ok(()) = held.extend_from_slice(text) else {
        unreachable!()
    };
}
