//! Runs of a program: what they are given, and how they are to end.
use crate::streams::{Flow, WHOLE, Writer};
use std::alloc::{AllocError, Global};

/// How the three streams of a run move their bytes.
#[derive(Clone, Copy)]
pub struct Streams {
    /// The input.
    pub input: Flow,
    /// The output.
    pub output: Flow,
    /// Where faults are told.
    pub faults: Flow,
}

/// Streams that do not fail.
pub const SOUND: Streams = Streams {
    input: WHOLE,
    output: WHOLE,
    faults: WHOLE,
};

/// The status that a run ends with, and what it writes.
#[derive(Clone, Copy, Debug, PartialEq)]
pub struct End<'a> {
    /// The status.
    pub status: u8,
    /// All that is written to the output.
    pub output: &'a [u8],
    /// All that is told of a fault.
    pub faults: &'a [u8],
}

impl<'a> End<'a> {
    /// The run ends well, and writes this.
    pub fn right(output: &'a str) -> End<'a> {
        End {
            status: 0,
            output: output.as_bytes(),
            faults: b"",
        }
    }

    /// The run ends with this status, and tells this fault alone.
    pub fn fault(status: u8, fault: &'a str) -> End<'a> {
        End {
            status,
            output: b"",
            faults: fault.as_bytes(),
        }
    }
}

/// What a run wrote, and the status that it ended with.
#[derive(Drop)]
pub struct Outcome {
    /// The status.
    pub status: u8,
    /// What took its output.
    pub output: Writer,
    /// What was told of a fault.
    pub faults: Writer,
}

impl Outcome {
    /// How the run ended.
    pub fn end(&self) -> End<'_> {
        End {
            status: self.status,
            output: self.output.taken(),
            faults: self.faults.taken(),
        }
    }

    /// Whether the run flushed all of its output, if it ended well.
    pub fn is_flushed(&self) -> bool {
        self.status != 0 || self.output.flushed() == self.output.taken().len()
    }
}

/// The words of a line of arguments.
///
/// # Errors
///
/// Where there is no memory for them.
pub fn words(alloc: Global, line: &str) -> Result<Vec<String>, AllocError> {
    let mut words = Vec::new(alloc);
    for word in line.split_whitespace() {
        words.push(String::from_str(alloc, word)?)?;
    }
    Ok(words)
}
