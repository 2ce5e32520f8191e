//! Readers and writers that move as few bytes at once as they are told, and fail at any of their calls.
use std::alloc::Global;
use std::io;
use std::io::{ErrorKind, Read, Write};

/// At which of its calls a stream fails, counted from 0, and how.
#[derive(Clone, Copy)]
pub enum Failing {
    /// At none.
    Never,
    /// At each second one, which is to be tried again.
    Interrupted,
    /// At the one of this number, with a fault of this kind.
    At(u64, ErrorKind),
    /// At the one of this number, which takes nothing.
    TakesNothing(u64),
    /// Once it has moved so many bytes, with a fault of this kind.
    Full(usize, ErrorKind),
    /// Where it is flushed.
    AtFlush,
}

impl Failing {
    /// What the call of this number fails with, if it does, after so many bytes.
    fn failure(self, number: u64, moved: usize) -> Option<ErrorKind> {
        match self {
            Failing::Interrupted if number % 2 == 0 => Some(ErrorKind::Interrupted),
            Failing::At(at, kind) if at == number => Some(kind),
            Failing::Full(bytes, kind) if bytes <= moved => Some(kind),
            _ => None,
        }
    }

    /// How many bytes the call of this number may take, after so many.
    fn room(self, number: u64, moved: usize) -> usize {
        match self {
            Failing::TakesNothing(at) if at == number => 0,
            Failing::Full(bytes, _) => bytes.saturating_sub(moved),
            _ => usize::MAX,
        }
    }
}

/// How many bytes a stream moves at once, at most, and how it fails.
#[derive(Clone, Copy)]
pub struct Flow {
    /// The bytes.
    pub most: usize,
    /// The fault.
    pub failing: Failing,
}

impl Flow {
    /// One byte at a time, and fails so.
    pub fn bytewise(failing: Failing) -> Flow {
        Flow { most: 1, failing }
    }
}

/// All bytes at once, with no fault.
pub const WHOLE: Flow = Flow {
    most: usize::MAX,
    failing: Failing::Never,
};

/// Gives its bytes as its flow says.
#[derive(Drop)]
pub struct Reader<'a> {
    rest: &'a [u8],
    reads: u64,
    flow: Flow,
}

impl<'a> Reader<'a> {
    /// Gives these bytes.
    pub fn new(bytes: &'a [u8], flow: Flow) -> Reader<'a> {
        Reader {
            rest: bytes,
            reads: 0,
            flow,
        }
    }
}

impl Read for Reader<'_> {
    fn read(&mut self, buf: &mut [u8]) -> io::Result<usize> {
        let number = self.reads;
        self.reads = number.wrapping_add(1);
        if let Some(kind) = self.flow.failing.failure(number, 0) {
            return Err(io::Error::from(kind));
        }
        let room = buf.len().min(self.flow.most);
        self.rest.read(&mut buf[..room])
    }
}

/// Takes bytes as its flow says.
#[derive(Drop)]
pub struct Writer {
    taken: Vec<u8>,
    flushed: usize,
    writes: u64,
    flow: Flow,
}

impl Writer {
    /// Has taken nothing yet.
    pub fn new(alloc: Global, flow: Flow) -> Writer {
        Writer {
            taken: Vec::new(alloc),
            flushed: 0,
            writes: 0,
            flow,
        }
    }

    /// What it took.
    pub fn taken(&self) -> &[u8] {
        self.taken.as_slice()
    }

    /// How many bytes it had taken when it was flushed.
    pub fn flushed(&self) -> usize {
        self.flushed
    }
}

impl Write for Writer {
    fn write(&mut self, buf: &[u8]) -> io::Result<usize> {
        let number = self.writes;
        self.writes = number.wrapping_add(1);
        let moved = self.taken.len();
        if let Some(kind) = self.flow.failing.failure(number, moved) {
            return Err(io::Error::from(kind));
        }
        let room = self.flow.failing.room(number, moved);
        let count = buf.len().min(self.flow.most).min(room);
        self.taken.extend_from_slice(&buf[..count])?;
        Ok(count)
    }

    fn flush(&mut self) -> io::Result<()> {
        match self.flow.failing {
            Failing::AtFlush => Err(io::Error::from(ErrorKind::StorageFull)),
            _ => {
                self.flushed = self.taken.len();
                Ok(())
            }
        }
    }
}
