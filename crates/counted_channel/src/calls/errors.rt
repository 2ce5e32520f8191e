//! Why nothing was sent or received. A refused item is handed back.
ghost use Rattle.std.specs.Prelude.{◌≡◌, Some};
ghost use Rattle.std.specs.Fmt.{padded};
ghost use Rattle.std.specs.IoError.{error_kind};
ghost use Rattle.std.specs.declared.io.ErrorKind.TheVariants as kind;
ghost use Rattle.counted_channel.specs.Errors.{send_error_kind, send_error_text, send_error_value, disconnected_text};

use std::error::Error;
use std::io::ErrorKind;
use std::{fmt, io};

/// Why nothing was sent.
#[derive(Clone, Copy, Debug, Drop, PartialEq, Eq)]
pub enum SendError<T> {
    /// The queue is closed.
    Closed(T),
    /// A block was needed and the allocator refused it.
    NoMemory(T),
}

impl<T> SendError<T> {
    /// The value that was handed in.
    pub fn into_inner(self) -> T
        ensures { result ≡ send_error_value self }
    {
        match self {
            SendError::Closed(value) => value,
            SendError::NoMemory(value) => value,
        }
    }
}

impl<T> fmt::Display for SendError<T> {
    ghost output = { λ e. Some (send_error_text e) };

    ghost styled_output = { λ e spec. Some (padded spec (send_error_text e)) };

    fn fmt<W: fmt::Write>(&self, f: &mut fmt::Formatter<W>) -> fmt::Result {
        match self {
            SendError::Closed(_) => f.pad("Closed"),
            SendError::NoMemory(_) => f.pad("NoMemory"),
        }
    }
}

impl<T: fmt::Debug + Drop> Error for SendError<T> {}

impl<T: Drop> From<SendError<T>> for io::Error {
    ghost from_gives = { λ s e. error_kind e ≡ send_error_kind s };

    fn from(error: SendError<T>) -> io::Error {
        match error {
            SendError::Closed(_) => io::Error::from(ErrorKind::BrokenPipe),
            SendError::NoMemory(_) => io::Error::from(ErrorKind::OutOfMemory),
        }
    }
}

/// Nothing was received: the queue was closed and empty.
#[derive(Clone, Copy, Debug, PartialEq, Eq)]
pub struct Disconnected;

impl fmt::Display for Disconnected {
    ghost output = { λ e. Some disconnected_text };

    ghost styled_output = { λ e spec. Some (padded spec disconnected_text) };

    fn fmt<W: fmt::Write>(&self, f: &mut fmt::Formatter<W>) -> fmt::Result {
        f.pad("Disconnected")
    }
}

impl Error for Disconnected {}

impl From<Disconnected> for io::Error {
    ghost from_gives = { λ d e. error_kind e ≡ kind.BrokenPipe };

    fn from(_error: Disconnected) -> io::Error {
        io::Error::from(ErrorKind::BrokenPipe)
    }
}
