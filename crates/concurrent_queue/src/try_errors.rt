//! Why a call that never waits was refused. A push's error hands the value back.
ghost use Rattle.std.specs.Prelude.{◌≡◌, ◌↔◌, IsTrue, Some};
ghost use Rattle.std.specs.Fmt.{padded};
ghost use Rattle.concurrent_queue.specs.TryErrors.{try_push_error_text, try_force_push_error_text, try_pop_error_text, try_push_error_value, try_force_push_error_value, IsBusy};

use std::error::Error;
use std::fmt;

/// Why `try_push` refused a value.
#[derive(Clone, Copy, Debug, Drop, PartialEq, Eq)]
pub enum TryPushError<T> {
    /// The queue is full.
    Full(T),
    /// The queue is closed.
    Closed(T),
    /// A block was needed and the allocator refused it.
    NoMemory(T),
    /// Another call was half done, and this one has done nothing.
    Busy(T),
}

impl<T> TryPushError<T> {
    /// The value that was handed in.
    pub fn into_inner(self) -> T
        ensures { result ≡ try_push_error_value self }
    {
        match self {
            TryPushError::Full(value) => value,
            TryPushError::Closed(value) => value,
            TryPushError::NoMemory(value) => value,
            TryPushError::Busy(value) => value,
        }
    }

    /// Whether it would have had to wait.
    pub fn is_busy(&self) -> bool
        ensures { IsTrue result ↔ IsBusy self.now }
    {
        matches!(self, TryPushError::Busy(_))
    }
}

impl<T> fmt::Display for TryPushError<T> {
    ghost output = { λ e. Some (try_push_error_text e) };

    ghost styled_output = { λ e spec. Some (padded spec (try_push_error_text e)) };

    fn fmt<W: fmt::Write>(&self, f: &mut fmt::Formatter<W>) -> fmt::Result {
        match self {
            TryPushError::Full(_) => f.pad("Full"),
            TryPushError::Closed(_) => f.pad("Closed"),
            TryPushError::NoMemory(_) => f.pad("NoMemory"),
            TryPushError::Busy(_) => f.pad("Busy"),
        }
    }
}

impl<T: fmt::Debug + Drop> Error for TryPushError<T> {}

/// Why `try_force_push` refused a value.
#[derive(Clone, Copy, Debug, Drop, PartialEq, Eq)]
pub enum TryForcePushError<T> {
    /// The queue is closed.
    Closed(T),
    /// A block was needed and the allocator refused it.
    NoMemory(T),
    /// Another call was half done, and this one has done nothing.
    Busy(T),
}

impl<T> TryForcePushError<T> {
    /// The value that was handed in.
    pub fn into_inner(self) -> T
        ensures { result ≡ try_force_push_error_value self }
    {
        match self {
            TryForcePushError::Closed(value) => value,
            TryForcePushError::NoMemory(value) => value,
            TryForcePushError::Busy(value) => value,
        }
    }
}

impl<T> fmt::Display for TryForcePushError<T> {
    ghost output = { λ e. Some (try_force_push_error_text e) };

    ghost styled_output = { λ e spec. Some (padded spec (try_force_push_error_text e)) };

    fn fmt<W: fmt::Write>(&self, f: &mut fmt::Formatter<W>) -> fmt::Result {
        match self {
            TryForcePushError::Closed(_) => f.pad("Closed"),
            TryForcePushError::NoMemory(_) => f.pad("NoMemory"),
            TryForcePushError::Busy(_) => f.pad("Busy"),
        }
    }
}

impl<T: fmt::Debug + Drop> Error for TryForcePushError<T> {}

/// Why `try_pop` gave no item.
#[derive(Clone, Copy, Debug, PartialEq, Eq)]
pub enum TryPopError {
    /// The queue is empty.
    Empty,
    /// The queue is empty and closed.
    Closed,
    /// Another call was half done, and this one has done nothing.
    Busy,
}

impl fmt::Display for TryPopError {
    ghost output = { λ e. Some (try_pop_error_text e) };

    ghost styled_output = { λ e spec. Some (padded spec (try_pop_error_text e)) };

    fn fmt<W: fmt::Write>(&self, f: &mut fmt::Formatter<W>) -> fmt::Result {
        match self {
            TryPopError::Empty => f.pad("Empty"),
            TryPopError::Closed => f.pad("Closed"),
            TryPopError::Busy => f.pad("Busy"),
        }
    }
}

impl Error for TryPopError {}
