//! What the calling thread does where a thread cannot be started.

/// What the calling thread does with its own party where not all threads could be started.
#[derive(Clone, Copy, Debug, PartialEq)]
pub enum OnRefusal {
    /// It closes the queue, so that threads end which wait for others.
    CloseQueue,
    /// Nothing: each thread ends by itself.
    GoOn,
}
