//! In which order the parties go on.

/// A party goes on: by a step of its call, or by the beginning of its next.
#[derive(Clone, Copy, Drop)]
pub struct Move {
    /// The party's number.
    pub party: usize,
    /// Whether the step's request for a block, if it makes one, is granted.
    pub granted: bool,
}
