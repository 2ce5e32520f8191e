//! How far a call is.
use queue_steps::steps::{Answer, Local};

/// Where a call stands that is on its way, with the answer to its last operation.
///
/// The value that the call carries stays in one place, which each step is lent: as a part of the progress it would be copied from step to step.
#[derive(Drop)]
pub struct Progress<B> {
    /// Where it stands.
    pub local: Local<B>,
    /// The answer to its last operation.
    pub answer: Answer<B>,
}
