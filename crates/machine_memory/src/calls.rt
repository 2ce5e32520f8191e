//! A call in progress.
ghost use Rattle.std.specs.Prelude.{◌≡◌, ⊤};

use queue_steps::steps::{Local, Op, Touch};
use std::alloc::AllocError;

/// A call that was begun and not ended: where it stands, what its next step does, and the value that it carries.
#[derive(Copy, Drop)]
pub struct Running<T> {
    /// Where the call stands once its next step is taken.
    pub local: Local<usize>,
    /// What its next step does to a slot.
    pub touch: Touch,
    /// What its next step does then.
    pub op: Op<usize>,
    /// The value that the call carries.
    pub carried: Option<T>,
}

impl<T: Copy> Clone for Running<T> {
    ghost is_clone = { λ x y. y ≡ x };

    ghost is_infallible = { λ _. ⊤ };

    fn clone(&self) -> Result<Running<T>, AllocError> {
        Ok(*self)
    }
}
