//! What a call asks before each of its operations. A test can hold a call there; every other caller lets it pass.
use queue_steps::steps::Op;

/// Is asked before each operation, and returns.
pub trait Gate {
    fn pass<B: Copy>(&self, op: &Op<B>);
}

/// The gate that holds no one.
pub struct Open;

impl Gate for Open {
    #[inline(always)]
    fn pass<B: Copy>(&self, _op: &Op<B>) {}
}
