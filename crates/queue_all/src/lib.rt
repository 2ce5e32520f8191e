//! The queues, the steps of their calls, and runs of the machine under one name. `concurrent_queue` has all but the runs, and does not ask for the machine's proofs.
#![tactic(auto)]

pub mod steps;

pub use concurrent_queue::{
    ConcurrentQueue, Exclusive, ForcePushError, NullTestable, Outcome, Party, Pending, PopError,
    PushError, Store, TryForcePushError, TryIter, TryPopError, TryPushError, errors as errors,
    exclusive as exclusive, model as model, run, shared as shared,
};
