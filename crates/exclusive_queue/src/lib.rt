//! Closable queues with one owner, first in first out.
#![tactic(auto)]

mod calls;
pub mod exclusive;
pub mod store;
pub mod text;

pub use exclusive::Exclusive;
pub use own_cells::slot::OwnSlot;
pub use queue_steps::errors::{ForcePushError, PopError, PushError};
pub use queue_steps::{errors as errors, model as model, steps as steps};
pub use store::{Store, run};
