//! What a channel makes of its queue's answers: what it owes to those that wait, what its last end does to the queue, and what is left of that.

mod awaited;
mod errors;
mod gated;
mod polled;
mod waited;
mod waiters;

pub(crate) use awaited::Awaited;
pub use errors::{Disconnected, SendError};
pub use polled::{PollState, PolledPop, PolledPush};
pub use waited::{ForcePushed, Items, OwesEnd, Popped, Pushed, Room, WaitedQueue};
pub use waiters::{OwesAll, OwesOne, Waiters};
