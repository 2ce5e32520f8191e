//! The ends of a channel, each with its share in keeping the channel, so that no call takes both. An end that is dropped is ended.
#![tactic(auto)]

mod ended;
mod handle;
mod into_iter;
mod iter;
mod opening;
mod owed;
mod receiver;
mod sender;

pub use concurrent_queue::{Exclusive, PopError, PushError};
pub use counted_channel::{Disconnected, SendError};
pub use ended::{Ended, Unfinished};
pub use handle::{Handle, Receiver, Sender};
pub use into_iter::IntoIter;
pub use iter::{Iter, TryIter};
pub use opening::{bounded, unbounded};
