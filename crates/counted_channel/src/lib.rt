//! Channels over shared queues: they count their senders and their receivers, and the last of either side closes the queue.
#![tactic(auto)]

pub mod calls;
mod counting;
mod either;
mod ends;
mod gated;
mod items;
mod opening;
mod polling;
mod sides;
mod timed;
mod tries;
mod waking;

pub use crate::calls::{Disconnected, SendError};
pub use counting::MAX_ENDS;
pub use either::ChannelEnd;
pub use ends::Channel;
pub use items::Items;
pub use opening::{channel, channel_with_futures};
pub use polling::{PolledRecv, PolledSend, PollingReceiver};
pub use sides::{Receiver, Sender};
