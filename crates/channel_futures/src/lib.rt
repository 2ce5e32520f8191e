//! The ends of a channel in futures: a receiver is a stream, and a sender a sink. A future that waits takes no processor time, and one that is dropped hands its wake on.
#![tactic(auto)]

mod incoming;
mod opening;
mod outgoing;
mod owed;

pub use channel_handle::{Disconnected, Receiver, SendError, Sender};
pub use incoming::{Incoming, Recv};
pub use opening::{bounded, unbounded};
pub use outgoing::{Outgoing, SendOne};
