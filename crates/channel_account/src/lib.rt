//! A channel whose ends tell what they have sent and received, so that a program's contract can say that each value which was sent came once.
#![tactic(auto)]

mod account;
mod ends;
mod opening;
mod promises;

pub use account::Account;
pub use channel_handle::{Disconnected, Exclusive, SendError, Unfinished};
pub use ends::{Receiver, Sender};
pub use opening::{bounded, unbounded};
pub use promises::{Receives, Sends};
