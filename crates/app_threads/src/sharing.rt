//! What the threads of a run shared, and how it ended.
use crate::crew::Queue;
use crate::verdict::Verdict;
use app_text::faults::Fault;
use concurrent_queue::Party;
use counted_channel::Channel;

/// A queue that threads shared, and the party that all of theirs have become.
#[derive(Drop)]
pub struct EndedQueue {
    pub queue: Queue,
    pub party: Party<u64>,
}

/// A channel all of whose ends have ended, and the party that all of theirs have become.
#[derive(Drop)]
pub struct EndedChannel {
    pub channel: Channel<u64>,
    pub party: Party<u64>,
}

/// What the threads of a run shared.
#[derive(Drop)]
pub enum Sharing {
    /// Nothing: the run started no threads, or not all of them did their part.
    Nothing,
    /// The queue through which they counted.
    Counted(EndedQueue),
    /// The two queues by which two threads handed an item to each other: there, and back.
    Met(EndedQueue, EndedQueue),
    /// The channel through which they counted.
    Ended(EndedChannel),
}

/// How a run ended, and what its threads shared.
#[derive(Drop)]
pub struct Ran {
    /// What it has shown, or why it did not come to its end.
    pub end: Result<Verdict, Fault>,
    pub sharing: Sharing,
}
