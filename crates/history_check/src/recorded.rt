//! What was recorded of calls, and an order of their effects.
use queue_steps::model::{Call, Reply};

/// The queue that a history is judged by.
#[derive(Clone, Copy)]
pub struct Rules {
    /// Its capacity, if it has one.
    pub cap: Option<usize>,
    /// Whether a forced push that displaces is one step. It is in any case where the capacity is 1.
    pub at_once: bool,
}

/// What was recorded, in the order of time.
#[derive(Clone, Copy)]
pub enum Event {
    /// The party begins the call.
    Begin(usize, Call<u64>),
    /// The call that the party is in ends with this reply.
    End(usize, Reply<u64>),
}

/// How far a call is.
#[derive(Clone, Copy)]
pub enum Way {
    /// It has no effect and no reply yet; whether the queue was open when it began.
    Waiting(Call<u64>, bool),
    /// It has taken the front off a full queue, and its own item is on its way in. The reply that it will get.
    Halfway(Reply<u64>),
    /// It has this reply.
    Answered(Reply<u64>),
}

/// What happens next in an order of the calls.
#[derive(Clone, Copy)]
pub enum Move {
    /// The next recorded event.
    Event,
    /// The party's call finds this reply right, and has no effect.
    See(usize, Reply<u64>),
    /// The party's call has its one effect, and gets this reply.
    Act(usize, Reply<u64>),
    /// The party's call takes the front off a full queue, by the first of its two effects. It will get this reply.
    Part(usize, Reply<u64>),
    /// The item of the party's call arrives, by the second.
    Arrive(usize),
    /// The party's call takes the front off a full queue, and its item arrives, at once. It gets this reply.
    Displace(usize, Reply<u64>),
}
