//! Laws of the abstract queue. Each function is there for its contract alone, which holds of all queues.
ghost use Rattle.queue_steps.specs.Legal.{SequentialStands, KeepsSound};
ghost use Rattle.queue_steps.specs.Laws.{StaysClosed, StaysWithin};
ghost use Rattle.queue_steps.specs.Shares.{SharesAddUp};
ghost use Rattle.queue_steps.specs.SequentialCalls.{WholeCalls};

/// Each line of the table of one owner stands in a legal history, with a reply that is right there.
pub fn sequential_stands<T>()
    ensures { SequentialStands T }
{}

/// What holds of a queue with one owner between its calls holds after each call of the table.
pub fn keeps_sound<T>()
    ensures { KeepsSound T }
{}

/// Once closed, always closed: no effect opens a queue.
pub fn stays_closed<T>()
    ensures { StaysClosed T }
{}

/// A queue never holds more items than its capacity.
pub fn stays_within<T>()
    ensures { StaysWithin T }
{}

/// A shared call of a party that has all of the share is a call of one owner: its reply and the state that it leaves are the table's.
pub fn whole_calls<T>()
    ensures { WholeCalls T }
{}

/// Shares add up, and two halves of a share are that share.
pub fn shares_add_up()
    ensures { SharesAddUp }
{}
