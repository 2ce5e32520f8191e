//! Laws of the histories of queues, on which a queue's users rely. Each function is there for its contract alone, which holds of all queues.

ghost use Rattle.queue_laws.specs.History.Histories.{KeepsAll, KeepsOrder, ClosesOnce, EndsOnceDrained, EndsForParties};

/// Each accepted item was taken by one pop, was displaced by one forced push, or is still in the list; an item on its way in is not accepted yet.
///
/// The items that were handed in are, in their order, those that went out, those of the list, and the one on its way in.
pub fn keeps_all<T>()
    ensures { KeepsAll T }
{}

/// Items leave in the order in which they were appended.
pub fn keeps_order<T>()
    ensures { KeepsOrder T }
{}

/// A history closes its queue once at most, by a close or of itself, and the queue is closed after it if and only if it did.
pub fn closes_once<T>()
    ensures { ClosesOnce T }
{}

/// Where a pop may answer that the queue is closed, nothing happens any more: no item leaves or is appended.
pub fn ends_once_drained<T>()
    ensures { EndsOnceDrained T }
{}

/// A party that has seen all of a history after which a pop could answer `Closed` makes no call that gives an item or appends one.
pub fn ends_for_parties<T>()
    ensures { EndsForParties T }
{}
