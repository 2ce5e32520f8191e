//! Laws of a channel: a queue, and two eventcounts by which receivers wait for items and senders for room. Each function is there for its contract alone, which holds of every run of
//! any number of parties, from an open and empty queue of any capacity.
//!
//! A party's call has an effect on the queue, at one step, and then notifies: one receiver of an item that came in, one sender of an item that a pop took, and all of both of a close. A
//! party that waits takes a ticket, tries, and sleeps where its try fails. The machine lets a party do more than a thread does, as to be at a step of each eventcount at once: the laws
//! hold of these runs too.
#![tactic(auto)]

ghost use Rattle.law_channel.specs.Examples.{Examples};
ghost use Rattle.law_channel.specs.Laws.{IsOneHistory, EachHistoryRuns, NoItemWaits, NoRoomWaits, NoCloseIsSleptThrough};

/// What the parties' calls do to the queue is one history of it, and the queue is what that history leaves.
pub fn queue_has_one_history<T>()
    ensures { IsOneHistory T }
{}

/// Each history of the queue is that of a run.
pub fn each_history_runs<T>()
    ensures { EachHistoryRuns T }
{}

/// While a receiver sleeps, the queue has at most as many items as there are receivers that were woken and have not tried again, and sends whose notify has not ended; or at most as many
/// receivers sleep as there are such sends; or the queue is closed, and a notify of all has not ended.
///
/// Of a run in which a receiver slept on a ticket from which `EVENTS` had gone on, by 2^32 or more, nothing is said.
pub fn no_item_waits<T>()
    ensures { NoItemWaits T }
{}

/// While a sender sleeps and the queue is open, it has a capacity, and has room for at most as many items as there are senders that were woken and have not tried again, and receives whose
/// notify has not ended; or at most as many senders sleep as there are such receives. An item that is on its way in takes room.
///
/// Of a run in which a sender slept on a ticket from which `EVENTS` had gone on, by 2^32 or more, nothing is said.
pub fn no_room_waits<T>()
    ensures { NoRoomWaits T }
{}

/// Once the queue is closed no receiver and no sender sleeps, unless the party that closed it has not ended its notify of all at that side.
///
/// Of a sleeper with a ticket from which `EVENTS` went on by 2^32 or more before it parked, nothing is said.
pub fn no_close_is_slept_through<T>()
    ensures { NoCloseIsSleptThrough T }
{}

/// Short runs: a sender sleeps and is woken by a receive, a receiver by a send and by a close, and a sender with a ticket closes.
pub fn examples()
    ensures { Examples }
{}
