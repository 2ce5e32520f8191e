//! For every call but `len`, `is_empty` and `is_full` a displacement is one moment. Each function is there for its contract alone.

ghost use Rattle.queue_laws.specs.Moment.Entries.{HistoriesSettle};
ghost use Rattle.queue_laws.specs.Moment.Examples.{Examples};
ghost use Rattle.queue_laws.specs.Moment.Moments.{AtOnceIsLegal, DisplacesAtOnce};
ghost use Rattle.queue_laws.specs.Moment.Orders.{OrdersAreRuns, SettledIsRun};
ghost use Rattle.queue_laws.specs.Moment.Shared.{SharedCallsAtOnce};

/// Each history settles into one in which nothing is ever on its way in, and what a call is answered is right there too.
pub fn displaces_at_once<T>()
    ensures { DisplacesAtOnce T }
{}

/// So does a history whose effects have an event and a party each, and each call keeps its own effects, within its own events.
pub fn histories_settle<T>()
    ensures { HistoriesSettle T }
{}

/// So each shared call stands in what the history of its queue settles into, between what its party had seen before and what it has seen then.
pub fn shared_calls_at_once<T>()
    ensures { SharedCallsAtOnce T }
{}

/// A history whose displacements are moments is a history.
pub fn at_once_is_legal<T>()
    ensures { AtOnceIsLegal T }
{}

/// Whole calls one after another whose effects are such a history are a run of the table of one owner, so each displacement is a forced push that answers the old item.
pub fn orders_are_runs<T>()
    ensures { OrdersAreRuns T }
{}

/// What a history settles into is such a run itself, of one call for each moment, and ends at what the history leaves once all has arrived.
pub fn settled_is_run<T>()
    ensures { SettledIsRun T }
{}

/// Short histories and what they settle into; and that the law does not hold of `len`.
pub fn examples()
    ensures { Examples }
{}
