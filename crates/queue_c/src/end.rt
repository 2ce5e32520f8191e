//! A party with its share in keeping the queue.
ghost use Rattle.std.specs.Prelude.{◌≡◌, ◌<◌, None, Some, IfOk};
ghost use Rattle.std.specs.Arc.{arc_value};
ghost use Rattle.concurrent_queue.specs.Shared.{IsPartyOf};
ghost use Rattle.queue_c.specs.Begins.{Begins};
ghost use Rattle.queue_c.specs.Fits.{IsTurnOf};

use crate::answers::Answer;
use call_driver::gate::Open;
use concurrent_queue::{ConcurrentQueue, Outcome, Party, Pending};
use queue_steps::model::{Call, Reply};
use std::alloc::{AllocError, Global};
use std::sync::Arc;

/// What a party is doing: it is between its calls, or a call of it is pending. Each has a place of its own, so that a call writes only one that it needs.
#[derive(Drop)]
pub(crate) struct Turn {
    /// The party, between its calls.
    party: Option<Party<u64>>,
    /// Its pending call.
    pending: Option<Pending<u64>>,
}

/// A party of a queue of words, and a share in keeping that queue.
#[derive(Drop)]
pub struct End {
    queue: Arc<ConcurrentQueue<u64, Global>, Global>,
    turn: Turn,
    ghost fits: { IsTurnOf turn (arc_value queue) },
}

/// Why a party is not split.
#[derive(Clone, Copy, Drop)]
pub(crate) enum Refusal {
    /// A call is pending.
    Pending,
    /// There are as many parties as there may be.
    TooMany,
    /// There is no memory for the other.
    NoMemory,
}

/// What has become of a queue that was to be ended.
#[derive(Drop)]
pub(crate) enum Finished {
    /// It was the only party, and the queue had so many items.
    Left(usize),
    /// There are no others, but some were dropped. The queue is gone.
    Lost,
    /// There are others.
    Shared(End),
    /// A call is pending.
    Busy(End),
}

/// Begins a call of this party, which is kept if it is pending. `W` tells the calls apart.
#[inline(always)]
fn begin<W>(
    shared: &ConcurrentQueue<u64>,
    party: Party<u64>,
    call: Call<u64>,
    kept: &mut Option<Pending<u64>>,
) -> Option<(Party<u64>, Reply<u64>)>
    requires is_party { IsPartyOf party shared.now }
    requires none { kept.old ≡ None }
    ensures { Begins party call result kept.new }
{
    if call.is_wait_free() {
        let mut party = party;
        let reply = shared.answer_wait_free(&Open, &mut party, call);
        return Some((party, reply));
    }
    match shared.begin_into::<W>(party, call, kept) {
        Some((party, reply)) => Some((party, reply)),
        None => None,
    }
}

impl Turn {
    /// The party is between its calls.
    fn resting(party: Party<u64>) -> Turn
        ensures { (result.party ≡ Some party) × (result.pending ≡ None) }
    {
        Turn {
            party: Some(party),
            pending: None,
        }
    }

    /// This call of it is pending.
    fn calling(pending: Pending<u64>) -> Turn
        ensures { (result.party ≡ None) × (result.pending ≡ Some pending) }
    {
        Turn {
            party: None,
            pending: Some(pending),
        }
    }
}

impl End {
    ghost use Rattle.queue_c.specs.Ends.{IsRoom, IsNew, Takes, Resumes, SplitsEnd, FinishesEnd};

    fn of(alloc: Global, queue: ConcurrentQueue<u64>, party: Party<u64>) -> Result<End, AllocError>
        requires { IsPartyOf party queue }
        ensures { IfOk result (λ e. (arc_value e.queue ≡ queue) × (e.turn.party ≡ Some party)) }
    {
        match Arc::new(alloc, queue) {
            Ok(queue) => Ok(End {
                queue,
                turn: Turn::resting(party),
            }),
            Err(_) => Err(AllocError),
        }
    }

    /// The first party of a new queue of this capacity, or of one without a limit.
    pub(crate) fn new(alloc: Global, cap: Option<usize>) -> Result<End, AllocError>
        requires { IsRoom cap }
        ensures { IfOk result (λ e. IsNew cap e) }
    {
        match cap {
            Some(cap) => {
                let (queue, party) = ConcurrentQueue::bounded(alloc, cap)?;
                End::of(alloc, queue, party)
            }
            None => {
                let (queue, party) = ConcurrentQueue::unbounded(alloc)?;
                End::of(alloc, queue, party)
            }
        }
    }

    /// Makes a call where the party is, if none is pending. It never waits, and moves no more than a call that stays pending. `W` tells the calls apart, so that
    /// each has fast steps of its own.
    #[inline(always)]
    pub(crate) fn call<W>(&mut self, call: Call<u64>) -> Answer
        ensures queue { arc_value self.new.queue ≡ arc_value self.old.queue }
        ensures turn { Takes call self.old.turn result self.new.turn }
    {
        let Some(party) = self.turn.party.take() else {
            return Answer::Busy;
        };
        let shared: &ConcurrentQueue<u64> = &self.queue;
        match begin::<W>(shared, party, call, &mut self.turn.pending) {
            Some((party, reply)) => {
                self.turn.party = Some(party);
                Answer::Reply(reply)
            }
            None => Answer::Pending,
        }
    }

    /// Takes the pending call up again. It never waits.
    pub(crate) fn resume(self) -> (End, Answer)
        ensures queue { arc_value result.0.queue ≡ arc_value self.queue }
        ensures turn { Resumes self.turn result.1 result.0.turn }
    {
        let End { queue, turn } = self;
        let Turn { party, pending } = turn;
        let Some(pending) = pending else {
            let turn = Turn {
                party,
                pending: None,
            };
            return (End { queue, turn }, Answer::Idle);
        };
        let shared: &ConcurrentQueue<u64> = &queue;
        match shared.resume(pending) {
            Outcome::Done(party, reply) => {
                let turn = Turn::resting(party);
                (End { queue, turn }, Answer::Reply(reply))
            }
            Outcome::Pending(pending) => {
                let turn = Turn::calling(pending);
                (End { queue, turn }, Answer::Pending)
            }
        }
    }

    /// Splits it in two: itself and the other.
    pub(crate) fn split(self) -> (End, Result<End, Refusal>)
        ensures { SplitsEnd self result.1 result.0 }
    {
        let End { queue, turn } = self;
        let Turn { party, pending } = turn;
        let Some(party) = party else {
            let turn = Turn {
                party: None,
                pending,
            };
            return (End { queue, turn }, Err(Refusal::Pending));
        };
        let Ok(other) = Arc::try_clone(&queue) else {
            let turn = Turn::resting(party);
            return (End { queue, turn }, Err(Refusal::NoMemory));
        };
        let shared: &ConcurrentQueue<u64> = &queue;
        match shared.split(party) {
            Ok((first, second)) => {
                let turn = Turn::resting(first);
                let end = End { queue, turn };
                let queue = other;
                let turn = Turn::resting(second);
                (end, Ok(End { queue, turn }))
            }
            Err(party) => {
                let turn = Turn::resting(party);
                (End { queue, turn }, Err(Refusal::TooMany))
            }
        }
    }

    pub(crate) fn capacity(&self) -> Option<usize>
        ensures { result ≡ (arc_value self.now.queue).cap }
    {
        let queue: &ConcurrentQueue<u64> = &self.queue;
        queue.capacity()
    }

    /// Ends the queue, if this is its only party.
    pub(crate) fn finish(self) -> Finished
        ensures { FinishesEnd self result }
    {
        let End { queue, turn } = self;
        let Turn { party, pending } = turn;
        let Some(party) = party else {
            let turn = Turn {
                party: None,
                pending,
            };
            return Finished::Busy(End { queue, turn });
        };
        match Arc::try_unwrap(queue) {
            Ok(queue) => match queue.finish(party) {
                Ok(exclusive) => Finished::Left(exclusive.len()),
                Err(_) => Finished::Lost,
            },
            Err(queue) => {
                let turn = Turn::resting(party);
                Finished::Shared(End { queue, turn })
            }
        }
    }
}

fn can_be_sent<T: Send>() {}

/// Does nothing. It is proved only where a party may go to another thread, which the header allows.
fn end_can_be_sent() {
    can_be_sent::<End>()
}
