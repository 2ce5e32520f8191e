//! Receivers in futures.
ghost use Rattle.std.specs.Prelude.{◌≡◌, [], true, false, Some, MatchResult};
ghost use Rattle.std.specs.Arc.{arc_value};
ghost use Rattle.std.specs.Result.{result_ok};
ghost use Rattle.futures.specs.Task.{Covers, Keeps};
ghost use Rattle.futures.specs.Poll.{IfReady, OnPending};
ghost use Rattle.queue_steps.specs.declared.model.Call.TheVariants as call;
ghost use Rattle.counted_channel.specs.Channel.{IsEndOf, ChannelCall, received};
ghost use Rattle.counted_channel.specs.Receiving.{Received};
ghost use Rattle.counted_channel.specs.Polling.{EndWaited, HasReceived};

use crate::owed::Owed;
use channel_handle::{Disconnected, Handle, Receiver};
use counted_channel::calls::Items;
use counted_channel::{Channel, PolledRecv, PollingReceiver};
use futures::task::{Context, Poll};
use futures::{Future, Stream};
use std::mem;
use std::sync::Arc;
use waker_list::{Entry, Place, Spot, WakerList};

/// A receiver in futures: a stream of the items that come. It ends where the channel is closed and empty.
///
/// A receiver that is dropped is ended.
pub struct Incoming<T: Drop> {
    channel: Arc<Channel<T>>,
    list: Arc<WakerList<Items>>,
    owed: Owed<PollingReceiver<T>>,
    spot: Spot<Items>,
    ghost of: { IsEndOf owed.end.end (arc_value channel) },
    ghost listed: { (arc_value channel).receivers ≡ Some (arc_value list).source.id },
    ghost at: { spot.source.value.id ≡ (arc_value list).source.id },
}

/// Receives the next item, from where the future is at the list.
fn poll_at<'a, T: Drop>(
    channel: &Channel<T>,
    receiver: &mut PollingReceiver<T>,
    place: Place<'a, Items>,
    cx: &mut Context<'_>,
) -> (Place<'a, Items>, Poll<Result<T, Disconnected>>)
    requires { IsEndOf receiver.old.end channel.now }
    ensures list { result.0.list.now ≡ place.entry.list.now }
    ensures of { IsEndOf receiver.new.end channel.now }
    ensures received { IfReady result.1 (λ answer. ChannelCall receiver.old.end call.Pop (received answer) receiver.new.end × (receiver.new.in_pop ≡ false)) }
    ensures waited { OnPending result.1 (EndWaited receiver.old.end receiver.new.end) }
    ensures registered { OnPending result.1 (Covers cx.new (λ s. s ≡ place.entry.list.now.source.id)) }
    ensures kept { Keeps cx.old cx.new }
{
    let missed = match channel.poll_recv(receiver, place.rise()) {
        PolledRecv::Answered(answer, place) => return (place, Poll::Ready(answer)),
        PolledRecv::Taken(place) => return (place, cx.yield_now()),
        PolledRecv::Busy(look) => return (look.put_off(cx), Poll::Pending),
        PolledRecv::Empty(missed) => missed,
    };
    let again = match missed.enter(cx) {
        Entry::Wait(place) => return (place, Poll::Pending),
        Entry::Look(again) => again,
    };
    match channel.poll_recv(receiver, again) {
        PolledRecv::Answered(answer, place) => (place, Poll::Ready(answer)),
        PolledRecv::Taken(place) => (place, cx.yield_now()),
        PolledRecv::Busy(look) => (look.put_off(cx), Poll::Pending),
        PolledRecv::Empty(missed) => (missed.rest(), Poll::Pending),
    }
}

impl<T: Drop> Incoming<T> {
    ghost use Rattle.channel_futures.specs.Incoming.{end_of, is_in_pop, source_of, lender_of, SameChannel};

    /// Lets a receiver receive in futures.
    ///
    /// # Errors
    ///
    /// The receiver, where its channel was not opened for ends in futures.
    pub fn of(receiver: Receiver<T>) -> Result<Incoming<T>, Receiver<T>>
        ensures { MatchResult result (λ i. (end_of i ≡ receiver) × (is_in_pop i ≡ false)) (λ r. r ≡ receiver) }
    {
        let (channel, end) = receiver.into_parts();
        match channel.list_of_receivers() {
            Some(list) => Ok(Incoming {
                spot: Spot::new(&list),
                channel,
                list,
                owed: Owed {
                    end: end.into_polling(),
                },
            }),
            None => Err(Handle::from_parts(channel, end)),
        }
    }

    /// The receiver. There is always one before the first poll, and after an answer.
    ///
    /// # Errors
    ///
    /// The stream, whose pop has taken an item that is not written yet.
    pub fn into_receiver(self) -> Result<Receiver<T>, Incoming<T>>
        ensures { MatchResult result (λ r. (r ≡ end_of self) × (is_in_pop self ≡ false)) (λ i. (i ≡ self) × (is_in_pop self ≡ true)) }
    {
        let Incoming {
            channel,
            list,
            owed,
            spot,
        } = self;
        let Owed { end } = owed;
        match end.into_receiver() {
            Ok(end) => {
                Place::at(&list, spot).leave();
                Ok(Handle::from_parts(channel, end))
            }
            Err(end) => Err(Incoming {
                channel,
                list,
                owed: Owed { end },
                spot,
            }),
        }
    }

    /// Receives the next item, or is pending.
    pub fn poll_recv(&mut self, cx: &mut Context<'_>) -> Poll<Result<T, Disconnected>>
        ensures same { SameChannel self.old self.new }
        ensures received { IfReady result (λ answer. ChannelCall (end_of self.old) call.Pop (received answer) (end_of self.new) × (is_in_pop self.new ≡ false)) }
        ensures waited { OnPending result (EndWaited (end_of self.old) (end_of self.new)) }
        ensures registered { OnPending result (Covers cx.new (λ s. s ≡ source_of self.new)) }
        ensures kept { Keeps cx.old cx.new }
    {
        let list = &*self.list;
        let spot = mem::replace(&mut self.spot, Spot::new(list));
        let place = Place::at(list, spot);
        let (place, polled) = poll_at(&self.channel, &mut self.owed.end, place, cx);
        mem::replace(&mut self.spot, place.apart()).end();
        polled
    }

    /// Waits no more. A wake that has come goes on to the next.
    pub fn rest(&mut self)
        ensures { (end_of self.new ≡ end_of self.old) × (is_in_pop self.new ≡ is_in_pop self.old) × SameChannel self.old self.new }
    {
        let list = &*self.list;
        let spot = mem::replace(&mut self.spot, Spot::new(list));
        Place::at(list, spot).leave();
    }

    /// Receives one item. An item that a dropped future's pop has taken, which is not written yet, stays here, and is received next.
    pub fn recv(&mut self) -> Recv<'_, T>
        ensures lender { lender_of result ≡ self.entry.ghost_name }
        ensures same { result.incoming.now ≡ self.old }
    {
        Recv { incoming: self }
    }
}

impl<T: Drop> Drop for Incoming<T> {
    /// Ends its receiver: the last one closes the channel. An item that a pop has taken is dropped.
    fn drop(self) {
        let Incoming {
            channel,
            list,
            owed,
            spot,
        } = self;
        Place::at(&list, spot).leave();
        let Owed { end } = owed;
        let _ = channel.end_polling(end);
    }
}

impl<T: Drop> Stream for Incoming<T> {
    ghost use Rattle.channel_futures.specs.Incoming.{end_of, is_in_pop, source_of, SameChannel};

    type Item = T;

    ghost needs = { λ i s. s ≡ source_of i };

    ghost yields = { λ i. HasReceived (end_of i) };

    fn poll_next(&mut self, cx: &mut Context<'_>) -> Poll<Option<T>>
        ensures same { SameChannel self.old self.new }
        ensures received { IfReady result (λ item. Received (end_of self.old) item (end_of self.new) × (is_in_pop self.new ≡ false)) }
        ensures waited { OnPending result (EndWaited (end_of self.old) (end_of self.new)) }
        ensures registered { OnPending result (Covers cx.new (λ s. s ≡ source_of self.new)) }
        ensures kept { Keeps cx.old cx.new }
    {
        match self.poll_recv(cx) {
            Poll::Ready(answer) => Poll::Ready(answer.ok()),
            Poll::Pending => Poll::Pending,
        }
    }
}

/// The future of [`Incoming::recv`]. Whoever polls it by hand knows what its end becomes; an executor knows what the future gives.
pub struct Recv<'s, T: Drop> {
    incoming: &'s mut Incoming<T>,
}

impl<T: Drop> Drop for Recv<'_, T> {
    ghost use Rattle.channel_futures.specs.Incoming.{end_of, is_in_pop, SameChannel};

    /// It waits no more. Its end stays as the polls have left it.
    fn drop(self)
        ensures end { (end_of self.exit.0.now ≡ end_of self.entry.incoming.now) × (is_in_pop self.exit.0.now ≡ is_in_pop self.entry.incoming.now) }
        ensures same { SameChannel self.entry.incoming.now self.exit.0.now }
    {
        let Recv { incoming } = self;
        incoming.rest();
    }
}

impl<T: Drop> Future for Recv<'_, T> {
    ghost use Rattle.channel_futures.specs.Incoming.{end_of, is_in_pop, source_of, lender_of, SameChannel};

    type Output = Result<T, Disconnected>;

    ghost needs = { λ f s. s ≡ source_of f.incoming.now };

    ghost gives = { λ f answer. HasReceived (end_of f.incoming.now) [] (result_ok answer) };

    fn poll(&mut self, cx: &mut Context<'_>) -> Poll<Result<T, Disconnected>>
        ensures lender { lender_of self.new ≡ lender_of self.old }
        ensures same { SameChannel self.old.incoming.now self.new.incoming.now }
        ensures received { IfReady result (λ answer. ChannelCall (end_of self.old.incoming.now) call.Pop (received answer) (end_of self.new.incoming.now) × (is_in_pop self.new.incoming.now ≡ false)) }
        ensures waited { OnPending result (EndWaited (end_of self.old.incoming.now) (end_of self.new.incoming.now)) }
        ensures registered { OnPending result (Covers cx.new (λ s. s ≡ source_of self.new.incoming.now)) }
        ensures kept { Keeps cx.old cx.new }
    {
        self.incoming.poll_recv(cx)
    }
}
