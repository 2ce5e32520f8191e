//! Senders in futures.
ghost use Rattle.std.specs.Prelude.{◌≡◌, None, Some, Ok, IsSome, IsSomeAnd, MatchResult};
ghost use Rattle.std.specs.Arc.{arc_value};
ghost use Rattle.futures.specs.Task.{Covers, Keeps};
ghost use Rattle.futures.specs.Poll.{IfReady, OnPending};
ghost use Rattle.futures.specs.Sent.{UnlessFailed};
ghost use Rattle.queue_steps.specs.declared.model.Call.TheVariants as call;
ghost use Rattle.counted_channel.specs.Channel.{End, IsEndOf, ChannelCall, sent};
ghost use Rattle.counted_channel.specs.Polling.{EndWaited};

use crate::owed::Owed;
use channel_handle::{Handle, SendError, Sender};
use counted_channel::calls::Room;
use counted_channel::{Channel, ChannelEnd, PolledSend};
use futures::task::{Context, Poll};
use futures::{Future, Sink};
use std::mem;
use std::sync::Arc;
use waker_list::{Entry, Place, Spot, WakerList};

/// A sender in futures: a sink of items. It holds one item that it has taken and not sent.
///
/// A sender that is dropped is ended.
pub struct Outgoing<T: Drop> {
    channel: Arc<Channel<T>>,
    list: Arc<WakerList<Room>>,
    owed: Owed<counted_channel::Sender<T>>,
    held: Option<T>,
    spot: Spot<Room>,
    ghost of: { IsEndOf owed.end (arc_value channel) },
    ghost listed: { (arc_value channel).senders ≡ Some (arc_value list).source.id },
    ghost at: { spot.source.value.id ≡ (arc_value list).source.id },
}

/// Sends the value, or leaves it in `back`, from where the future is at the list.
fn poll_at<'a, T: Drop>(
    channel: &Channel<T>,
    sender: &mut counted_channel::Sender<T>,
    place: Place<'a, Room>,
    cx: &mut Context<'_>,
    value: T,
    back: &mut Option<T>,
) -> (Place<'a, Room>, Poll<Result<(), SendError<T>>>)
    requires { IsEndOf sender.old channel.now }
    ensures list { result.0.list.now ≡ place.entry.list.now }
    ensures of { IsEndOf sender.new channel.now }
    ensures answered { IfReady result.1 (λ answer. ChannelCall sender.old (call.Push value) (sent answer) sender.new × (back.new ≡ back.old)) }
    ensures waited { OnPending result.1 (EndWaited sender.old sender.new × (back.new ≡ Some value)) }
    ensures registered { OnPending result.1 (Covers cx.new (λ s. s ≡ place.entry.list.now.source.id)) }
    ensures kept { Keeps cx.old cx.new }
{
    let (value, missed) = match channel.poll_send(sender, value, place.rise()) {
        PolledSend::Answered(answer, place) => return (place, Poll::Ready(answer)),
        PolledSend::Busy(value, look) => {
            *back = Some(value);
            return (look.put_off(cx), Poll::Pending);
        }
        PolledSend::Full(value, missed) => (value, missed),
    };
    let again = match missed.enter(cx) {
        Entry::Wait(place) => {
            *back = Some(value);
            return (place, Poll::Pending);
        }
        Entry::Look(again) => again,
    };
    match channel.poll_send(sender, value, again) {
        PolledSend::Answered(answer, place) => (place, Poll::Ready(answer)),
        PolledSend::Busy(value, look) => {
            *back = Some(value);
            (look.put_off(cx), Poll::Pending)
        }
        PolledSend::Full(value, missed) => {
            *back = Some(value);
            (missed.rest(), Poll::Pending)
        }
    }
}

impl<T: Drop> Outgoing<T> {
    ghost use Rattle.channel_futures.specs.Outgoing.{end_of, source_of, lender_of, SameChannel, HeldSent, HasTaken};

    /// Lets a sender send in futures.
    ///
    /// # Errors
    ///
    /// The sender, where its channel was not opened for ends in futures.
    pub fn of(sender: Sender<T>) -> Result<Outgoing<T>, Sender<T>>
        ensures { MatchResult result (λ o. (end_of o ≡ sender) × (o.held ≡ None)) (λ s. s ≡ sender) }
    {
        let (channel, end) = sender.into_parts();
        match channel.list_of_senders() {
            Some(list) => Ok(Outgoing {
                spot: Spot::new(&list),
                channel,
                list,
                owed: Owed { end },
                held: None,
            }),
            None => Err(Handle::from_parts(channel, end)),
        }
    }

    /// The sender, and the item that it has taken and not sent.
    pub fn into_sender(self) -> (Sender<T>, Option<T>)
        ensures { (result.0 ≡ end_of self) × (result.1 ≡ self.held) }
    {
        let Outgoing {
            channel,
            list,
            owed,
            held,
            spot,
        } = self;
        Place::at(&list, spot).leave();
        let Owed { end } = owed;
        (Handle::from_parts(channel, end), held)
    }

    /// Sends the value, or leaves it in `back`.
    fn poll_push(
        &mut self,
        cx: &mut Context<'_>,
        value: T,
        back: &mut Option<T>,
    ) -> Poll<Result<(), SendError<T>>>
        ensures same { SameChannel self.old self.new × (self.new.held ≡ self.old.held) }
        ensures answered { IfReady result (λ answer. ChannelCall (end_of self.old) (call.Push value) (sent answer) (end_of self.new) × (back.new ≡ back.old)) }
        ensures waited { OnPending result (EndWaited (end_of self.old) (end_of self.new) × (back.new ≡ Some value)) }
        ensures registered { OnPending result (Covers cx.new (λ s. s ≡ source_of self.new)) }
        ensures kept { Keeps cx.old cx.new }
    {
        let list = &*self.list;
        let spot = mem::replace(&mut self.spot, Spot::new(list));
        let place = Place::at(list, spot);
        let (place, polled) = poll_at(&self.channel, &mut self.owed.end, place, cx, value, back);
        mem::replace(&mut self.spot, place.apart()).end();
        polled
    }

    /// Sends what it holds.
    pub fn poll_held(&mut self, cx: &mut Context<'_>) -> Poll<Result<(), SendError<T>>>
        ensures same { SameChannel self.old self.new }
        ensures answered { IfReady result (λ answer. HeldSent (end_of self.old) self.old.held answer (end_of self.new) × (self.new.held ≡ None)) }
        ensures waited { OnPending result (EndWaited (end_of self.old) (end_of self.new) × (self.new.held ≡ self.old.held)) }
        ensures taken { UnlessFailed result ((xs : _) → HasTaken self.old xs → HasTaken self.new xs) }
        ensures registered { OnPending result (Covers cx.new (λ s. s ≡ source_of self.new)) }
        ensures kept { Keeps cx.old cx.new }
    {
        self.owed.end.shows_view();
        let Some(value) = self.held.take() else {
            return Poll::Ready(Ok(()));
        };
        let mut back = None;
        let polled = self.poll_push(cx, value, &mut back);
        self.held = back;
        polled
    }

    /// Waits no more. A wake that has come goes on to the next.
    pub fn rest(&mut self)
        ensures { (end_of self.new ≡ end_of self.old) × (self.new.held ≡ self.old.held) × SameChannel self.old self.new }
    {
        let list = &*self.list;
        let spot = mem::replace(&mut self.spot, Spot::new(list));
        Place::at(list, spot).leave();
    }

    /// Sends one item. A future that is dropped before it is ready has sent nothing, and drops the item.
    pub fn send_one(&mut self, value: T) -> SendOne<'_, T>
        requires { self.old.held ≡ None }
        ensures lender { lender_of result ≡ self.entry.ghost_name }
        ensures same { (result.outgoing.now ≡ self.old) × (result.value ≡ Some value) }
    {
        SendOne {
            outgoing: self,
            value: Some(value),
        }
    }
}

impl<T: Drop> Drop for Outgoing<T> {
    /// Ends its sender: the last one closes the channel. What it holds is dropped.
    fn drop(self) {
        let Outgoing {
            channel,
            list,
            owed,
            held: _,
            spot,
        } = self;
        Place::at(&list, spot).leave();
        let Owed { end } = owed;
        channel.end_sender(end);
    }
}

impl<T: Drop> Sink<T> for Outgoing<T> {
    ghost use Rattle.channel_futures.specs.Outgoing.{end_of, source_of, SameChannel, HeldSent, HasTaken};

    type Error = SendError<T>;

    ghost can_send = { λ o. o.held ≡ None };

    ghost took = { HasTaken };

    ghost is_flushed = { λ o. o.held ≡ None };

    ghost is_closed = { λ o. o.held ≡ None };

    ghost needs = { λ o s. s ≡ source_of o };

    fn poll_ready(&mut self, cx: &mut Context<'_>) -> Poll<Result<(), SendError<T>>>
        ensures same { SameChannel self.old self.new }
        ensures answered { IfReady result (λ answer. HeldSent (end_of self.old) self.old.held answer (end_of self.new) × (self.new.held ≡ None)) }
        ensures waited { OnPending result (EndWaited (end_of self.old) (end_of self.new) × (self.new.held ≡ self.old.held)) }
        ensures taken { UnlessFailed result ((xs : _) → HasTaken self.old xs → HasTaken self.new xs) }
        ensures registered { OnPending result (Covers cx.new (λ s. s ≡ source_of self.new)) }
        ensures kept { Keeps cx.old cx.new }
    {
        self.poll_held(cx)
    }

    fn start_send(&mut self, item: T) -> Result<(), SendError<T>>
        requires { self.old.held ≡ None }
        ensures same { (end_of self.new ≡ end_of self.old) × SameChannel self.old self.new }
        ensures held { (result ≡ Ok tt) × (self.new.held ≡ Some item) }
    {
        self.held = Some(item);
        Ok(())
    }

    fn poll_flush(&mut self, cx: &mut Context<'_>) -> Poll<Result<(), SendError<T>>>
        ensures same { SameChannel self.old self.new }
        ensures answered { IfReady result (λ answer. HeldSent (end_of self.old) self.old.held answer (end_of self.new) × (self.new.held ≡ None)) }
        ensures waited { OnPending result (EndWaited (end_of self.old) (end_of self.new) × (self.new.held ≡ self.old.held)) }
        ensures taken { UnlessFailed result ((xs : _) → HasTaken self.old xs → HasTaken self.new xs) }
        ensures registered { OnPending result (Covers cx.new (λ s. s ≡ source_of self.new)) }
        ensures kept { Keeps cx.old cx.new }
    {
        self.poll_held(cx)
    }

    /// Sends what it holds. The sender is ended where the sink is dropped.
    fn poll_close(&mut self, cx: &mut Context<'_>) -> Poll<Result<(), SendError<T>>>
        ensures same { SameChannel self.old self.new }
        ensures answered { IfReady result (λ answer. HeldSent (end_of self.old) self.old.held answer (end_of self.new) × (self.new.held ≡ None)) }
        ensures waited { OnPending result (EndWaited (end_of self.old) (end_of self.new) × (self.new.held ≡ self.old.held)) }
        ensures taken { UnlessFailed result ((xs : _) → HasTaken self.old xs → HasTaken self.new xs) }
        ensures registered { OnPending result (Covers cx.new (λ s. s ≡ source_of self.new)) }
        ensures kept { Keeps cx.old cx.new }
    {
        self.poll_flush(cx)
    }
}

/// The future of [`Outgoing::send_one`]. Whoever polls it by hand knows what its end becomes; an executor knows what the future gives.
pub struct SendOne<'s, T: Drop> {
    outgoing: &'s mut Outgoing<T>,
    value: Option<T>,
}

impl<T: Drop> Drop for SendOne<'_, T> {
    ghost use Rattle.channel_futures.specs.Outgoing.{end_of, SameChannel};

    /// It waits no more, and drops the item that it has not sent. Its end stays as the polls have left it.
    fn drop(self)
        ensures end { (end_of self.exit.0.now ≡ end_of self.entry.outgoing.now) × (self.exit.0.now.held ≡ self.entry.outgoing.now.held) }
        ensures same { SameChannel self.entry.outgoing.now self.exit.0.now }
    {
        let SendOne { outgoing, value: _ } = self;
        outgoing.rest();
    }
}

impl<T: Drop> Future for SendOne<'_, T> {
    ghost use Rattle.channel_futures.specs.Outgoing.{end_of, source_of, lender_of, SameChannel};

    type Output = Result<(), SendError<T>>;

    ghost can_poll = { λ f. IsSome f.value };

    ghost needs = { λ f s. s ≡ source_of f.outgoing.now };

    ghost gives = { λ f answer. IsSomeAnd f.value (λ x. (e : End T) × ChannelCall (end_of f.outgoing.now) (call.Push x) (sent answer) e) };

    fn poll(&mut self, cx: &mut Context<'_>) -> Poll<Result<(), SendError<T>>>
        requires { IsSome self.old.value }
        ensures lender { lender_of self.new ≡ lender_of self.old }
        ensures same { SameChannel self.old.outgoing.now self.new.outgoing.now × (self.new.outgoing.now.held ≡ self.old.outgoing.now.held) }
        ensures sent { IfReady result (λ answer. IsSomeAnd self.old.value (λ value. ChannelCall (end_of self.old.outgoing.now) (call.Push value) (sent answer) (end_of self.new.outgoing.now)) × (self.new.value ≡ None)) }
        ensures waited { OnPending result (EndWaited (end_of self.old.outgoing.now) (end_of self.new.outgoing.now) × (self.new.value ≡ self.old.value)) }
        ensures registered { OnPending result (Covers cx.new (λ s. s ≡ source_of self.new.outgoing.now)) }
        ensures kept { Keeps cx.old cx.new }
    {
        let Some(value) = self.value.take() else {
            unreachable!()
        };
        self.outgoing.poll_push(cx, value, &mut self.value)
    }
}
