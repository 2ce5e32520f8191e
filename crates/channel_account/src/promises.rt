//! What a thread promises that is started with an end, for `spawn_with`. So `join` tells what the thread sent or received.
ghost use Rattle.std.specs.Prelude.{◌≡◌, IfSome};
ghost use Rattle.channel_account.specs.Told.{HasSent, HasReceived, SawEnd};

use crate::account::Account;
use crate::ends::{Receiver, Sender};
use std::alloc::{Allocator, Global};
use std::snapshot::Snapshot;
use std::thread::Promise;

/// A thread with this sender sends all these values, and brings the sender's account; or it brings nothing.
#[derive(Drop)]
pub struct Sends<T, A: Allocator = Global> {
    pub sender: Snapshot<Sender<T, A>>,
    pub values: Snapshot<Vec<T>>,
}

impl<T, A: Allocator> Sends<T, A> {
    pub fn of(sender: &Sender<T, A>, values: &Vec<T>) -> Self
        ensures { (result.sender.value ≡ sender.now) × (result.values.value ≡ values.now) }
    {
        Sends {
            sender: Snapshot::of(sender),
            values: Snapshot::of(values),
        }
    }
}

impl<T, A: Allocator> Promise<Option<Account<T, A>>> for Sends<T, A> {
    ghost kept_by = { λ p r. IfSome r (λ account. HasSent p.sender.value p.values.value.items account) };
}

/// A thread with this receiver receives until the channel is closed and empty, and brings all the values and the receiver's account; or it brings nothing.
#[derive(Drop)]
pub struct Receives<T, A: Allocator = Global> {
    pub receiver: Snapshot<Receiver<T, A>>,
}

impl<T, A: Allocator> Receives<T, A> {
    pub fn of(receiver: &Receiver<T, A>) -> Self
        ensures { result.receiver.value ≡ receiver.now }
    {
        Receives {
            receiver: Snapshot::of(receiver),
        }
    }
}

impl<T, A: Allocator> Promise<Option<(Vec<T>, Account<T, A>)>> for Receives<T, A> {
    ghost kept_by = { λ p r. IfSome r (λ r. HasReceived p.receiver.value r.0.items r.1 × SawEnd r.1) };
}
