//! What a receiver receives, one item after the other.
ghost use Rattle.std.specs.Prelude.{◌≡◌};
ghost use Rattle.counted_channel.specs.Channel.{IsEndOf};
ghost use Rattle.counted_channel.specs.Receiving.{IsItemsOf, Receives, items_lender};

use crate::ends::Channel;
use crate::sides::Receiver;
use std::alloc::{Allocator, Global};
use std::sync::Wait;

/// Receives items until the channel is closed and empty. What it does not take stays in the channel.
///
/// It is no `Iterator`, since its `next` may wait.
pub struct Items<'a, T, R, A: Allocator = Global> {
    receiver: &'a mut Receiver<T>,
    channel: &'a Channel<T, A>,
    rt: &'a R,
}

impl<'a, T, R, A: Allocator> Drop for Items<'a, T, R, A> {
    /// The receiver keeps what it has done.
    fn drop(self)
        ensures { self.exit.0.now ≡ self.entry.receiver.now }
    {
        let Items {
            receiver: _,
            channel: _,
            rt: _,
        } = self;
    }
}

impl<T, A: Allocator> Channel<T, A> {
    /// The items that come, each of which is received as it is asked for. It keeps `rt` for `next`, which asks that it is a right to wait.
    pub fn items<'a, R>(&'a self, rt: &'a R, receiver: &'a mut Receiver<T>) -> Items<'a, T, R, A>
        requires is_end { IsEndOf receiver.old self.now }
        ensures of { (result.channel.now ≡ self.now) × (result.receiver.now ≡ receiver.old) × IsItemsOf result }
        ensures same_reference { items_lender result ≡ receiver.entry.ghost_name }
    {
        Items {
            receiver,
            channel: self,
            rt,
        }
    }
}

impl<'a, T, R: Wait, A: Allocator> Items<'a, T, R, A> {
    /// Receives the next item, or nothing where the channel is closed and empty. It waits while the channel is open and empty.
    pub fn next(&mut self) -> Option<T>
        requires { IsItemsOf self.old }
        ensures receives { Receives self.old result self.new }
        ensures of { IsItemsOf self.new }
    {
        self.channel.recv(self.rt, self.receiver).ok()
    }
}
