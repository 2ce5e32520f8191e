//! The ends of a channel, with what they have sent and received.
ghost use Rattle.std.specs.Prelude.{◌≡◌, [], ◌∷◌, MatchResult};
ghost use Rattle.queue_steps.specs.declared.model.Call.TheVariants as call;
ghost use Rattle.concurrent_queue.specs.Shared.{Calls};
ghost use Rattle.counted_channel.specs.Channel.{sent, received};
ghost use Rattle.channel_account.specs.Told.{HasSent, HasReceived, HasDone, PartsTold, SawEnd};

use crate::account::Account;
use channel_handle::{Disconnected, SendError};
use concurrent_queue::NullTestable;
use std::alloc::{AllocError, Allocator, Global};
use std::marker::Model;
use std::sync::Wait;

/// An end that sends, and tells what it has sent. It is ended when it is dropped.
///
/// A contract sees its party of the channel's queue, and the values that it has sent, in their order.
#[derive(Drop)]
pub struct Sender<T, A: Allocator = Global> {
    pub(crate) end: channel_handle::Sender<T, A>,
}

/// An end that receives, and tells what it has received. It is ended when it is dropped.
///
/// A contract sees its party of the channel's queue, and the values that it has received, in their order.
#[derive(Drop)]
pub struct Receiver<T, A: Allocator = Global> {
    pub(crate) end: channel_handle::Receiver<T, A>,
}

impl<T, A: Allocator> Model for Sender<T, A> {
    ghost use Rattle.channel_account.specs.Told.{Told, told};

    ghost Value = { Told T };

    ghost view = { λ s. told s.end.party };
}

impl<T, A: Allocator> Model for Receiver<T, A> {
    ghost use Rattle.channel_account.specs.Told.{Told, told};

    ghost Value = { Told T };

    ghost view = { λ r. told r.end.party };
}

impl<T: Drop, A: NullTestable> Sender<T, A> {
    /// Appends `value`. It waits while the channel is full.
    ///
    /// # Errors
    ///
    /// `Closed` with the value on a closed channel, `NoMemory` with the value where a block was asked for and refused: that sends nothing.
    #[tactic(auto, using(crate::proofs::Own::sends))]
    pub fn send<R: Wait>(&mut self, rt: &R, value: T) -> Result<(), SendError<T>>
        ensures call { Calls self.old.party (call.Push value) (sent result) self.new.party }
        ensures told { MatchResult result (λ _. HasSent self.old (value ∷ []) self.new) (λ _. HasDone self.old self.new) }
    {
        self.end.show_view();
        self.end.send(rt, value)
    }
}

impl<T: Drop, A: Allocator> Sender<T, A> {
    /// Makes one more sender of this one, which has sent nothing.
    ///
    /// # Errors
    ///
    /// Where there may be no more ends of this side, parties or shares in the channel. The sender has then done what it had; it may have seen more.
    #[tactic(auto, using(crate::proofs::Own::stays))]
    pub fn split(&mut self) -> Result<Self, AllocError>
        ensures { MatchResult result (λ two. PartsTold self.old self.new two) (λ _. HasDone self.old self.new) }
    {
        self.end.show_view();
        Ok(Sender {
            end: self.end.split()?,
        })
    }

    /// Ends it, and gives an account of it. The last of its side closes the channel.
    #[tactic(auto, using(crate::proofs::Own::ends))]
    pub fn end(self) -> Account<T, A>
        ensures { HasDone self result }
    {
        let Self { end } = self;
        end.show_view();
        Account { ended: end.end().0 }
    }
}

impl<T: Drop, A: Allocator> Receiver<T, A> {
    /// Takes the front off. It waits while the channel is open and empty.
    ///
    /// # Errors
    ///
    /// On a closed and empty channel.
    #[tactic(auto, using(crate::proofs::Own::receives))]
    pub fn recv<R: Wait>(&mut self, rt: &R) -> Result<T, Disconnected>
        ensures call { Calls self.old.party call.Pop (received result) self.new.party }
        ensures told { MatchResult result (λ value. HasReceived self.old (value ∷ []) self.new) (λ _. HasDone self.old self.new × SawEnd self.new) }
    {
        self.end.show_view();
        self.end.recv(rt)
    }

    /// Makes one more receiver of this one, which has received nothing.
    ///
    /// # Errors
    ///
    /// Where there may be no more ends of this side, parties or shares in the channel. The receiver has then done what it had; it may have seen more.
    #[tactic(auto, using(crate::proofs::Own::stays))]
    pub fn split(&mut self) -> Result<Self, AllocError>
        ensures { MatchResult result (λ two. PartsTold self.old self.new two) (λ _. HasDone self.old self.new) }
    {
        self.end.show_view();
        Ok(Receiver {
            end: self.end.split()?,
        })
    }

    /// Ends it, and gives an account of it. The last of its side closes the channel.
    #[tactic(auto, using(crate::proofs::Own::ends))]
    pub fn end(self) -> Account<T, A>
        ensures { HasDone self result }
    {
        let Self { end } = self;
        end.show_view();
        Account { ended: end.end().0 }
    }
}
