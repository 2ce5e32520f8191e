//! Calls by what they do to the queue, and what those answer that look at it.
ghost use Rattle.std.specs.Prelude.{◌≡◌};
ghost use Rattle.queue_steps.specs.Looks.{call_view, reply_of_look};
ghost use Rattle.queue_steps.specs.State.{fills};

use crate::model::{Call, CallKind, Reply, ReplyKind};
use crate::steps::PushKind;

/// A call that looks at the queue and changes nothing.
#[derive(Clone, Copy, PartialEq)]
pub enum Look {
    IsClosed,
    IsEmpty,
    IsFull,
    Len,
}

/// What a call does.
#[derive(Clone, Copy, PartialEq)]
pub enum CallView {
    Push(PushKind),
    Pop,
    Close,
    Look(Look),
    /// Its answer never changes, so it takes no step.
    Capacity,
}

impl CallView {
    /// What this call does.
    #[inline(always)]
    pub fn of(call: CallKind) -> CallView
        ensures { result ≡ call_view call }
    {
        match call {
            Call::Push(()) => CallView::Push(PushKind::Push),
            Call::ForcePush(()) => CallView::Push(PushKind::Force),
            Call::Pop => CallView::Pop,
            Call::Close => CallView::Close,
            Call::IsClosed => CallView::Look(Look::IsClosed),
            Call::IsEmpty => CallView::Look(Look::IsEmpty),
            Call::IsFull => CallView::Look(Look::IsFull),
            Call::Len => CallView::Look(Look::Len),
            Call::Capacity => CallView::Capacity,
        }
    }
}

impl Look {
    /// What it answers where a queue of this capacity has so many items, and is closed or not.
    #[inline(always)]
    pub fn reply(self, cap: Option<usize>, len: usize, is_closed: bool) -> ReplyKind
        ensures { result ≡ reply_of_look cap len is_closed self }
    {
        match self {
            Look::IsClosed => Reply::IsClosed(is_closed),
            Look::IsEmpty => Reply::IsEmpty(len == 0),
            Look::IsFull => Reply::IsFull(is_filled(cap, len)),
            Look::Len => Reply::Len(len),
        }
    }
}

/// Whether so many items fill a queue of this capacity.
#[inline(always)]
fn is_filled(cap: Option<usize>, len: usize) -> bool
    ensures { result ≡ fills cap len }
{
    match cap {
        Some(cap) => len == cap,
        None => false,
    }
}
