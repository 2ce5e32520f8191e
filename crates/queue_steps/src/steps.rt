//! The steps of a call: what a step is made of, where a call is, and, from that and the answer to its last step, the next step or the reply.
//!
//! Whoever runs a call, its one owner, a party or the machine, does each step and hands the answer back.
ghost use Rattle.std.specs.Prelude.{◌≡◌};
ghost use Rattle.queue_steps.specs.Next.{CanNext, first_local, next_of};

use crate::model::CallKind;

pub mod blocks;
mod chain;
mod kinds;
mod looks;
mod ring;
mod shown;
mod slot;
pub mod stages;
mod types;

pub use chain::{ChainLocal, DESTROY, READ, WRITE};
pub use kinds::{ChainSteps, KindSteps, RingSteps, SlotSteps};
pub use looks::{CallView, Look};
pub use ring::{MARK, PushKind, RingLocal, TAIL_STEP};
pub use shown::{shown_len, shows_closed};
pub use slot::{CLOSED, LOCKED, PUSHED, SlotLocal, UNLOCKED, UNPUSHED};
pub use types::{Answer, Kind, Link, Local, Next, Op, Touch, Word};

/// The local state of a call that begins.
#[inline(always)]
pub fn start<B: Copy>(_kind: Kind, call: CallKind) -> Local<B>
    ensures { result ≡ first_local call }
{
    Local::Begin(call)
}

/// What a call does next on a queue of a kind that is told when it runs.
pub fn next<B: Copy>(kind: Kind, local: Local<B>, answer: Answer<B>) -> Next<B>
    requires { CanNext kind local answer }
    ensures { result ≡ next_of kind local answer }
{
    match kind {
        Kind::Single => SlotSteps::next(kind, local, answer),
        Kind::Bounded(_) => RingSteps::next(kind, local, answer),
        Kind::Unbounded => ChainSteps::next(kind, local, answer),
    }
}
