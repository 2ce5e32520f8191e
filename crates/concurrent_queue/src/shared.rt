//! Queues that many parties share, first in first out, that can be closed.
ghost use Rattle.std.specs.Prelude.{◌≡◌, ◌<◌, Some, None, [], IfOk, IsErr};
ghost use Rattle.queue_steps.specs.declared.sizes.TheConstants.{MAX_CAPACITY};
ghost use Rattle.queue_steps.specs.declared.model.Call.TheVariants as call;
ghost use Rattle.queue_steps.specs.declared.model.Reply.TheVariants as reply;
ghost use Rattle.queue_steps.specs.Kinds.{call_kind};
ghost use Rattle.queue_steps.specs.Next.{capacity_of};
ghost use Rattle.queue_steps.specs.Shares.{entire};
ghost use Rattle.std.specs.Fmt.{WritesOnOk};
ghost use Rattle.std.specs.Prelude.{ℕ, Bool, codes};
ghost use Rattle.exclusive_queue.specs.QueueText.{queue_text};
ghost use Rattle.concurrent_queue.specs.Shared.{IsPartyOf, Calls, form_id};

pub use crate::party::Party;
use crate::party::SeatPlace;
use call_driver::gate::{Gate, Open};
use exclusive_queue::text::write_queue;
use mem_blocks::null_testable::NullTestable;
use queue_steps::errors::{ForcePushError, PopError, PushError};
use queue_steps::model::{Call, Reply};
use queue_steps::steps::{Kind, shown_len, shows_closed};
use shared_calls::allocated_chain::AllocatedChain;
use shared_calls::beginning::{FastSteps, OnRing, OnSlot};
use shared_calls::chain;
use shared_calls::pausing::wait_out;
use shared_calls::running::Waits;
use shared_chain::source::{Granting, Refusing, Source};
use shared_chain::web::ChainWeb;
use shared_tables::ring::{self, Rings, open_ring};
use shared_tables::slot::{self, Slots, open_slot};
use shared_tables::table::SharedTable;
use std::alloc::{AllocError, Allocator, Global};
use std::fmt;
use std::marker::{Model, PhantomData};
use std::ops::ControlFlow;
use std::sync::Wait;

mod calling;
mod count;
mod giving_up;
mod iter;
mod parting;
pub mod pending;
mod standing;
mod trying;
mod wait_free;

use calling::on_ring;
pub use iter::TryIter;
pub use pending::{Outcome, Pending};

/// A queue that parties share.
///
/// A contract sees which queue it is, and its capacity. There is one history of the effects of all calls; each party has seen a beginning of it, and each
/// of its places is one party's.
pub struct ConcurrentQueue<T, A: Allocator = Global> {
    form: Form<T, A>,
}

/// The calls, for the driver: each has fast steps of its own.
struct Pushes;

struct Displaces;

struct Pops;

struct Counts;

struct Begins;

/// How the items are kept. The compiler tests for the first before the others.
enum Form<T, A: Allocator> {
    /// A ring of slots.
    Ring(SharedTable<T, Rings, A>),
    /// One slot.
    Slot(SharedTable<T, Slots, A>),
    /// A chain of blocks.
    Chain(AllocatedChain<T, A>),
}

impl<T, A: Allocator> Model for ConcurrentQueue<T, A> {
    ghost use Rattle.concurrent_queue.specs.Shared.{QueueId, form_id};

    ghost Value = { QueueId };

    ghost view = { λ q. form_id q.form };
}

impl<T: Drop, A: Allocator> Drop for ConcurrentQueue<T, A> {
    /// Drops the items that are left, and gives all memory back.
    fn drop(self) {
        let ConcurrentQueue { form } = self;
        match form {
            Form::Slot(slot) => drop(slot),
            Form::Ring(ring) => drop(ring),
            Form::Chain(queue) => {
                let AllocatedChain { alloc, chain } = queue;
                chain.discard(&alloc);
            }
        }
    }
}

impl<T, A: Allocator> Form<T, A> {
    /// Which kind of queue it is.
    fn kind(&self) -> Kind
        ensures { capacity_of result ≡ (form_id self.now).cap }
    {
        match self {
            Form::Slot(_) => Kind::Single,
            Form::Ring(ring) => Kind::Bounded(ring.slots()),
            Form::Chain(_) => Kind::Unbounded,
        }
    }

    /// The tail, by a load without a seat. One slot has one word, which stands for it.
    fn peek_tail(&self) -> u64 {
        match self {
            Form::Slot(slot) => slot::peek_word(slot),
            Form::Ring(ring) => ring::peek_tail(ring),
            Form::Chain(queue) => queue.chain.peek_tail(),
        }
    }

    /// The head, by such a load. One slot has none, and 0 stands for it.
    fn peek_head(&self) -> u64 {
        match self {
            Form::Slot(_) => 0,
            Form::Ring(ring) => ring::peek_head(ring),
            Form::Chain(queue) => queue.chain.peek_head(),
        }
    }
}

impl<T, A: Allocator> fmt::Debug for ConcurrentQueue<T, A> {
    /// Each field is that of a moment of its own, without a party and without waiting: the length is the tail less the head that is read after it, or 0 where
    /// that is below 0. So read, it is within the capacity, which no clause says: a load without a seat tells nothing of what was so at an earlier one.
    fn fmt<W: fmt::Write>(&self, f: &mut fmt::Formatter<W>) -> fmt::Result
        ensures { (len : ℕ) × (closed : Bool) × WritesOnOk W.write_str_gives f.old result (queue_text (codes "ConcurrentQueue") len self.now.cap closed) f.new }
    {
        let kind = self.form.kind();
        let tail = self.form.peek_tail();
        let head = self.form.peek_head();
        let len = shown_len(kind, tail, head);
        let is_closed = shows_closed(kind, self.form.peek_tail());
        write_queue(f, "ConcurrentQueue", len, self.capacity(), is_closed)
    }
}

/// Runs a call at a table to its end: the fast steps of its row, which do not wait, and then the others.
macro_rules! at_table {
    ($kind:ty, $row:ty, $steps:expr, $table:ident, $rt:ident, $seat:ident, $calls:ty, $call:ident) => {{
        let begun = <$row as FastSteps<SharedTable<T, $kind, A>>>::run::<Open, $calls>(
            $steps, $table, &Open, $seat, $call,
        );
        match begun {
            ControlFlow::Break(reply) => reply,
            ControlFlow::Continue(left) => {
                wait_out::<SharedTable<T, $kind, A>, Open, R>($rt, $table, &Open, $seat, left)
            }
        }
    }};
}

/// Runs a call to its end in the text of the function that makes it: each function between that may wait costs a test after its call. And by form, so that
/// what a ring leaves is put together for a ring. `$calls` tells the calls apart; blocks come from `$source`.
macro_rules! in_place {
    ($queue:ident, $rt:ident, $party:ident, $source:ty, $calls:ty, $call:ident) => {
        match (&$queue.form, &mut $party.place) {
            (Form::Slot(slot), SeatPlace::Table(seat)) => {
                at_table!(Slots, OnSlot, OnSlot, slot, $rt, seat, $calls, $call)
            }
            (Form::Ring(ring), SeatPlace::Table(seat)) => {
                at_table!(Rings, OnRing, on_ring(ring), ring, $rt, seat, $calls, $call)
            }
            (Form::Chain(chain), SeatPlace::Web(rested)) => {
                chain::answer::<T, A, $source, Open, R, $calls>(chain, $rt, &Open, rested, $call)
            }
            _ => unreachable!(),
        }
    };
}

impl<T, A: Allocator + Clone> ConcurrentQueue<T, A> {
    /// An empty open queue of this capacity, and its only party, which has seen nothing and has all of the share.
    ///
    /// It asks for all its memory here.
    ///
    /// # Errors
    ///
    /// Where there is no memory. A capacity above `MAX_CAPACITY`, or one whose slots are more bytes than one allocation may have, is refused without a request.
    pub fn bounded(alloc: A, cap: usize) -> Result<(Self, Party<T>), AllocError>
        requires { 0 < cap }
        ensures first { IfOk result (λ r. IsPartyOf r.1 r.0 × (r.0.cap ≡ Some cap) × (r.1.view ≡ record { seen = []; mine = []; share = entire })) }
        ensures limited { MAX_CAPACITY < cap → IsErr result }
    {
        prove!(cap > 0, "the capacity is above 0");
        let (form, seat) = if cap == 1 {
            let (slot, seat) = open_slot(alloc)?;
            (Form::Slot(slot), seat)
        } else {
            let (ring, seat) = open_ring(alloc, cap)?;
            (Form::Ring(ring), seat)
        };
        Ok((ConcurrentQueue { form }, Party::at(SeatPlace::Table(seat))))
    }
}

impl<T, A: Allocator> ConcurrentQueue<T, A> {
    /// An empty open queue without a capacity, and its only party, which has seen nothing and has all of the share.
    ///
    /// It is one request. Pushes ask for more: before the first item, and where `BLOCK_SLOTS - 1` items modulo `BLOCK_SLOTS` were accepted.
    ///
    /// # Errors
    ///
    /// Where there is no memory, and where an item has 2^31 bytes or more: then no request is made.
    pub fn unbounded(alloc: A) -> Result<(Self, Party<T>), AllocError>
    where
        A: NullTestable,
        ensures { IfOk result (λ r. IsPartyOf r.1 r.0 × (r.0.cap ≡ None) × (r.1.view ≡ record { seen = []; mine = []; share = entire })) }
    {
        let (chain, seat) = ChainWeb::open(&alloc)?;
        let form = Form::Chain(AllocatedChain { alloc, chain });
        Ok((
            ConcurrentQueue { form },
            Party::at(SeatPlace::Web(seat.rests())),
        ))
    }

    /// Runs a call to its end, as each function does that may wait. The gate is asked before each of its operations, and may hold it there. The blocks that it
    /// asks for come from `Q`; `W` tells a caller's calls apart, so that each has fast steps of its own.
    #[inline(always)]
    pub fn answer<Q: Source<T, A>, R: Wait, G: Gate, W>(
        &self,
        rt: &R,
        gate: &G,
        party: &mut Party<T>,
        call: Call<T>,
    ) -> Reply<T>
        requires is_party { IsPartyOf party.old self.now }
        ensures { Calls party.old call result party.new }
    {
        let of = PhantomData::<W>;
        self.form
            .run::<Q, _>(&mut party.place, Waits { rt, gate, call, of })
    }

    /// Appends `value`. It waits while another call has the place that it needs.
    ///
    /// # Errors
    ///
    /// `Closed` with the value on a closed queue, `Full` with the value on a full one, `NoMemory` with the value where a block was asked for and refused: that changes nothing.
    pub fn push<R: Wait>(&self, rt: &R, party: &mut Party<T>, value: T) -> Result<(), PushError<T>>
    where
        A: NullTestable,
        requires is_party { IsPartyOf party.old self.now }
        ensures { Calls party.old (call.Push value) (reply.Push result) party.new }
    {
        let call = Call::Push(value);
        let reply = in_place!(self, rt, party, Granting, Pushes, call);
        match reply {
            Reply::Push(result) => result,
            _ => unreachable!(),
        }
    }

    /// Appends `value`, and takes the front off and hands it out where the queue was full. It waits while another call has the place that it needs.
    ///
    /// # Errors
    ///
    /// `Closed` with the value on a closed queue, `NoMemory` with the value where a block was asked for and refused: that changes nothing.
    pub fn force_push<R: Wait>(
        &self,
        rt: &R,
        party: &mut Party<T>,
        value: T,
    ) -> Result<Option<T>, ForcePushError<T>>
    where
        A: NullTestable,
        requires is_party { IsPartyOf party.old self.now }
        ensures { Calls party.old (call.ForcePush value) (reply.ForcePush result) party.new }
    {
        match self.answer::<Granting, R, Open, Displaces>(
            rt,
            &Open,
            party,
            Call::ForcePush(value),
        ) {
            Reply::ForcePush(result) => result,
            _ => unreachable!(),
        }
    }

    /// Takes the front off. It waits while another call has the item that it needs.
    ///
    /// # Errors
    ///
    /// On an empty queue `Empty`, or `Closed` if it is closed.
    pub fn pop<R: Wait>(&self, rt: &R, party: &mut Party<T>) -> Result<T, PopError>
        requires is_party { IsPartyOf party.old self.now }
        ensures { Calls party.old call.Pop (reply.Pop result) party.new }
    {
        let call = Call::Pop;
        let reply = in_place!(self, rt, party, Refusing, Pops, call);
        match reply {
            Reply::Pop(result) => result,
            _ => unreachable!(),
        }
    }

    /// The number of items at a moment of the call.
    pub fn len<R: Wait>(&self, rt: &R, party: &mut Party<T>) -> usize
        requires is_party { IsPartyOf party.old self.now }
        ensures { Calls party.old call.Len (reply.Len result) party.new }
    {
        match self.answer::<Refusing, R, Open, Counts>(rt, &Open, party, Call::Len) {
            Reply::Len(result) => result,
            _ => unreachable!(),
        }
    }

    /// The capacity in items.
    pub fn capacity(&self) -> Option<usize>
        ensures { result ≡ self.now.cap }
    {
        match self.form.kind() {
            Kind::Single => Some(1),
            Kind::Bounded(slots) => Some(slots),
            Kind::Unbounded => None,
        }
    }
}
