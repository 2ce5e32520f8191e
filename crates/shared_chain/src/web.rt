//! A chain of blocks that parties share.
ghost use Rattle.std.specs.Prelude.{◌≡◌, ◌<◌, ℕ, Some, None, IfOk};
ghost use denote.RawPtr.{InBlock, block_ptr, block_of, count_of};
ghost use Rattle.queue_steps.specs.declared.steps.types.Answer.TheVariants as answers;
ghost use Rattle.queue_steps.specs.declared.steps.types.Link.{Link as SpecLink};
ghost use Rattle.queue_steps.specs.declared.steps.types.Op.TheVariants as ops;
ghost use Rattle.queue_steps.specs.declared.steps.types.Word.{Word as SpecWord};
ghost use Rattle.mem_blocks.specs.Laid.{head_of};
ghost use Rattle.mem_blocks.specs.Seats.{Same};
ghost use Rattle.mem_blocks.specs.Web.{sitter};
ghost use Rattle.shared_chain.specs.Names.{link_of, word_map, link_map, is_set_once as spec_is_set_once};
ghost use Rattle.shared_chain.specs.Rule.{first_seat};
ghost use Rattle.shared_chain.specs.Steps.{HasWord, word_place, word_index, link_place};

use crate::ending;
use crate::ends::ChainEnds;
use crate::rule::{Chained, Grants, Refusals, Steps, Stores};
use crate::source::Source;
use crate::touching::touch;
use mem_blocks::chain::Chain;
use mem_blocks::hub::{HEAD, Hub, PARTIES, TAIL};
use mem_blocks::item::{Item, Place};
use mem_blocks::sizes::SLOTS;
use mem_blocks::web::{Seat, Web};
use own_cells::chain::own_chain::OwnChain;
use queue_steps::model::CallKind;
use queue_steps::steps::{Answer, Link, Local, Op, READ, Touch, WRITE, Word};
use shared_parties::call_tag::CallTag;
use shared_parties::known::CallState;
use std::alloc::{AllocError, Allocator};
use std::marker::Brand;

/// The two ends, in one allocation, and a web of them and of the blocks of the chain.
///
/// The allocator of its blocks is kept beside it.
pub struct ChainWeb<T, A: Allocator> {
    pub(crate) web: Web<Item<T>, CallState<T>, ChainEnds<T>, Chained, A>,
    pub(crate) tail: Place<T>,
    pub(crate) head: Place<T>,
    pub(crate) hub: Hub<Item<T>, A>,
    ghost heaps: { hub.heap ≡ web.heap },
    ghost ends: { (web.key.tail.ptr ≡ tail.ptr) × (web.key.head.ptr ≡ head.ptr) × (hub.at ≡ tail.ptr) × (head.ptr ≡ head_of tail.ptr) × (tail.ptr ≡ block_ptr (block_of tail.ptr) (count_of tail.ptr)) },
}

/// Whether one call alone sets these bits of the word: that an item is written, or read.
#[inline(always)]
fn is_set_once<T>(word: Word<Place<T>>, bits: u64) -> bool
    ensures { result ≡ spec_is_set_once word bits }
{
    match word {
        Word::State(_, _) => bits == WRITE || bits == READ,
        _ => false,
    }
}

/// A party's seat.
pub type ChainSeat<T, A> = Seat<Item<T>, CallState<T>, A>;

impl<T, A: Allocator> ChainWeb<T, A> {
    ghost use Rattle.shared_chain.specs.Turning.{CanOperate, Operated, Carries, GaveUp, SitsAt, ChainCan, ChainDoes, heap_of};

    /// An empty open chain, and the seat of its only party. It is one request.
    ///
    /// # Errors
    ///
    /// Where there is no memory, and where an item has 2^31 bytes or more: then no request is made.
    pub fn open(alloc: &A) -> Result<(ChainWeb<T, A>, ChainSeat<T, A>), AllocError>
        ensures of { IfOk result (λ q. heap_of q.0 ≡ alloc.now) }
        ensures first { IfOk result (λ q. SitsAt q.0 q.1 × (q.1.sitter ≡ sitter first_seat None None)) }
    {
        let (hub, tail, first, head, second) = Hub::make(alloc)?;
        let mut chain = Chain::empty(alloc);
        chain.lay(first);
        chain.lay(second);
        chain.set_word(0, tail, PARTIES, 1);
        let ends = ChainEnds { tail, head };
        let (web, seat) = chain.share(&ends);
        Ok((
            ChainWeb {
                web,
                tail,
                head,
                hub,
            },
            seat,
        ))
    }

    /// The block that has the word, and the word's number there.
    #[inline(always)]
    fn word(&self, word: Word<Place<T>>) -> (Place<T>, usize)
        requires { (w : SpecWord ℕ) × (word ≡ word_map link_of w) × HasWord w }
        ensures there { InBlock result.0.ptr × (result.1 < SLOTS) }
        ensures at { (w : SpecWord ℕ) → word ≡ word_map link_of w → (result.0.ptr ≡ word_place self.now.web.key.tail.ptr self.now.web.key.head.ptr w) × (result.1 ≡ word_index w) }
    {
        match word {
            Word::Tail => (self.tail, TAIL),
            Word::Head => (self.head, HEAD),
            Word::State(block, slot) => (block, slot),
            Word::Lock | Word::Stamp(_) => unreachable!(),
        }
    }

    /// The block that has the link.
    #[inline(always)]
    fn link(&self, link: Link<Place<T>>) -> Place<T>
        requires { (l : SpecLink ℕ) × (link ≡ link_map link_of l) }
        ensures there { InBlock result.ptr }
        ensures at { (l : SpecLink ℕ) → link ≡ link_map link_of l → result.ptr ≡ link_place self.now.web.key.tail.ptr self.now.web.key.head.ptr l }
    {
        match link {
            Link::TailBlock => self.tail,
            Link::HeadBlock => self.head,
            Link::Next(block) => block,
        }
    }

    /// The word of the tail's end, by a load without a seat, which tells nothing of the history.
    pub fn peek_tail(&self) -> u64 {
        self.web.peek(self.tail, TAIL)
    }

    /// The word of the head's end, by such a load.
    pub fn peek_head(&self) -> u64 {
        self.web.peek(self.head, HEAD)
    }

    /// The request of a call for a block. The seat then carries the block, and a look at the chain tells it.
    #[inline(always)]
    fn ask<S: Source<T, A>, J: CallTag<T>>(
        &self,
        alloc: &A,
        seat: &mut ChainSeat<T, A>,
    ) -> Answer<Place<T>>
        requires of { heap_of self.now ≡ alloc.now }
        requires sits { SitsAt self.now seat.old }
        requires can { CanOperate seat.old.sitter ops.Ask J.call }
        ensures same { Same seat.new seat.old }
        ensures did { Operated J.call result seat.new.sitter }
    {
        match S::ask(alloc) {
            Ok((place, block)) => {
                seat.hold(block);
                self.web.load::<Grants<J>>(seat, self.tail, TAIL);
                Answer::Granted(place)
            }
            Err(_) => {
                self.web.load::<Refusals<J>>(seat, self.tail, TAIL);
                Answer::Refused
            }
        }
    }

    /// Sets bits of a word, and gives the word before. What is set once is not set yet, so one instruction adds it.
    #[inline(always)]
    fn set_bits<J: CallTag<T>>(
        &self,
        seat: &mut ChainSeat<T, A>,
        word: Word<Place<T>>,
        bits: u64,
    ) -> u64
        requires sits { SitsAt self.now seat.old }
        requires can { CanOperate seat.old.sitter (ops.Or word bits) J.call }
        ensures same { Same seat.new seat.old }
        ensures did { Operated J.call (answers.Found result) seat.new.sitter }
    {
        let (block, number) = self.word(word);
        if is_set_once(word, bits) {
            self.web.fetch_add::<Steps<J>>(seat, block, number, bits)
        } else {
            self.web.fetch_or::<Steps<J>>(seat, block, number, bits)
        }
    }

    /// The operation of a step, whose slot was touched. Of which call it is the caller says, by its kind and by where it waits.
    #[inline(always)]
    fn operate<S: Source<T, A>, J: CallTag<T>>(
        &self,
        alloc: &A,
        seat: &mut ChainSeat<T, A>,
        call: &CallKind,
        local: &Local<Place<T>>,
        touched: Touch,
        op: Op<Place<T>>,
        left: &Option<T>,
    ) -> Answer<Place<T>>
        requires of { heap_of self.now ≡ alloc.now }
        requires sits { SitsAt self.now seat.old }
        requires can { CanOperate seat.old.sitter op J.call }
        ensures same { Same seat.new seat.old }
        ensures did { Operated J.call result seat.new.sitter }
    {
        let _ = call;
        let _ = local;
        let _ = touched;
        let _ = left;
        match op {
            Op::Load(word) => {
                let (block, number) = self.word(word);
                Answer::Found(self.web.load::<Steps<J>>(seat, block, number))
            }
            Op::Store(word, new) => {
                let (block, number) = self.word(word);
                self.web.store::<Steps<J>>(seat, block, number, new);
                Answer::Done
            }
            Op::Add(word, by) => {
                let (block, number) = self.word(word);
                Answer::Found(self.web.fetch_add::<Steps<J>>(seat, block, number, by))
            }
            Op::Or(word, bits) => Answer::Found(self.set_bits::<J>(seat, word, bits)),
            Op::And(_, _) => unreachable!(),
            Op::Exchange(word, old, new) => {
                let (block, number) = self.word(word);
                Answer::Found(self.web.exchange::<Steps<J>>(seat, block, number, old, new))
            }
            Op::LoadLink(link) => {
                Answer::Linked(self.web.follow::<Steps<J>>(seat, self.link(link)).get())
            }
            Op::StoreLink(link, new) => {
                self.web.lead::<Stores<J>>(seat, self.link(link), new);
                Answer::Done
            }
            Op::Install(new) => {
                Answer::Linked(self.web.install::<Steps<J>>(seat, self.tail, new).get())
            }
            Op::Ask => self.ask::<S, J>(alloc, seat),
        }
    }

    /// One step of a call: the touch of a slot, and then the operation.
    #[inline(always)]
    pub fn take_step<S: Source<T, A>>(
        &self,
        alloc: &A,
        seat: &mut ChainSeat<T, A>,
        call: &CallKind,
        local: &Local<Place<T>>,
        todo: Touch,
        op: Op<Place<T>>,
        carried: &mut Option<T>,
    ) -> Answer<Place<T>>
        requires of { heap_of self.now ≡ alloc.now }
        requires can { ChainCan self.now seat.old call.now local.now todo op carried.old }
        ensures { ChainDoes seat.old call.now local.now todo op carried.old result seat.new carried.new }
    {
        touch(seat, todo, op, carried);
        self.operate::<S, Brand>(alloc, seat, call, local, todo, op, carried)
    }

    /// The block that a reply gives up goes back to the allocator.
    pub fn give_up(&self, alloc: &A, seat: &mut ChainSeat<T, A>, block: Place<T>)
        requires of { heap_of self.now ≡ alloc.now }
        requires sits { SitsAt self.now seat.old }
        requires carries { Carries (Some block) seat.old.sitter }
        ensures { GaveUp seat.old seat.new }
    {
        seat.release().give_up(alloc, block);
    }
}

impl<T, A: Allocator> ChainWeb<T, A> {
    ghost use Rattle.shared_chain.specs.Turning.{SitsAt, heap_of};
    ghost use Rattle.queue_steps.specs.Effect.{after};
    ghost use Rattle.queue_steps.specs.Legal.{IsShown};
    ghost use Rattle.queue_steps.specs.Parties.{IsWhole};
    ghost use Rattle.shared_parties.specs.Known.{view_of};
    ghost use Rattle.shared_parties.specs.CallStates.{IsSeatAlone};
    ghost use Rattle.own_cells.specs.OneChain.OwnChainOwned.{IsIdle, own_chain_owned};

    /// What is left when the only party ends the queue: a queue with one owner, in the same blocks. It makes no request.
    pub fn end(self, alloc: A, seat: ChainSeat<T, A>) -> OwnChain<T, A>
        requires of { heap_of self ≡ alloc }
        requires sits { SitsAt self seat }
        requires alone { IsSeatAlone seat.sitter.view }
        ensures { IsIdle result × IsShown (own_chain_owned result).queue (after None seat.sitter.view.known.seen) × IsWhole (view_of seat.sitter.view.known) }
    {
        let ChainWeb {
            web,
            tail,
            head,
            hub,
        } = self;
        ending::end(alloc, web, seat, hub, tail, head)
    }
}

impl<T: Drop, A: Allocator> ChainWeb<T, A> {
    ghost use Rattle.shared_chain.specs.Turning.{heap_of};

    /// Drops the items that are left, and gives all memory back.
    pub fn discard(self, alloc: &A)
        requires { heap_of self ≡ alloc.now }
    {
        let ChainWeb {
            web,
            tail,
            head,
            hub,
        } = self;
        ending::give_up(alloc, web, hub, tail, head);
    }
}
