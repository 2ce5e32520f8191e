//! A chain of blocks with one owner, and how the driver uses it.
ghost use Rattle.std.specs.Prelude.{◌≡◌};
ghost use Rattle.queue_steps.specs.LookNext.{IsLoad};
ghost use Rattle.own_cells.specs.OneChain.OwnChainCells.{state_block as spec_state_block};

use call_driver::cells::{OwnCells, exchange};
use mem_blocks::block::Loose;
use mem_blocks::chain::Chain;
use mem_blocks::item::{Item, Place};
use queue_steps::steps::{Answer, ChainSteps, Kind, Op, Touch, Word};
use std::alloc::{AllocError, Allocator};
use std::marker::Model;

/// A block: its number in the order in which the blocks were laid, and where it lies.
pub struct Name<T> {
    pub(crate) number: u64,
    pub(crate) link: Place<T>,
}

impl<T> Clone for Name<T> {
    ghost is_clone = { λ x y. y ≡ x };

    ghost is_infallible = { λ _. Unit {0} };

    fn clone(&self) -> Result<Name<T>, AllocError> {
        Ok(*self)
    }
}

impl<T> Copy for Name<T> {}

/// A block that was granted and is not laid yet.
pub(crate) struct Spare<T, A: Allocator> {
    pub(crate) name: Name<T>,
    pub(crate) block: Loose<Item<T>, A>,
}

/// The blocks, in the order in which they were laid, the positions of the front and of the next item to come, and the blocks of these two.
///
/// A contract sees the positions, the names of the blocks, and the words and items of those that are held.
pub struct OwnChain<T, A: Allocator> {
    pub(crate) alloc: A,
    pub(crate) chain: Chain<Item<T>, A>,
    pub(crate) head: u64,
    pub(crate) tail: u64,
    pub(crate) head_block: Option<Name<T>>,
    pub(crate) tail_block: Option<Name<T>>,
    pub(crate) spare: Option<Spare<T, A>>,
    /// How many blocks were laid so far.
    pub(crate) laid: u64,
    /// How many of them are held.
    pub(crate) held: u64,
}

impl<T, A: Allocator> Model for OwnChain<T, A> {
    ghost use Rattle.own_cells.specs.OneChain.OwnChainCells.{OwnChain};

    ghost Value = { OwnChain T };

    ghost use Rattle.own_cells.specs.OneChain.OwnChain.{own_chain_view, IsLinked};

    ghost view = { own_chain_view };

    ghost invariant = { IsLinked };
}

/// The block whose state an operation names.
#[inline(always)]
fn state_block<T>(op: &Op<Name<T>>) -> Option<Name<T>>
    ensures { result ≡ spec_state_block op.now }
{
    match op {
        Op::Load(Word::State(block, _)) => Some(*block),
        Op::Or(Word::State(block, _), _) => Some(*block),
        _ => None,
    }
}

impl<T, A: Allocator> OwnCells for OwnChain<T, A> {
    type Item = T;

    type Block = Name<T>;

    type Steps = ChainSteps;

    ghost use Rattle.own_cells.specs.OneChain.OwnChainCells.{OwnChain, kind_of_own_chain, own_chain_can_touch, own_chain_touches, own_chain_can_perform, own_chain_performs, own_chain_can_release, own_chain_releases};
    ghost use Rattle.own_cells.specs.OneChain.OwnChainOwned.{IsIdle, own_chain_owned};

    ghost kind_of = { kind_of_own_chain };

    ghost idle = { IsIdle };

    ghost owned = { own_chain_owned };

    ghost can_touch = { own_chain_can_touch };

    ghost touches = { own_chain_touches };

    ghost can_perform = { own_chain_can_perform };

    ghost performs = { own_chain_performs };

    ghost can_release = { own_chain_can_release };

    ghost releases = { own_chain_releases };

    ghost use Rattle.std.specs.Prelude.{refl};
    ghost use Rattle.own_cells.specs.OneChain.Laws.OwnChainAnswers.{own_chain_answers, own_chain_stays};
    ghost use Rattle.own_cells.specs.OneChain.Laws.OwnChainSequential.{own_chain_sound};

    ghost steps_fit = { λ _. refl };

    ghost stays = { own_chain_stays };

    ghost sound = { own_chain_sound };

    ghost answers = { own_chain_answers };

    #[inline(always)]
    fn kind(&self) -> Kind {
        Kind::Unbounded
    }

    #[inline(always)]
    fn touch(&mut self, touch: Touch, op: &Op<Name<T>>, carried: &mut Option<T>) {
        match touch {
            Touch::Nothing => {}
            Touch::Put(slot) => match state_block(op) {
                Some(block) => self.put(block, slot, carried),
                None => unreachable!(),
            },
            Touch::Take(slot) => match state_block(op) {
                Some(block) => self.take(block, slot, carried),
                None => unreachable!(),
            },
            Touch::Swap(_) => unreachable!(),
        }
    }

    #[inline(always)]
    fn perform(&mut self, op: Op<Name<T>>) -> Answer<Name<T>>
        requires { own_chain_can_perform self.old op }
        ensures { own_chain_performs self.old op result self.new }
    {
        match op {
            Op::Load(word) => Answer::Found(self.load(word)),
            Op::Store(Word::Head, new) => {
                self.head = new;
                Answer::Done
            }
            Op::Add(Word::Tail, more) => {
                let found = self.tail;
                self.tail = found + more;
                Answer::Found(found)
            }
            Op::Or(Word::Tail, bits) => Answer::Found(self.mark(bits)),
            Op::Or(Word::State(block, slot), bits) => Answer::Found(self.set_bits(
                block, slot, bits,
            )),
            Op::Exchange(Word::Tail, expected, new) => Answer::Found(exchange(
                &mut self.tail,
                expected,
                new,
            )),
            Op::Exchange(Word::Head, expected, new) => Answer::Found(exchange(
                &mut self.head,
                expected,
                new,
            )),
            Op::LoadLink(link) => Answer::Linked(self.load_link(link)),
            Op::StoreLink(link, block) => {
                self.store_link(link, block);
                Answer::Done
            }
            Op::Install(block) => {
                self.lay(block);
                Answer::Linked(None)
            }
            Op::Ask => self.ask(),
            _ => unreachable!(),
        }
    }

    #[inline(always)]
    fn release(&mut self, block: Name<T>)
        requires { own_chain_can_release self.old block }
        ensures { own_chain_releases self.old block self.new }
    {
        let loose = self.chain.lift(block.number, block.link);
        self.held -= 1;
        loose.give_up(&self.alloc, block.link);
    }

    #[inline(always)]
    fn look(&self, op: &Op<Name<T>>) -> Answer<Name<T>>
        requires load { IsLoad op.now }
        requires can { own_chain_can_perform self.now op.now }
        ensures { own_chain_performs self.now op.now result self.now }
    {
        match op {
            Op::Load(Word::Tail) => Answer::Found(self.tail),
            Op::Load(Word::Head) => Answer::Found(self.head),
            _ => unreachable!(),
        }
    }
}
