//! One slot under one word, with one owner.
ghost use Rattle.std.specs.Prelude.{◌≡◌};
ghost use Rattle.queue_steps.specs.LookNext.{IsLoad};

use call_driver::cells::OwnCells;
use queue_steps::steps::{Answer, Kind, Op, SlotSteps, Touch, Word};
use std::mem;

/// The slot, and the word that says what is in it.
#[derive(Drop)]
pub struct OwnSlot<T> {
    pub lock: u64,
    pub item: Option<T>,
}

impl<T> OwnSlot<T> {
    /// An empty open slot.
    pub fn new() -> Self
        ensures { result ≡ record { lock = 0; item = None } }
    {
        OwnSlot {
            lock: 0,
            item: None,
        }
    }
}

impl<T> OwnCells for OwnSlot<T> {
    type Item = T;

    type Block = ();

    type Steps = SlotSteps;

    ghost use Rattle.own_cells.specs.OneSlot.OwnSlotCells.{kind_of_slot, IsIdle, slot_owned, slot_can_touch, slot_touches, slot_can_perform, slot_performs, slot_can_release, slot_releases};

    ghost kind_of = { kind_of_slot };

    ghost idle = { IsIdle };

    ghost owned = { slot_owned };

    ghost can_touch = { slot_can_touch };

    ghost touches = { slot_touches };

    ghost can_perform = { slot_can_perform };

    ghost performs = { slot_performs };

    ghost can_release = { slot_can_release };

    ghost releases = { slot_releases };

    ghost use Rattle.std.specs.Prelude.{refl};
    ghost use Rattle.own_cells.specs.OneSlot.Laws.OwnSlotAnswers.{own_slot_answers, own_slot_stays};
    ghost use Rattle.own_cells.specs.OneSlot.Laws.Sound.{slot_sound};

    ghost steps_fit = { λ _. refl };

    ghost stays = { own_slot_stays };

    ghost sound = { slot_sound };

    ghost answers = { own_slot_answers };

    #[inline(always)]
    fn kind(&self) -> Kind {
        Kind::Single
    }

    #[inline(always)]
    fn touch(&mut self, touch: Touch, _op: &Op<()>, carried: &mut Option<T>) {
        match touch {
            Touch::Nothing => {}
            Touch::Put(_) | Touch::Swap(_) | Touch::Take(_) => mem::swap(&mut self.item, carried),
        }
    }

    #[inline(always)]
    fn perform(&mut self, op: Op<()>) -> Answer<()>
        requires { slot_can_perform self.old op }
        ensures { slot_performs self.old op result self.new }
    {
        let found = self.lock;
        match op {
            Op::Load(Word::Lock) => {}
            Op::Or(Word::Lock, bits) => self.lock = found | bits,
            Op::And(Word::Lock, bits) => self.lock = found & bits,
            Op::Exchange(Word::Lock, expected, new) => {
                if found == expected {
                    self.lock = new;
                }
            }
            _ => unreachable!(),
        }
        Answer::Found(found)
    }

    #[inline(always)]
    fn release(&mut self, _block: ()) {}

    #[inline(always)]
    fn look(&self, op: &Op<()>) -> Answer<()>
        requires load { IsLoad op.now }
        requires can { slot_can_perform self.now op.now }
        ensures { slot_performs self.now op.now result self.now }
    {
        let _ = op;
        Answer::Found(self.lock)
    }
}
