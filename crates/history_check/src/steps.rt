//! What can happen next at a point.
use crate::calls::{Calls, Made};
use crate::point::{Point, Role, Watch};
use crate::recorded::{Move, Rules};
use crate::values::Value;
use queue_steps::errors::{ForcePushError, PopError, PushError};
use queue_steps::model::{Call, Reply};
use queue_steps::sizes::BLOCK_SLOTS;
use std::alloc::{AllocError, Allocator};

/// What can happen next at a point: the calls that have begun, and an order of the values.
#[derive(Drop)]
pub struct Steps<'a, A: Allocator> {
    rules: Rules,
    calls: &'a Calls<'a, A>,
    values: &'a [Value],
    order: &'a [usize],
    // How many calls have begun.
    begun: usize,
    // The calls that have begun and wait until their reply is right, and the marks that no call has.
    watches: Vec<Watch, A>,
    free: u64,
    // The pops without an end that have begun.
    takers: Vec<usize, A>,
    // The calls that have begun and may close the queue.
    closers: Vec<usize, A>,
    // Whether a call is known to have closed the queue, so that no other did.
    is_closer_known: bool,
}

impl<'a, A: Allocator + Copy> Steps<'a, A> {
    /// At the beginning of the calls.
    pub fn new(
        alloc: A,
        rules: Rules,
        calls: &'a Calls<'a, A>,
        values: &'a [Value],
        order: &'a [usize],
    ) -> Steps<'a, A> {
        Steps {
            rules,
            calls,
            values,
            order,
            begun: 0,
            watches: Vec::new(alloc),
            free: u64::MAX,
            takers: Vec::new(alloc),
            closers: Vec::new(alloc),
            is_closer_known: is_closer_known(calls),
        }
    }
}

// Whether some call is known to have closed the queue.
fn is_closer_known<A: Allocator>(calls: &Calls<'_, A>) -> bool {
    for index in 0..calls.len() {
        if let Some(made) = calls.get(index) {
            if made.reply == Some(Reply::Close(true)) {
                return true;
            }
        }
    }
    false
}

impl<'a, A: Allocator> Steps<'a, A> {
    /// The next call begins, which has this role. Its watch, if it gets one.
    ///
    /// # Errors
    ///
    /// Where there is no memory.
    pub fn begin(&mut self, index: usize, role: Role) -> Result<Option<Watch>, AllocError> {
        self.begun = index.saturating_add(1);
        let Some(made) = self.calls.get(index) else {
            return Ok(None);
        };
        match (role, made.call) {
            (Role::Looks, _) => return self.begin_to_watch(index, made),
            (Role::Closes, _) => self.closers.push(index)?,
            (Role::Unended, Call::Pop) => self.takers.push(index)?,
            (Role::Unended, Call::Close) if !self.is_closer_known => self.closers.push(index)?,
            _ => {}
        }
        Ok(None)
    }

    // The call begins to watch, if a mark is free.
    fn begin_to_watch(&mut self, index: usize, made: Made) -> Result<Option<Watch>, AllocError> {
        let Some(reply) = made.reply else {
            return Ok(None);
        };
        if self.free == 0 {
            return Ok(None);
        }
        let mask = self.free & self.free.wrapping_neg();
        self.free &= !mask;
        let watch = Watch {
            index,
            made,
            mask,
            answer: Move::See(made.party, reply),
        };
        self.watches.push(watch)?;
        Ok(Some(watch))
    }

    /// The mark of the call, if it watches.
    pub fn mask_of(&self, index: usize) -> u64 {
        for watch in self.watches.iter() {
            if watch.index == index {
                return watch.mask;
            }
        }
        0
    }

    /// The call ends that has this mark.
    pub fn end(&mut self, index: usize, mask: u64) {
        self.watches.retain(|watch| watch.index != index);
        self.free |= mask;
    }

    /// How many calls watch.
    pub fn watches(&self) -> usize {
        self.watches.len()
    }

    /// The call at this place among those that watch.
    pub fn watch(&self, place: usize) -> Option<Watch> {
        self.watches.get(place).copied()
    }

    /// Whether the call has not seen its reply before this point, and finds it right here.
    pub fn sees(&self, point: Point, watch: Watch) -> bool {
        point.seen & watch.mask == 0 && self.is_right(point, watch.made)
    }

    /// The marks of the calls that find their reply right here.
    pub fn all_seen(&self, point: Point) -> u64 {
        let mut seen = 0;
        for watch in self.watches.iter() {
            if self.sees(point, *watch) {
                seen |= watch.mask;
            }
        }
        seen
    }

    fn is_full(&self, point: Point) -> bool {
        self.rules.cap == Some(point.count())
    }

    // Whether the call's reply is right here, without an effect.
    fn is_right(&self, point: Point, made: Made) -> bool {
        let Some(reply) = made.reply else {
            return false;
        };
        let is_drained = point.count() == 0 && !point.coming;
        match (made.call, reply) {
            (Call::Push(_), Reply::Push(Err(PushError::Full(_)))) => {
                !point.closed && self.is_full(point)
            }
            (Call::Push(_), Reply::Push(Err(PushError::Closed(_))))
            | (Call::ForcePush(_), Reply::ForcePush(Err(ForcePushError::Closed(_)))) => {
                point.closed
            }
            (Call::Push(_), Reply::Push(Err(PushError::NoMemory(_))))
            | (Call::ForcePush(_), Reply::ForcePush(Err(ForcePushError::NoMemory(_)))) => {
                self.may_lack_memory(point)
            }
            (Call::Pop, Reply::Pop(Err(PopError::Empty))) => is_drained && !point.closed,
            (Call::Pop, Reply::Pop(Err(PopError::Closed))) => is_drained && point.closed,
            (Call::Close, Reply::Close(false)) => point.closed,
            (Call::IsClosed, Reply::IsClosed(answer)) => answer == point.closed,
            (Call::IsEmpty, Reply::IsEmpty(answer)) => answer == (point.count() == 0),
            (Call::IsFull, Reply::IsFull(answer)) => answer == self.is_full(point),
            (Call::Len, Reply::Len(count)) => count == point.count(),
            (Call::Capacity, Reply::Capacity(cap)) => cap == self.rules.cap,
            _ => false,
        }
    }

    // Whether a push may ask for a block, and get none.
    fn may_lack_memory(&self, point: Point) -> bool {
        let slots = BLOCK_SLOTS as usize;
        self.rules.cap.is_none()
            && !point.closed
            && (point.entered == 0 || point.entered % slots == slots - 1)
    }

    /// The points to which a move leads, each with that move: the next value enters, the next one leaves, the queue is closed.
    pub fn from(&self, point: Point) -> [Option<(Point, Move)>; 3] {
        [self.entry(point), self.exit(point), self.closing(point)]
    }

    // The value at this place of the order.
    fn value(&self, place: usize) -> Option<Value> {
        let index = self.order.get(place).copied()?;
        self.values.get(index).copied()
    }

    // The call, if it has begun.
    fn begun_call(&self, index: usize) -> Option<Made> {
        if index < self.begun {
            self.calls.get(index)
        } else {
            None
        }
    }

    // The next value enters.
    fn entry(&self, point: Point) -> Option<(Point, Move)> {
        let value = self.value(point.entered)?;
        let made = self.begun_call(value.push)?;
        let then = Point {
            entered: point.entered.saturating_add(1),
            ..point
        };
        if point.coming {
            return Some((
                Point {
                    coming: false,
                    ..then
                },
                Move::Arrive(made.party),
            ));
        }
        match (made.call, made.reply) {
            (Call::ForcePush(_), Some(Reply::ForcePush(Ok(Some(old))))) => {
                self.displacement(point, value.push, made.party, old)
            }
            (Call::ForcePush(_), _) => self.append(
                point,
                then,
                Move::Act(made.party, Reply::ForcePush(Ok(None))),
            ),
            _ => self.append(point, then, Move::Act(made.party, Reply::Push(Ok(())))),
        }
    }

    // The next value enters, if there is room.
    fn append(&self, point: Point, then: Point, next: Move) -> Option<(Point, Move)> {
        if point.closed || self.is_full(point) {
            return None;
        }
        Some((then, next))
    }

    // The next value enters a full queue in the place of the front, or is on its way in then.
    fn displacement(
        &self,
        point: Point,
        push: usize,
        party: usize,
        old: u64,
    ) -> Option<(Point, Move)> {
        if !self.is_full(point) || self.value(point.left)?.item != old {
            return None;
        }
        let reply = Reply::ForcePush(Ok(Some(old)));
        let parted = Point {
            left: point.left.saturating_add(1),
            ..point
        };
        let both = Point {
            entered: point.entered.saturating_add(1),
            ..parted
        };
        if self.rules.cap == Some(1) {
            return (!point.closed).then_some((both, Move::Act(party, reply)));
        }
        if self.rules.at_once {
            return (!point.closed).then_some((both, Move::Displace(party, reply)));
        }
        if point.closed && !self.began_open(push) {
            return None;
        }
        Some((
            Point {
                coming: true,
                ..parted
            },
            Move::Part(party, reply),
        ))
    }

    // Whether the call certainly began before the queue was closed.
    fn began_open(&self, index: usize) -> bool {
        for closer in self.closers.iter() {
            if *closer <= index {
                return false;
            }
        }
        true
    }

    // The next value leaves, by the pop that takes it or by one without an end.
    fn exit(&self, point: Point) -> Option<(Point, Move)> {
        if point.left >= point.entered {
            return None;
        }
        let value = self.value(point.left)?;
        let left = point.left.saturating_add(1);
        let reply = Reply::Pop(Ok(value.item));
        match value.pop {
            Some(pop) => {
                let made = self.begun_call(pop)?;
                if !matches!(made.call, Call::Pop) {
                    return None;
                }
                Some((Point { left, ..point }, Move::Act(made.party, reply)))
            }
            None => {
                let taker = self.takers.get(point.spent).copied()?;
                let made = self.calls.get(taker)?;
                let spent = point.spent.saturating_add(1);
                Some((
                    Point {
                        left,
                        spent,
                        ..point
                    },
                    Move::Act(made.party, reply),
                ))
            }
        }
    }

    // The queue is closed.
    fn closing(&self, point: Point) -> Option<(Point, Move)> {
        if point.closed || point.coming {
            return None;
        }
        let made = self.calls.get(self.closers.first().copied()?)?;
        Some((
            Point {
                closed: true,
                ..point
            },
            Move::Act(made.party, Reply::Close(true)),
        ))
    }
}
