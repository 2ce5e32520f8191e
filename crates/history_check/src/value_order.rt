//! An order of the values that agrees with the order in time of their pushes and with that of their pops.
use crate::calls::{Gaps, put_at};
use crate::values::Value;
use std::alloc::{AllocError, Allocator};
use std::cmp::Reverse;
use std::collections::BinaryHeap;

/// Which of the values that may come next is taken.
#[derive(Clone, Copy)]
pub enum Choice {
    /// The one whose push ends first.
    PushEnd,
    /// The one whose push and pop end first, both together.
    BothEnds,
    /// The one whose pop begins first.
    PopBegin,
    /// The one whose pop ends first.
    PopEnd,
}

/// Each choice.
pub const CHOICES: [Choice; 4] = [
    Choice::PushEnd,
    Choice::BothEnds,
    Choice::PopBegin,
    Choice::PopEnd,
];

impl Choice {
    // The number that is least at the value that is taken.
    fn key(self, value: &Value) -> usize {
        match self {
            Choice::PushEnd => value.enters.until,
            Choice::BothEnds => value.enters.until.saturating_add(value.leaves.until),
            Choice::PopBegin => value.leaves.from,
            Choice::PopEnd => value.leaves.until,
        }
    }
}

// One of the two orders in time: of the pushes, or of the pops.
#[derive(Clone, Copy)]
enum Side {
    Enters,
    Leaves,
}

impl Side {
    fn gaps(self, value: &Value) -> Gaps {
        match self {
            Side::Enters => value.enters,
            Side::Leaves => value.leaves,
        }
    }
}

// The values by when they begin and by when they end, and how many of each are passed.
#[derive(Drop)]
struct Sweep<A: Allocator> {
    side: Side,
    by_begin: Vec<usize, A>,
    by_end: Vec<usize, A>,
    begun: usize,
    ended: usize,
}

impl<A: Allocator + Copy> Sweep<A> {
    fn new(alloc: A, side: Side, values: &[Value]) -> Result<Sweep<A>, AllocError> {
        Ok(Sweep {
            side,
            by_begin: sorted_by(alloc, values, |value| side.gaps(value).from)?,
            by_end: sorted_by(alloc, values, |value| side.gaps(value).until)?,
            begun: 0,
            ended: 0,
        })
    }
}

impl<A: Allocator> Sweep<A> {
    // The first end of the values that have no place yet.
    fn first_end(&mut self, values: &[Value], placed: &[bool]) -> Option<usize> {
        for at in self.ended..self.by_end.len() {
            let index = self.by_end.get(at).copied()?;
            if !placed.get(index).copied()? {
                self.ended = at;
                return Some(self.side.gaps(values.get(index)?).until);
            }
        }
        None
    }

    // The next value that begins no later than this, if there is one.
    fn next_begun(&mut self, values: &[Value], until: usize) -> Option<usize> {
        let index = self.by_begin.get(self.begun).copied()?;
        if self.side.gaps(values.get(index)?).from > until {
            return None;
        }
        self.begun = self.begun.saturating_add(1);
        Some(index)
    }
}

// The places of the values in the order of a number of theirs.
fn sorted_by<A: Allocator + Copy, F: Fn(&Value) -> usize>(
    alloc: A,
    values: &[Value],
    number: F,
) -> Result<Vec<usize, A>, AllocError>
    requires { F.IsAlwaysCallable number }
{
    let mut numbered = Vec::with_capacity(alloc, values.len())?;
    for (index, value) in values.iter().enumerate() {
        numbered.push((number(value), index))?;
    }
    numbered.sort_unstable();
    let mut places = Vec::with_capacity(alloc, numbered.len())?;
    for (_, index) in numbered.iter() {
        places.push(*index)?;
    }
    Ok(places)
}

/// An order of the values, by their places, in which each comes before those that have to be pushed or popped after it. None where there is no such order.
///
/// # Errors
///
/// Where there is no memory.
pub fn in_order<A: Allocator + Copy>(
    alloc: A,
    values: &[Value],
    choice: Choice,
) -> Result<Option<Vec<usize, A>>, AllocError> {
    let mut enters = Sweep::new(alloc, Side::Enters, values)?;
    let mut leaves = Sweep::new(alloc, Side::Leaves, values)?;
    let mut ready = Ready::new(alloc, values.len())?;
    let mut placed = vec![in alloc; false; values.len()]?;
    let mut order = Vec::with_capacity(alloc, values.len())?;
    for _ in 0..values.len() {
        ready.admit(&mut enters, values, &placed, choice)?;
        ready.admit(&mut leaves, values, &placed, choice)?;
        let Some(index) = ready.take() else {
            return Ok(None);
        };
        put_at(&mut placed, index, true);
        order.push(index)?;
    }
    Ok(Some(order))
}

// The values that may come next on both sides, and those that may on one.
#[derive(Drop)]
struct Ready<A: Allocator> {
    once: Vec<bool, A>,
    both: BinaryHeap<Reverse<(usize, usize)>, A>,
}

impl<A: Allocator + Copy> Ready<A> {
    fn new(alloc: A, values: usize) -> Result<Ready<A>, AllocError> {
        Ok(Ready {
            once: vec![in alloc; false; values]?,
            both: BinaryHeap::new(alloc),
        })
    }

    // Admits the values that begin, on this side, before the first end of those without a place.
    fn admit(
        &mut self,
        sweep: &mut Sweep<A>,
        values: &[Value],
        placed: &[bool],
        choice: Choice,
    ) -> Result<(), AllocError> {
        let Some(until) = sweep.first_end(values, placed) else {
            return Ok(());
        };
        for _ in 0..values.len() {
            let Some(index) = sweep.next_begun(values, until) else {
                break;
            };
            if let (Some(true), Some(value)) = (self.once.get(index).copied(), values.get(index)) {
                self.both.push(Reverse((choice.key(value), index)))?;
            }
            put_at(&mut self.once, index, true);
        }
        Ok(())
    }

    // Takes the value with the least key.
    fn take(&mut self) -> Option<usize> {
        let Reverse((_, index)) = self.both.pop()?;
        Some(index)
    }
}
