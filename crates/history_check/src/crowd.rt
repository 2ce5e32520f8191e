//! Values that no call with an end takes, and pops without an end that may have taken some of them.
use crate::calls::Calls;
use crate::part::Part;
use crate::values::Value;
use queue_steps::model::Call;
use std::alloc::{AllocError, Allocator};

/// Values that no call with an end takes, and pops without an end.
#[derive(Drop)]
pub struct Crowd<A: Allocator> {
    // The gap in which each push ends, and the value's place, in this order.
    left: Vec<(usize, usize), A>,
    // The gaps in which the pops begin, in their order.
    takers: Vec<usize, A>,
}

impl<A: Allocator + Copy> Crowd<A> {
    /// Those of these calls.
    ///
    /// # Errors
    ///
    /// Where there is no memory.
    pub fn of(alloc: A, calls: &Calls<'_, A>, values: &[Value]) -> Result<Crowd<A>, AllocError> {
        let mut left = Vec::new(alloc);
        for (index, value) in values.iter().enumerate() {
            if value.pop.is_none() && value.leaves.from == calls.last_gap().saturating_add(1) {
                left.push((value.enters.until, index))?;
            }
        }
        left.sort_unstable();
        let mut takers = Vec::new(alloc);
        for index in 0..calls.len() {
            if let Some(made) = calls.get(index) {
                if matches!((made.call, made.reply), (Call::Pop, None)) {
                    takers.push(made.gaps.from)?;
                }
            }
        }
        Ok(Crowd { left, takers })
    }

    /// Where more values are surely in before a gap than calls begun by another may have taken: one more than these calls.
    ///
    /// # Errors
    ///
    /// Where there is no memory.
    pub fn kept_with(
        &self,
        mut part: Part<A>,
        values: &[Value],
        by: usize,
    ) -> Result<Part<A>, AllocError> {
        let most = self.takers_by(by).saturating_add(1);
        for (_, index) in self.left.iter().take(most) {
            if let Some(value) = values.get(*index) {
                part.kept.push(value.item)?;
            }
        }
        Ok(part)
    }
}

impl<A: Allocator> Crowd<A> {
    /// How many values are left.
    pub fn len(&self) -> usize {
        self.left.len()
    }

    /// How many of the values are surely in before this gap.
    pub fn in_before(&self, gap: usize) -> usize {
        self.left.partition_point(|entry| entry.0 < gap)
    }

    /// How many of the pops have begun by this gap.
    pub fn takers_by(&self, gap: usize) -> usize {
        self.takers.partition_point(|begun| *begun <= gap)
    }

    /// Whether more values are surely in before the one gap than pops begun by the other may have taken.
    pub fn is_crowded(&self, gap: usize, by: usize) -> bool {
        self.in_before(gap) > self.takers_by(by)
    }

    /// How many of the values had to leave before the last one entered that a call with an end takes.
    pub fn needed(&self, values: &[Value]) -> usize {
        let mut latest = 0;
        for value in values {
            if value.pop.is_some() {
                latest = value.enters.from.max(latest);
            }
        }
        self.in_before(latest)
    }

    /// Lets the pops take the first so many values.
    pub fn give(&self, values: &mut [Value], count: usize, last_gap: usize) {
        for ((_, index), begun) in self.left.iter().zip(self.takers.iter()).take(count) {
            if let Some(value) = values.get_mut(*index) {
                value.leaves.from = value.enters.from.max(*begun);
                value.leaves.until = last_gap;
            }
        }
    }
}
