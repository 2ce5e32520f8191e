//! What is wrong with a history, by the values that show it; or when its values may enter and leave at most.
//!
//! Nobody has to trust this: where values are said to show that there is no order, a search of what remains has to find none.
use crate::calls::{Calls, Gaps};
use crate::closing::{Closing, Mark, left_in, open_again, unclosed};
use crate::cover::{Bare, keep_cover};
use crate::crowd::Crowd;
use crate::part::{Part, earlier};
use crate::values::{Claim, Value, last_to_enter, last_to_leave, values_of};
use std::alloc::{AllocError, Allocator};

/// What is seen at a history.
#[derive(Drop)]
pub enum Sight<A: Allocator> {
    /// These values may have no order.
    Wrong(Part<A>),
    /// Nothing is wrong with it that is looked for. The values, with the gaps that remain to them.
    Values(Vec<Value, A>),
    /// Two calls bring equal values.
    Equal,
}

/// What is seen at these calls.
///
/// # Errors
///
/// Where there is no memory.
pub fn look_at<A: Allocator + Copy>(
    alloc: A,
    calls: &Calls<'_, A>,
) -> Result<Sight<A>, AllocError> {
    let mut values = match values_of(alloc, calls)? {
        Claim::Values(values) => values,
        Claim::Wrong(wrong) => {
            let part = Part::new(alloc, false, wrong.by).with(wrong.item)?;
            return Ok(Sight::Wrong(part));
        }
        Claim::Equal => return Ok(Sight::Equal),
    };
    let crowd = Crowd::of(alloc, calls, &values)?;
    let mut first = earlier(swapped(alloc, &values)?, overdue(alloc, &values, &crowd)?);
    let bare = Bare::of(alloc, &values, &crowd, calls.last_gap())?;
    let mut closing = Closing::of(alloc, calls)?;
    let moments = Moments::of(alloc, calls, &bare, &mut closing)?;
    if let Some(covered) = moments.covered {
        let part = Part::new(alloc, true, covered.until);
        let part = keep_cover(
            alloc,
            part,
            &values,
            &crowd,
            covered.from,
            covered.until.saturating_add(1),
        )?;
        first = earlier(first, Some(part));
    }
    first = earlier(first, unclosed(alloc, calls, &closing)?);
    first = earlier(
        first,
        open_again(alloc, calls, &closing, &values, &crowd, &bare)?,
    );
    if let Some(end) = moments.drained_by {
        first = earlier(first, left_in(alloc, &values, &crowd, end)?);
    }
    if let Some(part) = first {
        return Ok(Sight::Wrong(part));
    }
    moments.narrow(&mut values, &crowd, &closing, calls.last_gap());
    Ok(Sight::Values(values))
}

// Two values that entered in one order and left in the other: of these the two whose second leaves first.
fn swapped<A: Allocator + Copy>(alloc: A, values: &[Value]) -> Result<Option<Part<A>>, AllocError> {
    let mut by_push_end = Vec::with_capacity(alloc, values.len())?;
    for (index, value) in values.iter().enumerate() {
        if value.pop.is_some() {
            by_push_end.push((value.enters.until, index))?;
        }
    }
    by_push_end.sort_unstable();
    let mut entered = by_push_end.iter();
    let mut next = entered.next();
    let mut latest: Option<Value> = None;
    let mut found: Option<(Value, Value)> = None;
    // (They are there in the order in which their pushes begin.)
    for second in values {
        if second.pop.is_none() {
            continue;
        }
        for _ in 0..values.len() {
            let Some((end, index)) = next else {
                break;
            };
            if *end >= second.enters.from {
                break;
            }
            latest = last_to_leave(latest, values.get(*index).copied());
            next = entered.next();
        }
        if let Some(one) = latest {
            if one.leaves.from > second.leaves.until && is_earlier(*second, found) {
                found = Some((one, *second));
            }
        }
    }
    match found {
        Some((one, second)) => {
            let part = Part::new(alloc, false, second.leaves.until);
            Ok(Some(part.with(one.item)?.with(second.item)?))
        }
        None => Ok(None),
    }
}

// Whether the value leaves before the second one that was found.
fn is_earlier(value: Value, found: Option<(Value, Value)>) -> bool {
    match found {
        Some((_, second)) => value.leaves.until < second.leaves.until,
        None => true,
    }
}

// A value before which more had to leave than pops without an end may have taken.
fn overdue<A: Allocator + Copy>(
    alloc: A,
    values: &[Value],
    crowd: &Crowd<A>,
) -> Result<Option<Part<A>>, AllocError> {
    let mut by_pop_end = Vec::with_capacity(alloc, values.len())?;
    for (index, value) in values.iter().enumerate() {
        if value.pop.is_some() {
            by_pop_end.push((value.leaves.until, index))?;
        }
    }
    by_pop_end.sort_unstable();
    let mut latest: Option<Value> = None;
    for (end, index) in by_pop_end.iter() {
        latest = last_to_enter(latest, values.get(*index).copied());
        let Some(last) = latest else {
            continue;
        };
        if crowd.is_crowded(last.enters.from, *end) {
            let part = Part::new(alloc, false, *end).with(last.item)?;
            return Ok(Some(crowd.kept_with(part, values, *end)?));
        }
    }
    Ok(None)
}

// When the queue is empty.
#[derive(Drop)]
struct Moments<A: Allocator> {
    // The gaps in which calls find it empty and open, in their order.
    bare: Vec<usize, A>,
    // The gaps of a call that cannot find it empty: of these the one that ends first.
    covered: Option<Gaps>,
    // The gap by which it is closed and empty.
    drained_by: Option<usize>,
}

impl<A: Allocator + Copy> Moments<A> {
    // Each call that finds the queue empty does so as early as it may. The queue is open then.
    fn of(
        alloc: A,
        calls: &Calls<'_, A>,
        bare: &Bare<A>,
        closing: &mut Closing<A>,
    ) -> Result<Moments<A>, AllocError> {
        let mut moments = Moments {
            bare: Vec::new(alloc),
            covered: None,
            drained_by: None,
        };
        for place in 0..closing.empties.len() {
            if let Some(call) = closing.empties.get(place).copied() {
                moments.find_empty(calls, bare, closing, call)?;
            }
        }
        for place in 0..closing.looks.len() {
            let Some(call) = closing.looks.get(place).copied() else {
                continue;
            };
            let Some(made) = calls.get(call) else {
                continue;
            };
            let first = bare.from(made.gaps.from).unwrap_or(usize::MAX);
            if closing.closer().is_some() && closing.is_shut_by(first) {
                moments.drain(made.gaps.until);
            } else {
                moments.find_empty(calls, bare, closing, call)?;
            }
        }
        for call in closing.drained.iter() {
            if let Some(made) = calls.get(*call) {
                moments.drain(made.gaps.until);
            }
        }
        moments.bare.sort_unstable();
        Ok(moments)
    }
}

impl<A: Allocator> Moments<A> {
    // The call finds the queue empty, as early as it may.
    fn find_empty(
        &mut self,
        calls: &Calls<'_, A>,
        bare: &Bare<A>,
        closing: &mut Closing<A>,
        call: usize,
    ) -> Result<(), AllocError> {
        let Some(made) = calls.get(call) else {
            return Ok(());
        };
        match bare.from(made.gaps.from) {
            Some(gap) if gap <= made.gaps.until => {
                closing.needs_open(call, gap);
                self.bare.push(gap)?;
            }
            _ => match self.covered {
                Some(first) if first.until <= made.gaps.until => {}
                _ => self.covered = Some(made.gaps),
            },
        }
        Ok(())
    }

    // The queue is closed and empty in this gap.
    fn drain(&mut self, gap: usize) {
        self.drained_by = Some(match self.drained_by {
            Some(first) => first.min(gap),
            None => gap,
        });
    }

    // How many values pops without an end have to take.
    fn needed(&self, values: &[Value], crowd: &Crowd<A>) -> usize {
        if self.drained_by.is_some() {
            return crowd.len();
        }
        let mut latest = self.bare.last().copied().unwrap_or(0);
        for value in values {
            if value.pop.is_some() {
                latest = latest.max(value.enters.from);
            }
        }
        crowd.in_before(latest)
    }

    // Narrows the gaps of the values by what these moments and the close leave. A gap is four: in the second the queue is empty for calls that need it, in the third it is closed.
    fn narrow(
        &self,
        values: &mut [Value],
        crowd: &Crowd<A>,
        closing: &Closing<A>,
        last_gap: usize,
    ) {
        let needed = self.needed(values, crowd);
        crowd.give(values, needed, last_gap);
        let close = match (closing.closer(), closing.open) {
            (Some(_), Some(Mark { gap, .. })) => part_of(gap, 2),
            _ => usize::MAX,
        };
        let drained = part_of(self.drained_by.unwrap_or(last_gap), 3);
        for index in 0..values.len() {
            if let Some(value) = values.get_mut(index) {
                let leaves = value.leaves;
                let is_taken = leaves.until <= last_gap;
                value.enters = within(value.enters, close);
                value.leaves = within(leaves, if is_taken { drained } else { usize::MAX });
                if is_taken {
                    self.put_aside(value, leaves.from);
                }
            }
        }
    }

    // Puts the value, which a pop takes from this gap on, before or after each moment at which the queue is empty.
    fn put_aside(&self, value: &mut Value, leaves_from: usize) {
        let before = self.bare.partition_point(|gap| *gap < leaves_from);
        if let Some(gap) = self.bare.get(before) {
            let end = part_of(*gap, 0);
            value.enters.until = value.enters.until.min(end);
            value.leaves.until = value.leaves.until.min(end);
        }
        if let Some(last) = before.checked_sub(1) {
            if let Some(gap) = self.bare.get(last) {
                value.enters.from = value.enters.from.max(part_of(*gap, 2));
                value.leaves.from = value.leaves.from.max(value.enters.from);
            }
        }
    }
}

// The part of a gap.
fn part_of(gap: usize, part: usize) -> usize {
    gap.saturating_mul(4).saturating_add(part)
}

// The parts of these gaps, up to this one.
fn within(gaps: Gaps, last: usize) -> Gaps {
    Gaps {
        from: part_of(gaps.from, 0),
        until: part_of(gaps.until, 3).min(last),
    }
}
