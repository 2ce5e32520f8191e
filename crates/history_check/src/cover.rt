//! Gaps in which the queue may be empty, and values that forbid it.
use crate::calls::put_at;
use crate::crowd::Crowd;
use crate::part::Part;
use crate::values::{Value, last_to_leave};
use std::alloc::{AllocError, Allocator};

/// For each gap, the first one from there on in which no value is surely in.
#[derive(Drop)]
pub struct Bare<A: Allocator> {
    next: Vec<usize, A>,
}

impl<A: Allocator + Copy> Bare<A> {
    /// Of these values, in so many gaps and one.
    ///
    /// # Errors
    ///
    /// Where there is no memory.
    pub fn of(
        alloc: A,
        values: &[Value],
        crowd: &Crowd<A>,
        last_gap: usize,
    ) -> Result<Bare<A>, AllocError> {
        let gaps = last_gap.saturating_add(1);
        let mut entered: Vec<usize, A> = vec![in alloc; 0usize; gaps]?;
        let mut leaving: Vec<usize, A> = vec![in alloc; 0usize; gaps]?;
        for value in values {
            let from = value.enters.until.saturating_add(1);
            if value.pop.is_some() && from < value.leaves.from {
                count_at(&mut entered, from);
                count_at(&mut leaving, value.leaves.from);
            }
        }
        let mut inside = 0usize;
        for gap in 0..gaps {
            inside = inside
                .saturating_add(entered.get(gap).copied().unwrap_or(0))
                .saturating_sub(leaving.get(gap).copied().unwrap_or(0));
            put_at(&mut entered, gap, inside);
        }
        let mut first = usize::MAX;
        for back in 0..gaps {
            let gap = last_gap.saturating_sub(back);
            if entered.get(gap).copied() == Some(0) && !crowd.is_crowded(gap, gap) {
                first = gap;
            }
            put_at(&mut leaving, gap, first);
        }
        Ok(Bare { next: leaving })
    }
}

impl<A: Allocator> Bare<A> {
    /// The first gap from this one on in which no value is surely in, if there is one.
    pub fn from(&self, gap: usize) -> Option<usize> {
        match self.next.get(gap).copied() {
            Some(usize::MAX) | None => None,
            found => found,
        }
    }
}

// One more at this place.
fn count_at(counts: &mut [usize], place: usize) {
    if let Some(count) = counts.get_mut(place) {
        *count = count.saturating_add(1);
    }
}

/// Keeps values of which one at least is surely in at each gap from the one on to before the other.
///
/// # Errors
///
/// Where there is no memory.
pub fn keep_cover<A: Allocator + Copy>(
    alloc: A,
    mut part: Part<A>,
    values: &[Value],
    crowd: &Crowd<A>,
    from: usize,
    end: usize,
) -> Result<Part<A>, AllocError> {
    let mut by_push_end = Vec::new(alloc);
    for (index, value) in values.iter().enumerate() {
        if value.pop.is_some() && value.enters.until < end && value.leaves.from > from {
            by_push_end.push((value.enters.until, index))?;
        }
    }
    by_push_end.sort_unstable();
    let mut rest = by_push_end.iter();
    let mut longest: Option<Value> = None;
    let mut gap = from;
    let mut next = rest.next();
    let mut is_crowd_kept = false;
    for _ in from..end {
        if gap >= end {
            break;
        }
        for _ in 0..values.len() {
            let Some((entered, index)) = next else {
                break;
            };
            if *entered >= gap {
                break;
            }
            longest = last_to_leave(longest, values.get(*index).copied());
            next = rest.next();
        }
        match longest {
            Some(value) if value.leaves.from > gap => {
                part.kept.push(value.item)?;
                gap = value.leaves.from;
            }
            _ => {
                if !is_crowd_kept {
                    part = crowd.kept_with(part, values, end)?;
                    is_crowd_kept = true;
                }
                gap = gap.saturating_add(1);
            }
        }
    }
    Ok(part)
}
