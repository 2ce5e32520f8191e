//! Calls that need an open queue, calls that need a closed one, and those that close it.
use crate::calls::{Calls, Made};
use crate::cover::{Bare, keep_cover};
use crate::crowd::Crowd;
use crate::part::Part;
use crate::values::Value;
use queue_steps::errors::{ForcePushError, PopError, PushError};
use queue_steps::model::{Call, Reply};
use std::alloc::{AllocError, Allocator};

/// A call, by its place, and a gap.
#[derive(Clone, Copy)]
pub struct Mark {
    pub call: usize,
    pub gap: usize,
}

/// What the calls of a history say of its close.
#[derive(Drop)]
pub struct Closing<A: Allocator> {
    // The pops that find an open queue empty.
    pub empties: Vec<usize, A>,
    // The calls that find it empty, open or closed.
    pub looks: Vec<usize, A>,
    // The pops that find it empty and closed.
    pub drained: Vec<usize, A>,
    // The last call that needs an open queue, and from when on.
    pub open: Option<Mark>,
    // The first call that needs a closed queue, and until when.
    pub shut: Option<Mark>,
    // The calls that closed the queue.
    pub closers: Vec<usize, A>,
    // The first call without an end that may have closed it.
    pub may_close: Option<usize>,
}

impl<A: Allocator + Copy> Closing<A> {
    /// What these calls say.
    ///
    /// # Errors
    ///
    /// Where there is no memory.
    pub fn of(alloc: A, calls: &Calls<'_, A>) -> Result<Closing<A>, AllocError> {
        let mut closing = Closing {
            empties: Vec::new(alloc),
            looks: Vec::new(alloc),
            drained: Vec::new(alloc),
            open: None,
            shut: None,
            closers: Vec::new(alloc),
            may_close: None,
        };
        for call in 0..calls.len() {
            if let Some(made) = calls.get(call) {
                closing.note(call, made)?;
            }
        }
        if let Some(closer) = closing.closer() {
            if let Some(made) = calls.get(closer) {
                closing.needs_open(closer, made.gaps.from);
            }
        }
        Ok(closing)
    }
}

impl<A: Allocator> Closing<A> {
    // Notes what the call says.
    fn note(&mut self, call: usize, made: Made) -> Result<(), AllocError> {
        match (made.call, made.reply) {
            (Call::Push(_), Some(Reply::Push(Ok(()))))
            | (Call::ForcePush(_), Some(Reply::ForcePush(Ok(_))))
            | (Call::IsClosed, Some(Reply::IsClosed(false))) => {
                self.needs_open(call, made.gaps.from);
            }
            (Call::Push(_), Some(Reply::Push(Err(PushError::Closed(_)))))
            | (Call::ForcePush(_), Some(Reply::ForcePush(Err(ForcePushError::Closed(_)))))
            | (Call::IsClosed, Some(Reply::IsClosed(true)))
            | (Call::Close, Some(Reply::Close(false))) => {
                self.needs_shut(call, made.gaps.until);
            }
            (Call::Pop, Some(Reply::Pop(Err(PopError::Closed)))) => {
                self.needs_shut(call, made.gaps.until);
                self.drained.push(call)?;
            }
            (Call::Pop, Some(Reply::Pop(Err(PopError::Empty)))) => self.empties.push(call)?,
            (Call::IsEmpty, Some(Reply::IsEmpty(true))) => self.looks.push(call)?,
            (Call::Close, Some(Reply::Close(true))) => {
                self.needs_shut(call, made.gaps.until);
                self.closers.push(call)?;
            }
            (Call::Close, None) => {
                if self.may_close.is_none() {
                    self.may_close = Some(call);
                }
            }
            _ => {}
        }
        Ok(())
    }

    /// The queue is open in this gap, for the sake of this call.
    pub fn needs_open(&mut self, call: usize, gap: usize) {
        match self.open {
            Some(last) if last.gap >= gap => {}
            _ => self.open = Some(Mark { call, gap }),
        }
    }

    /// The queue is closed in this gap, for the sake of this call.
    fn needs_shut(&mut self, call: usize, gap: usize) {
        match self.shut {
            Some(first) if first.gap <= gap => {}
            _ => self.shut = Some(Mark { call, gap }),
        }
    }

    /// Whether a call has closed the queue before this gap is over.
    pub fn is_shut_by(&self, gap: usize) -> bool {
        match self.shut {
            Some(first) => gap > first.gap,
            None => false,
        }
    }

    /// The call that closes the queue, if one does.
    pub fn closer(&self) -> Option<usize> {
        if let Some(known) = self.closers.first().copied() {
            return Some(known);
        }
        self.shut.and(self.may_close)
    }
}

/// The part that two calls are which both closed the queue, or one that finds it closed where none may have closed it.
///
/// # Errors
///
/// Where there is no memory.
pub fn unclosed<A: Allocator + Copy>(
    alloc: A,
    calls: &Calls<'_, A>,
    closing: &Closing<A>,
) -> Result<Option<Part<A>>, AllocError> {
    if let Some(call) = closing.closers.get(1).copied() {
        if let Some(second) = calls.get(call) {
            return Ok(Some(Part::new(alloc, false, second.gaps.until)));
        }
    }
    match (closing.shut, closing.closer()) {
        (Some(first), None) => {
            let part = Part::new(alloc, true, first.gap);
            Ok(Some(with_value_of(part, calls, first.call)?))
        }
        _ => Ok(None),
    }
}

/// The part that a call is which needs an open queue after one that needs a closed one.
///
/// # Errors
///
/// Where there is no memory.
pub fn open_again<A: Allocator + Copy>(
    alloc: A,
    calls: &Calls<'_, A>,
    closing: &Closing<A>,
    values: &[Value],
    crowd: &Crowd<A>,
    bare: &Bare<A>,
) -> Result<Option<Part<A>>, AllocError> {
    let (Some(last), Some(first)) = (closing.open, closing.shut) else {
        return Ok(None);
    };
    if last.gap <= first.gap {
        return Ok(None);
    }
    let Some(made) = calls.get(last.call) else {
        return Ok(None);
    };
    let part = Part::new(alloc, true, made.gaps.until);
    let part = with_value_of(part, calls, first.call)?;
    let mut part = with_value_of(part, calls, last.call)?;
    if matches!(made.call, Call::Pop | Call::IsEmpty) {
        let end = bare.from(made.gaps.from).unwrap_or(made.gaps.until);
        part = keep_cover(alloc, part, values, crowd, made.gaps.from, end)?;
    }
    Ok(Some(part))
}

// The part with the value of the call too, if it carries one.
fn with_value_of<A: Allocator + Copy>(
    part: Part<A>,
    calls: &Calls<'_, A>,
    call: usize,
) -> Result<Part<A>, AllocError> {
    match calls.get(call) {
        Some(made) => match made.call {
            Call::Push(value) | Call::ForcePush(value) => part.with(value),
            _ => Ok(part),
        },
        None => Ok(part),
    }
}

/// The part that is left in the queue where a pop finds it empty and closed.
///
/// # Errors
///
/// Where there is no memory.
pub fn left_in<A: Allocator + Copy>(
    alloc: A,
    values: &[Value],
    crowd: &Crowd<A>,
    end: usize,
) -> Result<Option<Part<A>>, AllocError> {
    for value in values {
        if value.pop.is_some() && value.leaves.from > end {
            return Ok(Some(Part::new(alloc, true, end).with(value.item)?));
        }
    }
    if crowd.len() > crowd.takers_by(end) {
        let part = Part::new(alloc, true, end);
        return Ok(Some(crowd.kept_with(part, values, end)?));
    }
    Ok(None)
}
