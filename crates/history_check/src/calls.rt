//! The calls of a history, in the order in which they begin.
use crate::recorded::Event;
use queue_steps::model::{Call, Reply};
use std::alloc::{AllocError, Allocator};

/// The gaps between events in which something may happen. Gap g is the time at which g events are taken.
#[derive(Clone, Copy)]
pub struct Gaps {
    pub from: usize,
    pub until: usize,
}

/// A call as it was recorded.
#[derive(Clone, Copy)]
pub struct Made {
    pub party: usize,
    pub call: Call<u64>,
    /// Its reply, if it ends.
    pub reply: Option<Reply<u64>>,
    /// When it may have its effect. Without an end it may in the last gap too.
    pub gaps: Gaps,
}

// The places of a call's events.
#[derive(Clone, Copy)]
struct Span {
    begin: usize,
    end: Option<usize>,
}

/// The calls of a history, in the order in which they begin.
#[derive(Drop)]
pub struct Calls<'a, A: Allocator> {
    events: &'a [Event],
    spans: Vec<Span, A>,
}

impl<'a, A: Allocator + Copy> Calls<'a, A> {
    /// The calls of these events. None where a party begins a call within another, ends none, or is not one of so many.
    ///
    /// # Errors
    ///
    /// Where there is no memory.
    pub fn of(
        alloc: A,
        parties: usize,
        events: &'a [Event],
    ) -> Result<Option<Calls<'a, A>>, AllocError> {
        let mut spans: Vec<Span, A> = Vec::with_capacity(alloc, events.len() / 2)?;
        let mut open: Vec<Option<usize>, A> = vec![in alloc; None; parties]?;
        for (at, event) in events.iter().enumerate() {
            match *event {
                Event::Begin(party, _) => {
                    let Some(None) = open.get(party).copied() else {
                        return Ok(None);
                    };
                    put_at(&mut open, party, Some(spans.len()));
                    spans.push(Span {
                        begin: at,
                        end: None,
                    })?;
                }
                Event::End(party, _) => {
                    let Some(Some(index)) = open.get(party).copied() else {
                        return Ok(None);
                    };
                    put_at(&mut open, party, None);
                    if let Some(span) = spans.get_mut(index) {
                        span.end = Some(at);
                    }
                }
            }
        }
        Ok(Some(Calls { events, spans }))
    }
}

impl<'a, A: Allocator> Calls<'a, A> {
    /// How many there are.
    pub fn len(&self) -> usize {
        self.spans.len()
    }

    /// How many events there are.
    pub fn last_gap(&self) -> usize {
        self.events.len()
    }

    /// The events.
    pub fn events(&self) -> &'a [Event] {
        self.events
    }

    /// The call at this place.
    pub fn get(&self, index: usize) -> Option<Made> {
        let span = self.spans.get(index).copied()?;
        let Event::Begin(party, call) = self.events.get(span.begin).copied()? else {
            return None;
        };
        Some(Made {
            party,
            call,
            reply: self.reply_of(span),
            gaps: Gaps {
                from: span.begin.saturating_add(1),
                until: span.end.unwrap_or(self.events.len()),
            },
        })
    }

    // The reply by which the call ends.
    fn reply_of(&self, span: Span) -> Option<Reply<u64>> {
        match self.events.get(span.end?).copied()? {
            Event::End(_, reply) => Some(reply),
            Event::Begin(_, _) => None,
        }
    }
}

/// Puts the item at this place, where there is one.
pub fn put_at<T: Copy>(items: &mut [T], place: usize, item: T) {
    if let Some(old) = items.get_mut(place) {
        *old = item;
    }
}
