//! Reads what is told of a run, event by event, beside a queue that does what is told.
use crate::events::Item;
use crate::flaw::{Flaw, append};
use crate::moment::{Moment, may_answer};
use crate::orders::{History, find_order};
use crate::queue::{Deed, Queue};
use machine_replay::types::{EffectKind, Event, Peak, Replay};
use queue_steps::model::{Call, Reply};
use queue_steps::sizes::{BLOCK_SLOTS, WAIT_FREE_STEPS};
use std::alloc::{Allocator, Global};

/// A call that its party is in.
#[derive(Clone, Copy)]
struct InCall {
    /// Its number in the history.
    number: usize,
    call: Call<Item>,
    /// How many steps of its own it has taken.
    steps: u64,
    /// The number of the moment after its first own step.
    first: usize,
    done: Deed,
    /// Whether the queue was open after one of its own steps.
    read_open: bool,
}

impl InCall {
    /// The call of one number that begins, before the moment of another.
    fn begin(number: usize, call: Call<Item>, first: usize) -> InCall {
        InCall {
            number,
            call,
            steps: 0,
            first,
            done: Deed::Nothing,
            read_open: false,
        }
    }

    /// Lets it do this to the queue. A front is taken off only by a call that read the queue open at an earlier step.
    fn apply(&mut self, effect: EffectKind, queue: &mut Queue) -> Result<(), Flaw> {
        if effect == EffectKind::Front && !self.read_open {
            return Err(Flaw::Effect);
        }
        self.done = queue.apply(effect, self.call, self.done)?;
        Ok(())
    }

    /// Whether it may take no more steps.
    fn is_due(&self) -> bool {
        match self.call {
            Call::Close | Call::IsClosed | Call::IsEmpty | Call::IsFull => {
                self.steps >= WAIT_FREE_STEPS
            }
            _ => false,
        }
    }

    /// Whether it may end with this reply after these moments, the first of which comes after its first own step.
    fn may_end(&self, reply: Reply<Item>, moments: &[Moment]) -> bool {
        match self.done {
            Deed::Nothing => may_answer(moments, self.call, reply),
            Deed::TookFront(_) => false,
            Deed::All(owed) => owed == reply,
        }
    }
}

/// What is told of one event.
#[derive(Clone, Copy)]
struct Entry {
    skipped: bool,
    effect: Option<EffectKind>,
    reply: Option<Reply<Item>>,
}

impl Entry {
    // It ends no call.
    fn is_unanswered(self) -> Result<(), Flaw> {
        match self.reply {
            None => Ok(()),
            Some(_) => Err(Flaw::Reply),
        }
    }

    // It does nothing to the queue, and is skipped where it does not fit.
    fn is_idle(self, fits: bool) -> Result<(), Flaw> {
        if self.skipped == fits {
            return Err(Flaw::Skip);
        }
        match self.effect {
            None => Ok(()),
            Some(_) => Err(Flaw::Effect),
        }
    }
}

/// A run that is read.
#[derive(Drop)]
struct Reader<'a> {
    queue: Queue,
    calls: Vec<Option<InCall>>,
    /// How many calls have begun and not ended.
    in_progress: u64,
    /// The queue after each event.
    moments: Vec<Moment>,
    history: History,
    peak: Peak,
    /// The most blocks that the items lay in.
    spanned: u64,
    /// Whether the bound on blocks was that of a moment.
    bounded: bool,
    /// What is told of later events.
    effects: &'a [(usize, usize, EffectKind)],
    replies: &'a [(usize, usize, Reply<Item>)],
    skipped: &'a [usize],
}

/// Reads what is told of the run of these events, on a queue of this capacity, and gives how many calls have not ended.
///
/// # Errors
///
/// What is wrong with it: an effect, a reply or a skipped event that no queue could have, a list that is not left, blocks out of their bound, or calls that stand in no order of whole ones.
pub fn read<A: Allocator>(
    alloc: Global,
    cap: Option<usize>,
    parties: usize,
    events: &[Event<Item>],
    run: &Replay<Item, A>,
) -> Result<u64, Flaw> {
    let calls = Vec::from_elem(alloc, None, parties)?;
    let mut reader = Reader {
        queue: Queue::new(alloc, cap),
        calls,
        in_progress: 0,
        moments: Vec::new(alloc),
        history: History::new(alloc),
        peak: run.peak,
        spanned: 0,
        bounded: false,
        effects: run.effects.as_slice(),
        replies: run.replies.as_slice(),
        skipped: run.skipped.as_slice(),
    };
    reader.read_all(alloc, events, run.left.as_slice())
}

impl<'a> Reader<'a> {
    fn read_all(
        &mut self,
        alloc: Global,
        events: &[Event<Item>],
        left: &[Item],
    ) -> Result<u64, Flaw> {
        self.note_blocks();
        for (number, event) in events.iter().enumerate() {
            self.read_event(number, event)?;
            self.note_blocks();
        }
        self.end(left)?;
        find_order(alloc, &self.history, self.moments.as_slice(), &self.queue)?;
        Ok(self.in_progress)
    }

    fn read_event(&mut self, number: usize, event: &Event<Item>) -> Result<(), Flaw> {
        match event {
            Event::Begin(party, call) => {
                let entry = self.entry(number, *party)?;
                self.read_begin(*party, *call, entry)
            }
            Event::Step(party, _) => {
                let entry = self.entry(number, *party)?;
                self.read_step(*party, entry)
            }
        }
    }

    // What is told of the event of this number, which is this party's.
    fn entry(&mut self, number: usize, party: usize) -> Result<Entry, Flaw> {
        Ok(Entry {
            skipped: self.is_skipped(number),
            effect: next_of(&mut self.effects, number, party, Flaw::Effect)?,
            reply: next_of(&mut self.replies, number, party, Flaw::Reply)?,
        })
    }

    fn is_skipped(&mut self, number: usize) -> bool {
        match self.skipped.split_first() {
            Some((first, rest)) if *first == number => {
                self.skipped = rest;
                true
            }
            _ => false,
        }
    }

    fn put(&mut self, party: usize, call: Option<InCall>) {
        if let Some(place) = self.calls.get_mut(party) {
            *place = call;
        }
    }

    fn read_begin(&mut self, party: usize, call: Call<Item>, entry: Entry) -> Result<(), Flaw> {
        // Its party is one of the run, and is between calls.
        let fits = matches!(self.calls.get(party), Some(None));
        entry.is_idle(fits)?;
        let first = self.moments.len();
        self.note_moment()?;
        if !fits {
            return entry.is_unanswered();
        }
        let number = self.history.begin(call, first)?;
        let in_call = InCall::begin(number, call, first);
        self.in_progress = self.in_progress.wrapping_add(1);
        if self.has_no_steps(call) {
            return self.read_reply(in_call, entry.reply);
        }
        self.put(party, Some(in_call));
        entry.is_unanswered()
    }

    fn read_step(&mut self, party: usize, entry: Entry) -> Result<(), Flaw> {
        let Some(Some(in_call)) = self.calls.get_mut(party) else {
            self.note_moment()?;
            entry.is_idle(false)?;
            return entry.is_unanswered();
        };
        if entry.skipped {
            return Err(Flaw::Skip);
        }
        let event = self.moments.len();
        if in_call.steps == 0 {
            in_call.first = event;
            self.history.start(in_call.number, event);
        }
        in_call.steps = in_call.steps.wrapping_add(1);
        if let Some(effect) = entry.effect {
            self.history.act(in_call.number, event, effect)?;
            in_call.apply(effect, &mut self.queue)?;
        }
        in_call.read_open = in_call.read_open || self.queue.is_open();
        let in_call = *in_call;
        self.note_moment()?;
        if entry.reply.is_none() && !in_call.is_due() {
            return Ok(());
        }
        self.put(party, None);
        self.read_reply(in_call, entry.reply)
    }

    // Notes the queue as it is now.
    fn note_moment(&mut self) -> Result<(), Flaw> {
        append(&mut self.moments, self.queue.moment())
    }

    fn has_no_steps(&self, call: Call<Item>) -> bool {
        match call {
            Call::Capacity => true,
            Call::IsFull => self.queue.capacity().is_none(),
            _ => false,
        }
    }

    // Reads the reply of a call that is to have one now.
    fn read_reply(&mut self, in_call: InCall, reply: Option<Reply<Item>>) -> Result<(), Flaw> {
        let Some(reply) = reply else {
            return Err(Flaw::WaitFree);
        };
        self.in_progress = self.in_progress.wrapping_sub(1);
        let last = self.moments.len().wrapping_sub(1);
        self.history.end(in_call.number, last, reply);
        let moments = self.moments.get(in_call.first..).unwrap_or(&[]);
        if in_call.may_end(reply, moments) {
            Ok(())
        } else {
            Err(Flaw::Reply)
        }
    }

    // Compares the bound on blocks with what may be held at this moment.
    fn note_blocks(&mut self) {
        self.spanned = self.spanned.max(self.queue.spanned());
        let len = self.queue.items().len() as u64;
        let share = (len / BLOCK_SLOTS)
            .wrapping_add(2)
            .wrapping_add(self.in_progress);
        if share == self.peak.bound as u64 {
            self.bounded = true;
        }
    }

    fn end(&self, left: &[Item]) -> Result<(), Flaw> {
        if !self.skipped.is_empty() {
            return Err(Flaw::Skip);
        }
        if !self.effects.is_empty() {
            return Err(Flaw::Effect);
        }
        if !self.replies.is_empty() {
            return Err(Flaw::Reply);
        }
        if left != self.queue.items() {
            return Err(Flaw::Left);
        }
        if self.has_right_blocks() {
            Ok(())
        } else {
            Err(Flaw::Blocks)
        }
    }

    fn has_right_blocks(&self) -> bool {
        let Peak { blocks, bound } = self.peak;
        match self.queue.capacity() {
            Some(_) => blocks == 0 && bound == 2,
            None => self.bounded && blocks <= bound && self.spanned <= blocks as u64,
        }
    }
}

// What the first of these entries tells, which goes, if it is of the event of this number: then it has to be this party's.
fn next_of<E: Copy>(
    entries: &mut &[(usize, usize, E)],
    number: usize,
    party: usize,
    other_party: Flaw,
) -> Result<Option<E>, Flaw> {
    let later = *entries;
    match later.split_first() {
        Some(((at, whose, told), rest)) if *at == number => {
            *entries = rest;
            if *whose == party {
                Ok(Some(*told))
            } else {
                Err(other_party)
            }
        }
        _ => Ok(None),
    }
}
