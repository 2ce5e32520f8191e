//! Finds the calls of a run in one order of whole calls, each of which is one moment, a displacement too.
use crate::events::Item;
use crate::flaw::{Flaw, append};
use crate::moment::Moment;
use crate::queue::Queue;
use machine_replay::types::EffectKind;
use queue_steps::model::{Call, Reply};
use std::alloc::Global;

/// A call of a run, with the numbers of its events.
#[derive(Clone, Copy)]
struct Span {
    call: Call<Item>,
    /// That of its first step, or of its begin where it has none.
    first: usize,
    /// That of the last one and its reply, where it has ended.
    end: Option<(usize, Reply<Item>)>,
}

/// What the call of one number did to the queue at the event of another.
#[derive(Clone, Copy)]
struct Act {
    event: usize,
    call: usize,
    effect: EffectKind,
}

/// The calls of a run in the order in which they began, and what they did.
#[derive(Drop)]
pub struct History {
    calls: Vec<Span>,
    acts: Vec<Act>,
}

impl History {
    /// Of no call.
    pub fn new(alloc: Global) -> History {
        History {
            calls: Vec::new(alloc),
            acts: Vec::new(alloc),
        }
    }

    /// Notes a call that begins with this event, and gives its number.
    pub fn begin(&mut self, call: Call<Item>, event: usize) -> Result<usize, Flaw> {
        let number = self.calls.len();
        let span = Span {
            call,
            first: event,
            end: None,
        };
        append(&mut self.calls, span)?;
        Ok(number)
    }

    /// Notes that the call takes its first step at this event.
    pub fn start(&mut self, call: usize, event: usize) {
        if let Some(span) = self.calls.get_mut(call) {
            span.first = event;
        }
    }

    /// Notes what the call does at this event.
    pub fn act(&mut self, call: usize, event: usize, effect: EffectKind) -> Result<(), Flaw> {
        let act = Act {
            event,
            call,
            effect,
        };
        append(&mut self.acts, act)
    }

    /// Notes that the call ends with this event, and its reply.
    pub fn end(&mut self, call: usize, event: usize, reply: Reply<Item>) {
        if let Some(span) = self.calls.get_mut(call) {
            span.end = Some((event, reply));
        }
    }
}

// Where the calls that did something are made whole: each once, at the event of its act here. A displacement is made where it takes the front off, or right before a close that comes earlier.
fn settle(acts: &[Act], settled: &mut Vec<Act>) -> Result<(), Flaw> {
    let mut closed = false;
    for (number, act) in acts.iter().enumerate() {
        match act.effect {
            EffectKind::Arrive => {}
            EffectKind::Front if closed => {}
            EffectKind::Close | EffectKind::SelfClose => {
                closed = true;
                displace(acts, number, act.event, settled)?;
                append(settled, *act)?;
            }
            _ => append(settled, *act)?,
        }
    }
    Ok(())
}

// The displacements from the act of this number on are made at this event.
fn displace(acts: &[Act], number: usize, event: usize, settled: &mut Vec<Act>) -> Result<(), Flaw> {
    for act in acts.iter().skip(number) {
        if act.effect == EffectKind::Front {
            append(settled, Act { event, ..*act })?;
        }
    }
    Ok(())
}

/// A state of the queue, and from which event on and until before which one it stands.
#[derive(Clone, Copy)]
struct Stand {
    from: usize,
    until: usize,
    moment: Moment,
}

impl Stand {
    /// Whether it stands after one of these events.
    fn is_between(&self, first: usize, last: usize) -> bool {
        self.from < self.until && self.from <= last && first < self.until
    }
}

/// A queue that makes whole calls one after another.
#[derive(Drop)]
struct Order {
    queue: Queue,
    /// The states that it had, in their order.
    stands: Vec<Stand>,
    /// Which calls it has made.
    made: Vec<bool>,
}

/// Finds each call of a run that has ended in one order of whole calls, between its own first and last event: one that did something once, where the queue answers the same, and any other where its reply is right. Only what `len`, `is_empty` and `is_full` answer may be right beside an item on its way in alone, at the moments of the run.
///
/// # Errors
///
/// `Order` where there is none, or where it does not end as the run does, and `NoMemory`.
pub fn find_order(
    alloc: Global,
    history: &History,
    moments: &[Moment],
    queue: &Queue,
) -> Result<(), Flaw> {
    let mut settled = Vec::new(alloc);
    settle(history.acts.as_slice(), &mut settled)?;
    let mut order = Order::new(alloc, queue.capacity(), history.calls.len())?;
    order.make_calls(history, settled.as_slice())?;
    if order.has_rest(history, moments) && order.queue.is_settled(queue) {
        Ok(())
    } else {
        Err(Flaw::Order)
    }
}

impl Order {
    // Of an empty queue, and none of so many calls.
    fn new(alloc: Global, cap: Option<usize>, calls: usize) -> Result<Order, Flaw> {
        let made = Vec::from_elem(alloc, false, calls)?;
        Ok(Order {
            queue: Queue::new(alloc, cap),
            stands: Vec::new(alloc),
            made,
        })
    }

    // Makes the calls of these acts.
    fn make_calls(&mut self, history: &History, settled: &[Act]) -> Result<(), Flaw> {
        self.note(0)?;
        for act in settled {
            self.make_call(history, *act)?;
        }
        Ok(())
    }

    // Notes the state that the queue has from this event on.
    fn note(&mut self, event: usize) -> Result<(), Flaw> {
        if let Some(before) = self.stands.last_mut() {
            before.until = event;
        }
        let stand = Stand {
            from: event,
            until: usize::MAX,
            moment: self.queue.moment(),
        };
        append(&mut self.stands, stand)
    }

    // Makes the call of an act, which was not made yet, in its time.
    fn make_call(&mut self, history: &History, act: Act) -> Result<(), Flaw> {
        let (Some(span), Some(made)) = (history.calls.get(act.call), self.made.get_mut(act.call))
        else {
            return Err(Flaw::Order);
        };
        if *made || act.event < span.first {
            return Err(Flaw::Order);
        }
        *made = true;
        let reply = self.queue.make(span.call)?;
        match span.end {
            Some((last, told)) if act.event > last || told != reply => return Err(Flaw::Order),
            _ => {}
        }
        self.note(act.event)
    }

    // Whether each other call that has ended is right at one of its moments.
    fn has_rest(&self, history: &History, moments: &[Moment]) -> bool {
        for (span, made) in history.calls.iter().zip(self.made.iter()) {
            if !*made && !self.has(span, moments) {
                return false;
            }
        }
        true
    }

    fn has(&self, span: &Span, moments: &[Moment]) -> bool {
        let Some((last, reply)) = span.end else {
            return true;
        };
        for stand in self.stands.iter() {
            if stand.is_between(span.first, last) && stand.moment.answers(span.call, reply) {
                return true;
            }
        }
        let seen = moments.get(span.first..last.wrapping_add(1)).unwrap_or(&[]);
        is_glance(span.call) && is_glanced(span.call, reply, seen)
    }
}

// The calls that may see the queue while an item is on its way in.
fn is_glance(call: Call<Item>) -> bool {
    matches!(call, Call::Len | Call::IsEmpty | Call::IsFull)
}

// Whether the reply is right at one of these moments of the run, with an item on its way in.
fn is_glanced(call: Call<Item>, reply: Reply<Item>, moments: &[Moment]) -> bool {
    for moment in moments {
        if moment.coming && moment.answers(call, reply) {
            return true;
        }
    }
    false
}
