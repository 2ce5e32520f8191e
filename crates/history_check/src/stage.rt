//! Where an order of calls is.
ghost use Rattle.std.specs.Prelude.{◌≡◌, ◌∷◌, [], ℕ, Bool, true, false, Option, List, Some, None, IfOk, IfSome, IfNone, drop, length, slice_get};
ghost use Rattle.queue_steps.specs.Replies.{Tells};
ghost use Rattle.queue_steps.specs.declared.model.Call.{Call as SpecCall};
ghost use Rattle.queue_steps.specs.declared.model.Effect.{Effect as SpecEffect};
ghost use Rattle.queue_steps.specs.declared.model.Reply.{Reply as SpecReply};
ghost use Rattle.queue_steps.specs.declared.model.Effect.TheVariants as effect;
ghost use Rattle.history_check.specs.Legal.{Stage as SpecStage, opening, IsAt, moved, MayRecord, recorded, Makes, Takes};
ghost use Rattle.history_check.specs.Levels.{IsExpected, Acts, OnlySees};
ghost use Rattle.history_check.specs.declared.recorded.Way.{Way as SpecWay};
ghost use Rattle.history_check.specs.declared.recorded.Way.TheVariants.{Waiting};
ghost use Rattle.history_check.specs.declared.recorded.Move.TheVariants as move;

use crate::queue::Queue;
use crate::recorded::{Event, Move, Rules, Way};
use queue_steps::errors::{ForcePushError, PushError};
use queue_steps::model::{Call, Effect, Reply};
use std::alloc::{AllocError, Allocator};
use std::hash::{FoldHasher, Hasher};
use std::marker::Model;

/// The queue, how far the call is that each party is in, and whether a displacement is one step.
#[derive(Drop)]
pub struct Stage<A: Allocator> {
    queue: Queue<A>,
    calls: Vec<Option<Way>, A>,
    // Whether a displacement is one step.
    at_once: bool,
    // The last of the moves that led here.
    last: Option<usize>,
}

/// How many words a party's call takes up, about.
const WORDS_A_CALL: usize = 6;

impl<A: Allocator> Model for Stage<A> {
    ghost Value = { SpecStage };

    ghost view = { λ s. record { queue = s.queue; calls = s.calls.items; at_once = s.at_once } };
}

/// The one effect of a call that is answered so, if it has one.
pub fn effect_of(call: Call<u64>, reply: Reply<u64>) -> Option<Effect<u64>>
    ensures some { IfSome result (λ e. Tells call reply (e ∷ [])) }
    ensures exact { (e : SpecEffect ℕ) → Tells call reply (e ∷ []) → result ≡ Some e }
{
    match (call, reply) {
        (Call::Push(value), Reply::Push(Ok(()))) => Some(Effect::Append(value)),
        (Call::ForcePush(value), Reply::ForcePush(Ok(None))) => Some(Effect::Append(value)),
        (Call::ForcePush(value), Reply::ForcePush(Ok(Some(old)))) => Some(Effect::Replace(
            old, value,
        )),
        (Call::Pop, Reply::Pop(Ok(item))) => Some(Effect::Take(item)),
        (Call::Close, Reply::Close(true)) => Some(Effect::Close),
        (Call::Push(value), Reply::Push(Err(PushError::Closed(back)))) if back == value => {
            Some(Effect::SelfClose)
        }
        (Call::ForcePush(value), Reply::ForcePush(Err(ForcePushError::Closed(back))))
            if back == value => { Some(Effect::SelfClose) }
        _ => None,
    }
}

/// The old and the new item of a forced push that displaces the front by two effects, if it is answered so.
pub fn displaced_by(call: Call<u64>, reply: Reply<u64>) -> Option<(u64, u64)>
    ensures some { IfSome result (λ p. Tells call reply (effect.Front p.0 p.1 ∷ effect.Arrive ∷ [])) }
    ensures exact { (old v : ℕ) → Tells call reply (effect.Front old v ∷ effect.Arrive ∷ []) → result ≡ Some (old, v) }
{
    match (call, reply) {
        (Call::ForcePush(value), Reply::ForcePush(Ok(Some(old)))) => Some((old, value)),
        _ => None,
    }
}

// Whether the parties' calls are as far.
fn are_same(calls: &[Option<Way>], others: &[Option<Way>]) -> bool
    ensures { result ≡ true → calls.now ≡ others.now }
{
    if calls.len() != others.len() {
        return false;
    }
    for (index, call) in calls.iter().enumerate() {
        if !is_as_far(*call, others[index]) {
            return false;
        }
    }
    true
}

// Whether the calls are as far.
fn is_as_far(call: Option<Way>, other: Option<Way>) -> bool
    ensures { result ≡ true → call ≡ other }
{
    match (call, other) {
        (None, None) => true,
        (Some(Way::Waiting(call, was_open)), Some(Way::Waiting(other, then))) => {
            call == other && was_open == then
        }
        (Some(Way::Halfway(reply)), Some(Way::Halfway(other)))
        | (Some(Way::Answered(reply)), Some(Way::Answered(other))) => reply == other,
        _ => false,
    }
}

impl<A: Allocator + Copy> Stage<A> {
    /// An empty open queue, and so many parties between calls.
    ///
    /// # Errors
    ///
    /// Where there is no memory.
    pub fn new(alloc: A, rules: Rules, parties: usize) -> Result<Stage<A>, AllocError>
        ensures { IfOk result (λ s. s ≡ opening rules parties) }
    {
        let calls = vec![in alloc; None; parties]?;
        Ok(Stage {
            queue: Queue::new(alloc, rules.cap),
            calls,
            at_once: rules.at_once,
            last: None,
        })
    }

    /// A copy.
    ///
    /// # Errors
    ///
    /// Where there is no memory.
    pub fn fork(&self, alloc: A) -> Result<Stage<A>, AllocError>
        ensures { IfOk result (λ s. s ≡ self.now) }
    {
        let calls = Vec::from_slice(alloc, self.calls.as_slice())?;
        let queue = self.queue.fork(alloc)?;
        Ok(Stage {
            queue,
            calls,
            at_once: self.at_once,
            last: self.last,
        })
    }
}

impl<A: Allocator> Stage<A> {
    /// How many parties there are.
    pub fn parties(&self) -> usize
        ensures { result ≡ length self.now.calls }
    {
        self.calls.len()
    }

    /// How far the party's call is, if it is in one.
    pub fn way(&self, party: usize) -> Option<Way>
        ensures some { IfSome result (IsAt self.now party) }
        ensures none { IfNone result ((w : SpecWay) → IsAt self.now party w → ⊥) }
    {
        match self.calls.get(party).copied() {
            Some(Some(way)) => Some(way),
            _ => None,
        }
    }

    /// The reply by which the call has an effect here: the expected one, or where none is, the only one that it can be.
    pub fn reply_to(&self, call: Call<u64>, expected: Option<Reply<u64>>) -> Option<Reply<u64>>
        ensures recorded { (r : SpecReply ℕ) → expected ≡ Some r → result ≡ Some r }
        ensures acts { (r : SpecReply ℕ) → IsExpected expected r → Acts call r self.now.queue → result ≡ Some r }
    {
        match expected {
            Some(reply) => Some(reply),
            None => self.queue.acting_reply(call),
        }
    }

    /// Whether a displacement is one step.
    pub fn is_at_once(&self) -> bool
        ensures { result ≡ self.now.at_once }
    {
        self.at_once
    }

    /// The last of the moves that led here, by its place among all that were noted.
    pub fn last(&self) -> Option<usize> {
        self.last
    }

    /// Sets the last of the moves that led here.
    pub fn set_last(&mut self, last: usize)
        ensures { self.new ≡ self.old }
    {
        self.last = Some(last);
    }

    /// Whether it is the same as the other.
    pub fn is_same(&self, other: &Stage<A>) -> bool
        ensures { result ≡ true → self.now ≡ other.now }
    {
        self.at_once == other.at_once
            && are_same(&self.calls, &other.calls)
            && self.queue.is_same(&other.queue)
    }

    /// A hash, which equal stages have in common, and few others.
    pub fn fingerprint(&self) -> u64 {
        let mut state = FoldHasher::default();
        self.queue.feed(&mut state);
        for call in self.calls.iter() {
            state.write_u64(match call {
                None => 0,
                Some(Way::Waiting(_, _)) => 1,
                Some(Way::Halfway(_)) => 2,
                Some(Way::Answered(_)) => 3,
            });
        }
        state.finish()
    }

    // The call that the party is in, if it waits; whether the queue was open when it began.
    fn waiting(&self, party: usize) -> Option<(Call<u64>, bool)>
        ensures some { IfSome result (λ w. IsAt self.now party (Waiting w.0 w.1)) }
        ensures none { IfNone result ((c : SpecCall ℕ) (b : Bool) → IsAt self.now party (Waiting c b) → ⊥) }
    {
        match self.calls.get(party).copied() {
            Some(Some(Way::Waiting(call, was_open))) => Some((call, was_open)),
            _ => None,
        }
    }

    // Sets how far the party's call is.
    fn set(&mut self, party: usize, way: Option<Way>) -> bool
        ensures yes { result ≡ true → self.new ≡ moved self.old self.old.queue party way }
        ensures no { result ≡ false → slice_get self.old.calls party ≡ None }
        ensures kept { result ≡ false → self.new ≡ self.old }
    {
        match self.calls.get_mut(party) {
            Some(place) => {
                *place = way;
                true
            }
            None => false,
        }
    }

    /// Records the event, if it may be recorded here. The stage stays as it is where it may not.
    pub fn record(&mut self, event: Event) -> bool
        ensures yes { result ≡ true → MayRecord self.old event × (self.new ≡ recorded self.old event) }
        ensures no { result ≡ false → MayRecord self.old event → ⊥ }
        ensures kept { result ≡ false → self.new ≡ self.old }
    {
        match event {
            Event::Begin(party, call) => match self.calls.get(party).copied() {
                Some(None) => {
                    let was_open = !self.queue.is_closed();
                    self.set(party, Some(Way::Waiting(call, was_open)))
                }
                _ => false,
            },
            Event::End(party, reply) => match self.calls.get(party).copied() {
                Some(Some(Way::Answered(given))) if given == reply => self.set(party, None),
                _ => false,
            },
        }
    }

    // Whether the party's call, if it is answered so, can have no effect any more.
    fn only_sees(&self, party: usize, reply: Reply<u64>) -> bool
        ensures { result ≡ true → OnlySees self.now party reply }
    {
        let Some((call, _)) = self.waiting(party) else {
            return false;
        };
        if displaced_by(call, reply).is_some() {
            return false;
        }
        match effect_of(call, reply) {
            None => true,
            Some(Effect::SelfClose) => self.queue.is_closed(),
            Some(_) => false,
        }
    }

    /// Whether the move, which is not an event, may be made, as far as a look at the queue tells.
    pub fn may_make(&self, next: Move) -> bool
        ensures { result ≡ false → (t : SpecStage) → Makes self.now next t → ⊥ }
    {
        match next {
            Move::Event => false,
            Move::See(party, reply) => self.may_see(party, reply),
            Move::Act(party, reply) => self.may_act(party, reply),
            Move::Part(party, reply) => self.may_part(party, reply),
            Move::Arrive(_) => true,
            Move::Displace(party, reply) => self.may_displace(party, reply),
        }
    }

    // Whether the party's call may find the reply right.
    fn may_see(&self, party: usize, reply: Reply<u64>) -> bool
        ensures { result ≡ false → (t : SpecStage) → Makes self.now (move.See party reply) t → ⊥ }
    {
        match self.waiting(party) {
            Some((call, _)) => self.queue.allows(call, reply),
            None => false,
        }
    }

    // Whether the party's call may have its one effect.
    fn may_act(&self, party: usize, reply: Reply<u64>) -> bool
        ensures { result ≡ false → (t : SpecStage) → Makes self.now (move.Act party reply) t → ⊥ }
    {
        let Some((call, _)) = self.waiting(party) else {
            return false;
        };
        match effect_of(call, reply) {
            Some(effect) => self.queue.may_make(effect),
            None => false,
        }
    }

    // Whether the party's call may take the front off a full queue, by the first of its two effects.
    fn may_part(&self, party: usize, reply: Reply<u64>) -> bool
        ensures { result ≡ false → (t : SpecStage) → Makes self.now (move.Part party reply) t → ⊥ }
    {
        self.may_take_front(party, reply)
    }

    // Whether the party's call may take the front off a full queue, and its item arrive, at once.
    fn may_displace(&self, party: usize, reply: Reply<u64>) -> bool
        ensures { result ≡ false → (t : SpecStage) → Makes self.now (move.Displace party reply) t → ⊥ }
    {
        self.may_take_front(party, reply)
    }

    // Whether the party's call may take the front off a full queue.
    fn may_take_front(&self, party: usize, reply: Reply<u64>) -> bool
        ensures part { result ≡ false → (t : SpecStage) → Makes self.now (move.Part party reply) t → ⊥ }
        ensures displace { result ≡ false → (t : SpecStage) → Makes self.now (move.Displace party reply) t → ⊥ }
    {
        let Some((call, _)) = self.waiting(party) else {
            return false;
        };
        match displaced_by(call, reply) {
            Some((old, value)) => self.queue.may_make(Effect::Front(old, value)),
            None => false,
        }
    }

    /// How many words it takes up, about.
    pub fn words(&self) -> usize {
        let calls = self.calls.len().saturating_mul(WORDS_A_CALL);
        self.queue.words().saturating_add(calls)
    }

    // The party's call finds the reply right, and has no effect. The stage stays as it is where it may not.
    fn see(&mut self, party: usize, reply: Reply<u64>) -> bool
        ensures done { result ≡ true → Makes self.old (move.See party reply) self.new }
        ensures exact { (t : SpecStage) → Makes self.old (move.See party reply) t → (result ≡ true) × (t ≡ self.new) }
        ensures kept { result ≡ false → self.new ≡ self.old }
    {
        let Some((call, _)) = self.waiting(party) else {
            return false;
        };
        if !self.queue.allows(call, reply) {
            return false;
        }
        self.set(party, Some(Way::Answered(reply)))
    }

    /// The party's call finds the reply right, and could have no effect any more. The stage stays as it is where that is not so.
    pub fn see_for_good(&mut self, party: usize, reply: Reply<u64>) -> bool
        ensures done { result ≡ true → Makes self.old (move.See party reply) self.new × OnlySees self.old party reply }
        ensures kept { result ≡ false → self.new ≡ self.old }
    {
        if !self.only_sees(party, reply) {
            return false;
        }
        self.see(party, reply)
    }

    // The party's call has its one effect.
    fn act(&mut self, party: usize, reply: Reply<u64>) -> Result<bool, AllocError>
        ensures done { IfOk result (λ yes. yes ≡ true → Makes self.old (move.Act party reply) self.new) }
        ensures exact { IfOk result (λ yes. (t : SpecStage) → Makes self.old (move.Act party reply) t → (yes ≡ true) × (t ≡ self.new)) }
    {
        let Some((call, _)) = self.waiting(party) else {
            return Ok(false);
        };
        let Some(effect) = effect_of(call, reply) else {
            return Ok(false);
        };
        if !self.queue.make(effect)? {
            return Ok(false);
        }
        Ok(self.set(party, Some(Way::Answered(reply))))
    }

    // The party's call takes the front off a full queue.
    fn part(&mut self, party: usize, reply: Reply<u64>) -> Result<bool, AllocError>
        ensures done { IfOk result (λ yes. yes ≡ true → Makes self.old (move.Part party reply) self.new) }
        ensures exact { IfOk result (λ yes. (t : SpecStage) → Makes self.old (move.Part party reply) t → (yes ≡ true) × (t ≡ self.new)) }
    {
        if self.at_once {
            return Ok(false);
        }
        let Some((call, true)) = self.waiting(party) else {
            return Ok(false);
        };
        let Some((old, value)) = displaced_by(call, reply) else {
            return Ok(false);
        };
        if !self.queue.make(Effect::Front(old, value))? {
            return Ok(false);
        }
        Ok(self.set(party, Some(Way::Halfway(reply))))
    }

    // The item of the party's call arrives.
    fn arrive(&mut self, party: usize) -> Result<bool, AllocError>
        ensures done { IfOk result (λ yes. yes ≡ true → Makes self.old (move.Arrive party) self.new) }
        ensures exact { IfOk result (λ yes. (t : SpecStage) → Makes self.old (move.Arrive party) t → (yes ≡ true) × (t ≡ self.new)) }
    {
        if self.at_once {
            return Ok(false);
        }
        let Some(Some(Way::Halfway(reply))) = self.calls.get(party).copied() else {
            return Ok(false);
        };
        if !self.queue.make(Effect::Arrive)? {
            return Ok(false);
        }
        Ok(self.set(party, Some(Way::Answered(reply))))
    }

    // The party's call takes the front off a full queue that is open, and its item arrives.
    fn displace(&mut self, party: usize, reply: Reply<u64>) -> Result<bool, AllocError>
        ensures done { IfOk result (λ yes. yes ≡ true → Makes self.old (move.Displace party reply) self.new) }
        ensures exact { IfOk result (λ yes. (t : SpecStage) → Makes self.old (move.Displace party reply) t → (yes ≡ true) × (t ≡ self.new)) }
    {
        if !self.at_once {
            return Ok(false);
        }
        let Some((call, _)) = self.waiting(party) else {
            return Ok(false);
        };
        let Some((old, value)) = displaced_by(call, reply) else {
            return Ok(false);
        };
        if !self.queue.displace(old, value)? {
            return Ok(false);
        }
        Ok(self.set(party, Some(Way::Answered(reply))))
    }

    /// Makes the move, which is not an event, if it may be made. Where it may not, the stage is of no use any more.
    ///
    /// # Errors
    ///
    /// Where there is no memory.
    pub fn make(&mut self, next: Move) -> Result<bool, AllocError>
        ensures done { IfOk result (λ yes. yes ≡ true → Makes self.old next self.new) }
        ensures exact { IfOk result (λ yes. (t : SpecStage) → Makes self.old next t → (yes ≡ true) × (t ≡ self.new)) }
    {
        match next {
            Move::Event => Ok(false),
            Move::See(party, reply) => Ok(self.see(party, reply)),
            Move::Act(party, reply) => self.act(party, reply),
            Move::Part(party, reply) => self.part(party, reply),
            Move::Arrive(party) => self.arrive(party),
            Move::Displace(party, reply) => self.displace(party, reply),
        }
    }

    /// Takes the next move, where `at` of the events are taken. How many are taken then, if the move may be taken.
    ///
    /// # Errors
    ///
    /// Where there is no memory.
    pub fn take(
        &mut self,
        events: &[Event],
        at: usize,
        next: Move,
    ) -> Result<Option<usize>, AllocError>
        ensures { IfOk result (λ o. IfSome o (λ k. Takes self.old next (drop at events.now) self.new (drop k events.now))) }
    {
        match next {
            Move::Event => match events.get(at).copied() {
                Some(event) if self.record(event) => Ok(Some(at + 1)),
                _ => Ok(None),
            },
            other => {
                if self.make(other)? {
                    Ok(Some(at))
                } else {
                    Ok(None)
                }
            }
        }
    }
}
