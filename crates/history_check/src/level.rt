//! Stages beside each other, each once, and what moves and events make of them.
ghost use Rattle.std.specs.Prelude.{◌≡◌, ◌∷◌, ℕ, Bool, List, [], true, Option, Some, None, Contains, IfOk, IfSome, OnOk, slice_get};
ghost use Rattle.history_check.specs.declared.recorded.Event.{Event as SpecEvent};
ghost use Rattle.history_check.specs.declared.recorded.Move.TheVariants as move;
ghost use Rattle.history_check.specs.declared.recorded.Way.TheVariants.{Waiting};
ghost use Rattle.history_check.specs.Legal.{Stage as SpecStage, IsAt};
ghost use Rattle.history_check.specs.Levels.{Foresees, Keeps, Has, HasAll, HasEach, Handles, Extends, Survives};

use crate::ahead::Ahead;
use crate::recorded::{Event, Move, Way};
use crate::settle::settle;
use crate::stage::Stage;
use crate::trail::Trail;
use queue_steps::model::{Call, Reply};
use std::alloc::{AllocError, Allocator};
use std::collections::HashMap;
use std::hash::{BuildHasherDefault, FoldHasher};
use std::marker::Model;

/// Stages beside each other. Where the fingerprints miss one, it is there twice.
#[derive(Drop)]
pub struct Level<A: Allocator> {
    stages: Vec<Stage<A>, A>,
    // Of each stage, the place of the one before it with the same fingerprint.
    befores: Vec<Option<usize>, A>,
    // The place of the last stage with this fingerprint.
    lasts: HashMap<u64, usize, BuildHasherDefault<FoldHasher>, A>,
    // How many words the stages take up, about.
    words: usize,
}

impl<A: Allocator> Model for Level<A> {
    ghost Value = { List SpecStage };

    ghost view = { λ l. l.stages.items };
}

// Whether the stage is at this place.
fn has_at<A: Allocator>(stages: &[Stage<A>], place: usize, stage: &Stage<A>) -> bool
    ensures { result ≡ true → Contains stages.now stage.now }
{
    match stages.get(place) {
        Some(other) => stage.is_same(other),
        None => false,
    }
}

// A copy of the stage at this place.
fn copy_at<A: Allocator + Copy>(
    alloc: A,
    stages: &[Stage<A>],
    place: usize,
) -> Result<Option<Stage<A>>, AllocError>
    ensures { IfOk result (λ o. o ≡ slice_get stages.now place) }
{
    match stages.get(place) {
        Some(stage) => Ok(Some(stage.fork(alloc)?)),
        None => Ok(None),
    }
}

// Sets the last of the moves that led to each stage to its new place.
fn renumber<A: Allocator>(stages: &mut [Stage<A>], places: &[usize])
    ensures { stages.new ≡ stages.old }
{
    for index in 0..stages.len() {
        renumber_one(&mut stages[index], places);
    }
}

// The same of one stage.
fn renumber_one<A: Allocator>(stage: &mut Stage<A>, places: &[usize])
    ensures { stage.new ≡ stage.old }
{
    let Some(last) = stage.last() else {
        return;
    };
    if let Some(place) = places.get(last).copied() {
        stage.set_last(place);
    }
}

impl<A: Allocator + Copy> Level<A> {
    /// None so far.
    pub fn new(alloc: A) -> Level<A>
        ensures { result ≡ [] }
    {
        Level {
            stages: Vec::new(alloc),
            befores: Vec::new(alloc),
            lasts: HashMap::with_hasher(alloc, BuildHasherDefault::new()),
            words: 0,
        }
    }

    /// Whether there are none.
    pub fn is_empty(&self) -> bool
        ensures { result ≡ true → self.now ≡ [] }
    {
        self.stages.is_empty()
    }

    // A copy of the stage at this place.
    fn stage_at(&self, alloc: A, place: usize) -> Result<Option<Stage<A>>, AllocError>
        ensures { IfOk result (λ o. o ≡ slice_get self.now place) }
    {
        copy_at(alloc, &self.stages, place)
    }

    /// The last of the moves that led to the first stage.
    pub fn first_last(&self) -> Option<usize> {
        match self.stages.first() {
            Some(stage) => stage.last(),
            None => None,
        }
    }

    /// Forgets the moves that led to no stage here, if it is time.
    ///
    /// # Errors
    ///
    /// Where there is no memory.
    pub fn shorten(&mut self, alloc: A, trail: &mut Trail<A>) -> Result<(), AllocError>
        ensures { self.new ≡ self.old }
    {
        if !trail.is_long() {
            return Ok(());
        }
        let mut marks = vec![in alloc; false; trail.len()]?;
        for stage in self.stages.iter() {
            trail.mark(&mut marks, stage.last());
        }
        let places = trail.keep(alloc, &marks)?;
        renumber(&mut self.stages, &places);
        Ok(())
    }

    // Whether the stage is there.
    fn has(&self, fingerprint: u64, stage: &Stage<A>) -> bool
        ensures { result ≡ true → Contains self.now stage.now }
    {
        let mut next = self.lasts.get(&fingerprint).copied();
        for _ in 0..self.stages.len() {
            let Some(place) = next else {
                return false;
            };
            if has_at(&self.stages, place, stage) {
                return true;
            }
            next = self.befores.get(place).copied().unwrap_or(None);
        }
        false
    }

    /// Puts the stage at the end, where it is new.
    ///
    /// # Errors
    ///
    /// Where there is no memory.
    pub fn add(&mut self, stage: Stage<A>) -> Result<(), AllocError>
        ensures has { OnOk result (Contains self.new stage) }
        ensures keeps { Extends self.old self.new }
    {
        let fingerprint = stage.fingerprint();
        if self.has(fingerprint, &stage) {
            return Ok(());
        }
        let place = self.stages.len();
        let before = self.lasts.insert(fingerprint, place)?;
        self.befores.push(before)?;
        self.words = self.words.saturating_add(stage.words());
        self.stages.push(stage)?;
        Ok(())
    }

    // Keeps the stage, once calls that can only see their replies have seen them.
    fn keep(
        &mut self,
        trail: &mut Trail<A>,
        ahead: &Ahead<A>,
        mut stage: Stage<A>,
    ) -> Result<(), AllocError>
        ensures has { OnOk result ((es : List SpecEvent) → Foresees ahead.now es → Keeps self.new es stage) }
        ensures keeps { Extends self.old self.new }
    {
        settle(trail, ahead, &mut stage)?;
        self.add(stage)
    }

    // Keeps what the move leads to from the stage, if it leads anywhere.
    fn follow(
        &mut self,
        alloc: A,
        trail: &mut Trail<A>,
        ahead: &Ahead<A>,
        stage: &Stage<A>,
        next: Move,
    ) -> Result<(), AllocError>
        ensures has { OnOk result ((es : List SpecEvent) → Foresees ahead.now es → Has self.new es stage.now next) }
        ensures keeps { Extends self.old self.new }
    {
        if !stage.may_make(next) {
            return Ok(());
        }
        let mut then = stage.fork(alloc)?;
        if !then.make(next)? {
            return Ok(());
        }
        let last = trail.note(stage.last(), next)?;
        then.set_last(last);
        self.keep(trail, ahead, then)
    }

    // Adds what the party's call leads to by a displacement, in two steps or at once.
    fn follow_displacement(
        &mut self,
        alloc: A,
        trail: &mut Trail<A>,
        ahead: &Ahead<A>,
        stage: &Stage<A>,
        party: usize,
        reply: Reply<u64>,
    ) -> Result<(), AllocError>
        ensures part { OnOk result ((es : List SpecEvent) → Foresees ahead.now es → Has self.new es stage.now (move.Part party reply)) }
        ensures displace { OnOk result ((es : List SpecEvent) → Foresees ahead.now es → Has self.new es stage.now (move.Displace party reply)) }
        ensures keeps { Extends self.old self.new }
    {
        if stage.is_at_once() {
            self.follow(alloc, trail, ahead, stage, Move::Displace(party, reply))
        } else {
            self.follow(alloc, trail, ahead, stage, Move::Part(party, reply))
        }
    }

    // Adds what a call leads to that waits, if this is the reply of its party's next end.
    fn spread_waiting(
        &mut self,
        alloc: A,
        trail: &mut Trail<A>,
        ahead: &Ahead<A>,
        stage: &Stage<A>,
        party: usize,
        call: Call<u64>,
        expected: Option<Reply<u64>>,
    ) -> Result<(), AllocError>
        requires waits { (b : Bool) × IsAt stage.now party (Waiting call b) }
        ensures has { OnOk result ((es : List SpecEvent) → Foresees ahead.now es → HasAll self.new es stage.now party expected) }
        ensures keeps { Extends self.old self.new }
    {
        let Some(reply) = stage.reply_to(call, expected) else {
            return Ok(());
        };
        self.follow(alloc, trail, ahead, stage, Move::See(party, reply))?;
        self.follow(alloc, trail, ahead, stage, Move::Act(party, reply))?;
        self.follow_displacement(alloc, trail, ahead, stage, party, reply)?;
        Ok(())
    }

    // Adds what the party's call leads to, if this is the reply of its next end.
    fn spread(
        &mut self,
        alloc: A,
        trail: &mut Trail<A>,
        ahead: &Ahead<A>,
        stage: &Stage<A>,
        party: usize,
        reply: Option<Reply<u64>>,
    ) -> Result<(), AllocError>
        ensures has { OnOk result ((es : List SpecEvent) → Foresees ahead.now es → HasAll self.new es stage.now party reply) }
        ensures keeps { Extends self.old self.new }
    {
        let Some(way) = stage.way(party) else {
            return Ok(());
        };
        match way {
            Way::Waiting(call, _) => self.spread_waiting(
                alloc, trail, ahead, stage, party, call, reply,
            ),
            Way::Halfway(_) => self.follow(alloc, trail, ahead, stage, Move::Arrive(party)),
            Way::Answered(_) => Ok(()),
        }
    }

    // Keeps what the parties' calls lead to. False where some parties are not known of.
    fn spread_each(
        &mut self,
        alloc: A,
        trail: &mut Trail<A>,
        ahead: &Ahead<A>,
        stage: &Stage<A>,
    ) -> Result<bool, AllocError>
        ensures has { IfOk result (λ yes. yes ≡ true → (es : List SpecEvent) → Foresees ahead.now es → HasEach self.new es stage.now ahead.now.replies.items) }
        ensures keeps { Extends self.old self.new }
    {
        for party in 0..ahead.replies.len() {
            let reply = ahead.replies[party];
            self.spread(alloc, trail, ahead, stage, party, reply)?;
        }
        Ok(stage.parties() <= ahead.replies.len())
    }

    // Records the event at the stage, into the next level; or keeps what calls lead to from there. False where some are not there.
    fn handle(
        &mut self,
        alloc: A,
        trail: &mut Trail<A>,
        ahead: &Ahead<A>,
        next: &mut Level<A>,
        mut stage: Stage<A>,
        event: Event,
    ) -> Result<bool, AllocError>
        ensures handles { IfOk result (λ yes. yes ≡ true → (es : List SpecEvent) → Foresees ahead.now (event ∷ es) → Handles self.new next.new event es ahead.now.replies.items stage) }
        ensures keeps { Extends self.old self.new }
        ensures keeps_next { Extends next.old next.new }
    {
        settle(trail, ahead, &mut stage)?;
        if stage.record(event) {
            let last = trail.note(stage.last(), Move::Event)?;
            stage.set_last(last);
            next.add(stage)?;
            return Ok(true);
        }
        Ok(self.spread_each(alloc, trail, ahead, &stage)?)
    }

    /// The stages after the event. None where so many words are not enough.
    ///
    /// # Errors
    ///
    /// Where there is no memory.
    pub fn pass(
        &mut self,
        alloc: A,
        trail: &mut Trail<A>,
        ahead: &Ahead<A>,
        event: Event,
        most: usize,
    ) -> Result<Option<Level<A>>, AllocError>
        ensures { IfOk result (λ o. IfSome o (λ next. (es : List SpecEvent) → Foresees ahead.now (event ∷ es) → Survives self.old (event ∷ es) → Survives next es)) }
    {
        let mut next = Level::new(alloc);
        for place in 0..most {
            let Some(stage) = self.stage_at(alloc, place)? else {
                return Ok(Some(next));
            };
            if self
                .words
                .saturating_add(next.words)
                .saturating_add(trail.words())
                > most
            {
                return Ok(None);
            }
            if !self.handle(alloc, trail, ahead, &mut next, stage, event)? {
                return Ok(None);
            }
        }
        Ok(None)
    }
}
