//! A whole run of the machine.
ghost use Rattle.std.specs.Prelude.{◌≡◌, ◌++◌, ◌+◌, ◌<◌, [], true, IfOk, IsErr, vec_len};
ghost use Rattle.machine_replay.specs.Conforms.{Conforms, HasNoBlocks, capacity_of, party_of, reply_entry, effect_entry, skipped_entry};
ghost use Rattle.machine_replay.specs.OneOwner.{IsSequentialRun};
ghost use Rattle.machine_replay.specs.Played.{IsPlayed};
ghost use Rattle.machine_replay.specs.Replays.{CanReplay, is_too_large, IsRoomy};

use crate::machine_run::{MachineRun, RunEnd};
use machine_memory::types::{EffectKind, Event, Replay, Told};
use queue_steps::model::Reply;
use queue_steps::sizes::MAX_CAPACITY;
use queue_steps::steps::Kind;
use std::alloc::{AllocError, Allocator};

/// What was told of the events so far, each entry with its event's number.
#[derive(Drop)]
pub struct Lists<T, A: Allocator> {
    replies: Vec<(usize, usize, Reply<T>), A>,
    effects: Vec<(usize, usize, EffectKind), A>,
    skipped: Vec<usize, A>,
}

impl<T: Drop, A: Allocator + Copy> Lists<T, A> {
    /// Empty lists with room for what is told of so many events.
    fn new(alloc: A, events: usize) -> Result<Self, AllocError>
        ensures empty { IfOk result (λ l. (l.replies.items ≡ []) × (l.effects.items ≡ []) × (l.skipped.items ≡ [])) }
        ensures room { IfOk result (λ l. IsRoomy l 0 events) }
    {
        Ok(Lists {
            replies: Vec::with_capacity(alloc, events)?,
            effects: Vec::with_capacity(alloc, events)?,
            skipped: Vec::with_capacity(alloc, events)?,
        })
    }

    /// Notes what is told of the event of this number, which is one of `events`.
    fn note(&mut self, number: usize, events: usize, party: usize, told: Told<T>)
        requires counted { number < events }
        requires room { IsRoomy self.old number events }
        ensures replies { self.new.replies.items ≡ self.old.replies.items ++ reply_entry number party told }
        ensures effects { self.new.effects.items ≡ self.old.effects.items ++ effect_entry number party told }
        ensures skipped { self.new.skipped.items ≡ self.old.skipped.items ++ skipped_entry number party told }
        ensures room { IsRoomy self.new (number + 1) events }
    {
        match told {
            Told::Skipped => self.skipped.push_reserved(number),
            Told::Ran(effect, reply) => {
                if let Some(kind) = effect {
                    self.effects.push_reserved((number, party, kind));
                }
                if let Some(reply) = reply {
                    self.replies.push_reserved((number, party, reply));
                }
            }
        }
    }
}

/// Whose event it is.
fn party<T>(event: &Event<T>) -> usize
    ensures { result ≡ party_of event.now }
{
    match event {
        Event::Begin(party, _) => *party,
        Event::Step(party, _) => *party,
    }
}

/// Whether the capacity is more than any queue may have.
pub(crate) fn too_large(kind: Kind) -> bool
    ensures { result ≡ is_too_large kind }
{
    match kind {
        Kind::Bounded(cap) => cap > MAX_CAPACITY,
        _ => false,
    }
}

/// Runs the events, one after another, from the empty open queue.
///
/// The parties are numbered from 0, and so are the events. An event that does not fit is skipped, and its value is given up;
/// so are the values of calls that have not ended, where they are not in the list. Room for all that is told is made first.
///
/// With one party the replies are those of a queue with one owner.
///
/// # Errors
///
/// Where there is no memory, and then no event ran. A capacity that no queue may have is answered so without a request.
pub fn replay<T: Drop, A: Allocator + Copy>(
    alloc: A,
    kind: Kind,
    parties: usize,
    events: Vec<Event<T>, A>,
) -> Result<Replay<T, A>, AllocError>
    requires { CanReplay kind }
    ensures conforms { IfOk result (λ r. Conforms (capacity_of kind) parties events.items r) }
    ensures played { IfOk result (λ r. IsPlayed kind parties events.items r) }
    ensures blocks { IfOk result (λ r. HasNoBlocks (capacity_of kind) r.peak) }
    ensures alone { IfOk result (λ r. parties ≡ 1 → IsSequentialRun (capacity_of kind) events.items r) }
    ensures limited { is_too_large kind ≡ true → IsErr result }
{
    if too_large(kind) {
        return Err(AllocError);
    }
    let count = events.len();
    let mut lists = Lists::new(alloc, count)?;
    let room = Vec::with_capacity(alloc, count)?;
    let mut run = MachineRun::new(alloc, kind, parties, count)?;
    let mut number = 0;
    for event in events {
        let party = party(&event);
        let told = run.handle(alloc, event);
        lists.note(number, count, party, told);
        number += 1;
    }
    let Lists {
        replies,
        effects,
        skipped,
    } = lists;
    let RunEnd { left, peak } = run.end_in(room);
    Ok(Replay {
        replies,
        effects,
        skipped,
        left,
        peak,
    })
}
