//! What is known of the events to come.
ghost use Rattle.std.specs.Prelude.{◌≡◌, ◌∷◌, IfOk};
ghost use Rattle.history_check.specs.Levels.{Foresees};

use crate::expected::{expected, note_past};
use crate::recorded::Event;
use queue_steps::model::Reply;
use std::alloc::{AllocError, Allocator};

/// What is known of the events to come.
#[derive(Drop)]
pub struct Ahead<A: Allocator> {
    /// Of each party, the reply by which its next end is recorded.
    pub replies: Vec<Option<Reply<u64>>, A>,
}

impl<A: Allocator + Copy> Ahead<A> {
    /// What is known of these events, of so many parties.
    ///
    /// # Errors
    ///
    /// Where there is no memory.
    pub fn new(alloc: A, events: &[Event], parties: usize) -> Result<Ahead<A>, AllocError>
        ensures { IfOk result (λ ahead. Foresees ahead events.now) }
    {
        Ok(Ahead {
            replies: expected(alloc, events, parties)?,
        })
    }

    /// Goes past the event, after which these come.
    pub fn go_past(&mut self, event: Event, rest: &[Event])
        requires noted { Foresees self.old (event ∷ rest.now) }
        ensures { Foresees self.new rest.now }
    {
        note_past(event, rest, &mut self.replies);
    }
}
