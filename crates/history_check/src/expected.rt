//! The replies by which the parties' next ends are recorded.
ghost use Rattle.std.specs.Prelude.{◌≡◌, ◌<◌, [], ◌∷◌, List, Some, IfOk, MatchOption, length};
ghost use Rattle.history_check.specs.Levels.{next_reply, Expects};
ghost use Rattle.history_check.specs.declared.recorded.Event.{Event as SpecEvent};

use crate::recorded::Event;
use queue_steps::model::Reply;
use std::alloc::{AllocError, Allocator};

/// The first event, and those behind it.
pub fn next_event(events: &[Event]) -> Option<(Event, &[Event])>
    ensures { MatchOption result (events.now ≡ []) (λ p. (events.now ≡ p.0 ∷ p.1.now) × (length p.1.now < length events.now)) }
{
    match events {
        [first, others @ ..] => Some((*first, others)),
        [] => None,
    }
}

// The reply by which the event ends a call of the party, if it does.
fn ends(event: Event, party: usize) -> Option<Reply<u64>>
    ensures { MatchOption result
        ((es : List SpecEvent) → next_reply party (event ∷ es) ≡ next_reply party es)
        (λ reply. (es : List SpecEvent) → next_reply party (event ∷ es) ≡ Some reply) }
{
    match event {
        Event::End(other, reply) if party == other => Some(reply),
        _ => None,
    }
}

// The reply by which the party's next end is recorded.
fn next_reply(events: &[Event], party: usize) -> Option<Reply<u64>>
    ensures { result ≡ next_reply party events.now }
{
    let mut rest = events;
    while let [first, others @ ..] = rest {
        if let Some(reply) = ends(*first, party) {
            return Some(reply);
        }
        rest = others;
    }
    None
}

/// The replies that so many parties get next.
///
/// # Errors
///
/// Where there is no memory.
pub fn expected<A: Allocator>(
    alloc: A,
    events: &[Event],
    parties: usize,
) -> Result<Vec<Option<Reply<u64>>, A>, AllocError>
    ensures { IfOk result (λ replies. Expects replies.items events.now) }
{
    let mut replies = Vec::new(alloc);
    for party in 0..parties {
        replies.push(next_reply(events, party))?;
    }
    Ok(replies)
}

/// Notes what the party's next end is after the event, after which these come.
pub fn note_past(event: Event, rest: &[Event], replies: &mut [Option<Reply<u64>>])
    requires noted { Expects replies.old (event ∷ rest.now) }
    ensures { Expects replies.new rest.now }
{
    let Event::End(party, _) = event else {
        return;
    };
    if party < replies.len() {
        replies[party] = next_reply(rest, party);
    }
}
