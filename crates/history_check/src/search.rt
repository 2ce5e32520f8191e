//! A search for an order of recorded calls. Where it finds none, there is none.
ghost use Rattle.std.specs.Prelude.{IfOk};
ghost use Rattle.history_check.specs.Verdicts.{IsRefuted};

use crate::ahead::Ahead;
use crate::expected::next_event;
use crate::level::Level;
use crate::recorded::{Event, Move, Rules};
use crate::stage::Stage;
use crate::trail::Trail;
use std::alloc::{AllocError, Allocator};

/// What a search has found.
#[derive(Drop)]
pub enum Found<A: Allocator> {
    /// An order.
    Order(Vec<Move, A>),
    /// There is no order: none takes more events than this.
    Nothing(usize),
    /// The stages beside each other, and the moves to them, take up more words than they may.
    TooMany,
}

/// Looks for an order of the effects of the calls. The stages beside each other, and the moves to them, take up so many words at most, about.
///
/// # Errors
///
/// Where there is no memory.
pub fn find_order<A: Allocator + Copy>(
    alloc: A,
    rules: Rules,
    parties: usize,
    events: &[Event],
    most: usize,
) -> Result<Found<A>, AllocError>
    ensures { IfOk result (IsRefuted rules parties events.now) }
{
    let mut trail = Trail::new(alloc);
    let mut ahead = Ahead::new(alloc, events, parties)?;
    let mut level = Level::new(alloc);
    let stage = Stage::new(alloc, rules, parties)?;
    level.add(stage)?;
    let mut rest = events;
    while let Some((event, others)) = next_event(rest) {
        let Some(next) = level.pass(alloc, &mut trail, &ahead, event, most)? else {
            return Ok(Found::TooMany);
        };
        if next.is_empty() {
            return Ok(Found::Nothing(events.len().saturating_sub(rest.len())));
        }
        ahead.go_past(event, others);
        level = next;
        level.shorten(alloc, &mut trail)?;
        rest = others;
    }
    Ok(Found::Order(trail.moves_to(alloc, level.first_last())?))
}
