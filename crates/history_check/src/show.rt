//! Whether an order is one. Whoever found it is not trusted.
ghost use Rattle.std.specs.Prelude.{◌≡◌, true, IfOk};
ghost use Rattle.history_check.specs.Legal.{IsOrder};

use crate::recorded::{Event, Move, Rules};
use crate::stage::Stage;
use std::alloc::{AllocError, Allocator};

/// Whether these moves are an order of the effects of the calls, which shows the history to be legal.
///
/// # Errors
///
/// Where there is no memory.
pub fn shows<A: Allocator + Copy>(
    alloc: A,
    rules: Rules,
    parties: usize,
    events: &[Event],
    moves: &[Move],
) -> Result<bool, AllocError>
    ensures { IfOk result (λ yes. yes ≡ true → IsOrder rules parties events.now moves.now) }
{
    let mut stage = Stage::new(alloc, rules, parties)?;
    let mut at = 0;
    for next in moves {
        match stage.take(events, at, *next)? {
            Some(then) => at = then,
            None => return Ok(false),
        }
    }
    Ok(at >= events.len())
}
