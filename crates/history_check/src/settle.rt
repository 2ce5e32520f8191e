//! Replies that are seen as soon as they are right.
ghost use Rattle.std.specs.Prelude.{◌≡◌, OnOk, List};
ghost use Rattle.history_check.specs.Levels.{next_reply, Foresees, IsAsGood};
ghost use Rattle.history_check.specs.declared.recorded.Event.{Event as SpecEvent};

use crate::ahead::Ahead;
use crate::recorded::Move;
use crate::stage::Stage;
use crate::trail::Trail;
use queue_steps::model::Reply;
use std::alloc::{AllocError, Allocator};

/// Lets each call that waits see its reply, where that is right now and the call can have no effect any more.
///
/// # Errors
///
/// Where there is no memory.
pub fn settle<A: Allocator + Copy>(
    trail: &mut Trail<A>,
    ahead: &Ahead<A>,
    stage: &mut Stage<A>,
) -> Result<(), AllocError>
    ensures { OnOk result ((es : List SpecEvent) → Foresees ahead.now es → IsAsGood es stage.old stage.new) }
{
    for party in 0..ahead.replies.len() {
        settle_party(trail, stage, party, ahead.replies[party])?;
    }
    Ok(())
}

// Lets the party's call see the reply of its next end, if that is so.
fn settle_party<A: Allocator + Copy>(
    trail: &mut Trail<A>,
    stage: &mut Stage<A>,
    party: usize,
    expected: Option<Reply<u64>>,
) -> Result<(), AllocError>
    ensures { OnOk result ((es : List SpecEvent) → expected ≡ next_reply party es → IsAsGood es stage.old stage.new) }
{
    let Some(reply) = expected else {
        return Ok(());
    };
    if !stage.see_for_good(party, reply) {
        return Ok(());
    }
    let last = trail.note(stage.last(), Move::See(party, reply))?;
    stage.set_last(last);
    Ok(())
}
