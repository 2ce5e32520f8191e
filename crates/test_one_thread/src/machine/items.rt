//! Items that count their drops: each that a run is given is dropped once, wherever its calls were stopped.
ghost use Rattle.machine_replay.specs.Replays.{CanReplay};

use crate::asserts::is_in;
use crate::machine::events::add;
use machine_replay::replay;
use machine_replay::types::Event;
use queue_steps::model::Call;
use queue_steps::sizes::STEPS_ALONE;
use queue_steps::steps::Kind;
use std::alloc::Global;
use std::process::Abort;
use test_support::items::{Counted, Items};

/// So many pushes; a forced push, a push and a pop that stop after so many steps; and calls of parties of which one may be in a call already, and of one that the machine does not have.
fn events_of<'a>(
    rt: &impl Abort,
    alloc: Global,
    items: &'a Items,
    held: u64,
    steps: u64,
) -> Vec<Event<Counted<'a>>> {
    let mut events = Vec::new(alloc);
    for _ in 0..held {
        add(
            rt,
            &mut events,
            0,
            Call::Push(Counted::of(items)),
            STEPS_ALONE,
        );
    }
    add(
        rt,
        &mut events,
        0,
        Call::ForcePush(Counted::of(items)),
        steps,
    );
    add(rt, &mut events, 1, Call::Push(Counted::of(items)), steps);
    add(rt, &mut events, 2, Call::Pop, steps);
    for party in [0, 1, 9usize] {
        add(rt, &mut events, party, Call::Push(Counted::of(items)), 0);
    }
    events
}

/// Asserts that each item of such runs by three parties is dropped in the end.
fn drops_all(rt: &impl Abort, alloc: Global, kind: Kind, held: u64)
    requires { CanReplay kind }
{
    for steps in 0..12u64 {
        let items = Items::none();
        let run = replay(alloc, kind, 3, events_of(rt, alloc, &items, held, steps));
        drop(run.expect(rt, "memory"));
        let given = held.wrapping_add(5);
        is_in(
            rt,
            (kind, steps),
            [items.made(), items.dropped()],
            [given; 2],
        );
    }
}

/// On one slot that is free and one that is held, on rings, and on chains whose next push lays a block.
#[test]
fn each_item_is_dropped_once(rt: HostRuntime) {
    let alloc = rt.alloc();
    drops_all(&rt, alloc, Kind::Single, 0);
    drops_all(&rt, alloc, Kind::Single, 1);
    drops_all(&rt, alloc, Kind::Bounded(2), 1);
    drops_all(&rt, alloc, Kind::Bounded(2), 2);
    drops_all(&rt, alloc, Kind::Unbounded, 0);
    drops_all(&rt, alloc, Kind::Unbounded, 62);
}
