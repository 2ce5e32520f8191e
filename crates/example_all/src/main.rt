//! A push and a pop on one slot: by its one owner, by a party of a shared queue, and by the machine; and the step that a pop begins with.
#![tactic(auto)]

use queue_all::exclusive::Exclusive;
use queue_all::model::{Call, CallKind};
use queue_all::shared::ConcurrentQueue;
use queue_all::steps::{Answer, Event, Kind, Local, Next, Op, next, replay, start};
use std::io;

fn main(rt: HostRuntime) -> io::Result<()> {
    let mut owned: Exclusive<u64> = Exclusive::bounded(rt.alloc(), 1)?;
    let pushed = owned.push(7);
    let item = owned.pop();
    println!(rt; "one owner: {pushed:?} {item:?}")?;
    let (shared, mut party) = ConcurrentQueue::bounded(rt.alloc(), 1)?;
    let pushed = shared.push(&rt, &mut party, 7);
    let item = shared.pop(&rt, &mut party);
    println!(rt; "a party: {pushed:?} {item:?}")?;
    let mut events: Vec<Event<u64>> = Vec::new(rt.alloc());
    events.push(Event::Begin(0, Call::Push(7)))?;
    events.push(Event::Step(0, true))?;
    events.push(Event::Step(0, true))?;
    events.push(Event::Begin(0, Call::Pop))?;
    events.push(Event::Step(0, true))?;
    events.push(Event::Step(0, true))?;
    let run = replay(rt.alloc(), Kind::Single, 1, events)?;
    println!(rt;
        "the machine: {:?} {:?} {:?}",
        run.replies, run.effects, run.left
    )?;
    let local: Local<()> = start(Kind::Single, CallKind::Pop);
    match next(Kind::Single, local, Answer::Start) {
        Next::Step(_, _, Op::Exchange(_, old, new)) => {
            println!(rt; "a pop begins: {old} becomes {new}")
        }
        _ => println!(rt; "a pop begins otherwise"),
    }
}
