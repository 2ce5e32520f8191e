//! Runs of calls. Scripts show those on a queue whose replies have room.
use crate::asserts::is;
use crate::owner::made::{Made, open};
use app_text::lines::Line;
use app_text::replies::ReplyText;
use exclusive_queue::{Exclusive, OwnSlot, Store, run};
use queue_steps::model::{Call, Reply};
use std::alloc::Global;
use std::process::Abort;
use test_support::allocators::{Heap, Refusal};
use test_support::items::{Counted, Items};

/// What a run of these calls is answered, both as the explorer has them. Asserts that there is memory.
pub(crate) fn told<S: Store<u64>>(
    rt: &impl Abort,
    alloc: Global,
    store: &mut S,
    calls: &str,
) -> String
    requires { S.idle store.old }
    ensures { S.idle store.new }
{
    let mut list = Vec::new(alloc);
    for call in calls.split("; ") {
        let call = Call::<u64>::parse(call.as_bytes()).expect(rt, "a call");
        list.push(call).expect(rt, "memory");
    }
    let replies = run(alloc, store, list).expect(rt, "memory");
    let mut told = String::new(alloc);
    for reply in &replies {
        let lead = if told.is_empty() { "" } else { "; " };
        write!(told, "{lead}{}", ReplyText(*reply)).expect(rt, "memory");
    }
    told
}

/// There is no bound on the calls of a run but memory.
#[test]
fn one_long_run(rt: HostRuntime) {
    let alloc = rt.alloc();
    let heap = Heap::new(alloc, Refusal::Never);
    let calls = [Call::Push(7u64), Call::Pop].repeat(alloc, 35_000);
    let wanted = [Reply::Push(Ok(())), Reply::Pop(Ok(7u64))].repeat(alloc, 35_000);
    let mut queue = open(&rt, &heap, Made::Unbounded);
    let replies = run(alloc, &mut queue, calls.expect(&rt, "memory")).expect(&rt, "memory");
    is(&rt, *replies == *wanted.expect(&rt, "memory"), true);
}

#[test]
fn one_run_on_a_slot(rt: HostRuntime) {
    let mut slot = OwnSlot {
        lock: 0,
        item: None,
    };
    let calls = "push 1; push 2; force 3; pop; close; push 4; len";
    let replies = told(&rt, rt.alloc(), &mut slot, calls);
    is(
        &rt,
        replies.as_str(),
        "ok; full 2; displaced 1; item 3; true; closed 4; 0",
    );
    is(&rt, slot.is_closed(), true);
}

/// Where there is no room for the replies no call is made, and what the calls carry is dropped once. The queue is the heap's first four requests, and the list of the calls is the fifth.
#[test]
fn no_room_for_the_replies(rt: HostRuntime) {
    let heap = Heap::new(rt.alloc(), Refusal::Nth(6));
    let items = Items::none();
    let mut queue = Exclusive::bounded(&heap, 2).expect(&rt, "memory");
    let _ = queue.push(Counted::of(&items));
    let calls = vec![in &heap;
        Call::Push(Counted::of(&items)),
        Call::Close,
        Call::ForcePush(Counted::of(&items)),
    ];
    let refused = run(&heap, &mut queue, calls.expect(&rt, "memory")).is_err();
    let seen = (refused, items.dropped(), queue.len(), queue.is_closed());
    is(&rt, seen, (true, 2, 1, false));
    drop(queue);
    let counted = [items.dropped(), heap.requests(), heap.live()];
    is(&rt, counted, [3, 6, 0]);
}
