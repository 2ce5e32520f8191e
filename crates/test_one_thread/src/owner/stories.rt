//! Stories that no script shows: requests that are counted and refused, and queues that stand as after many items.
use crate::asserts::is_in;
use crate::owner::made::{Made, open};
use crate::owner::runs::told;
use exclusive_queue::Exclusive;
use queue_steps::sizes::LIMIT;
use std::alloc::Global;
use std::process::Abort;
use test_support::allocators::{Heap, Refusal};

/// A story of a queue.
#[derive(Clone, Copy)]
struct Story {
    /// Its case, which a failure tells.
    name: &'static str,
    refusal: Refusal,
    made: Made,
    /// Its calls, and the replies to them, both as the explorer has them.
    calls: &'static str,
    replies: &'static str,
    /// How many allocations live in the end, which on a chain are its blocks, and how many requests there were.
    live: u64,
    requests: u64,
}

/// Of a ring, which asks for nothing after its constructor: it made four requests, and two allocations stay.
const OF_RING: Story = Story {
    name: "a ring",
    refusal: Refusal::Nth(5),
    made: Made::BoundedAfter(2, LIMIT - 2),
    calls: "",
    replies: "",
    live: 2,
    requests: 4,
};

/// Of a chain that asks for one block.
const OF_CHAIN: Story = Story {
    name: "a chain",
    refusal: Refusal::Nth(2),
    made: Made::UnboundedAfter(LIMIT),
    calls: "",
    replies: "",
    live: 1,
    requests: 1,
};

static STORIES: [Story; 13] = [
    Story {
        name: "no request of a slot",
        refusal: Refusal::Always,
        made: Made::Bounded(1),
        calls: "push 5",
        replies: "ok",
        live: 0,
        requests: 0,
    },
    Story {
        name: "no request after the constructor",
        made: Made::Bounded(3),
        calls: "force 1; force 2; force 3; force 4; force 5; force 6; force 7; pop; close",
        replies: "ok; ok; ok; displaced 1; displaced 2; displaced 3; displaced 4; item 5; true",
        ..OF_RING
    },
    // The last items that a queue accepts.
    Story {
        name: "a ring: last item",
        made: Made::BoundedAfter(2, LIMIT - 1),
        calls: "push 1; push 2; is_closed; close; pop; pop",
        replies: "ok; closed 2; true; false; item 1; closed",
        ..OF_RING
    },
    Story {
        name: "a ring: last two items",
        calls: "push 1; push 2; push 3; close; pop; pop; pop",
        replies: "ok; ok; closed 3; false; item 1; item 2; closed",
        ..OF_RING
    },
    Story {
        name: "a ring: last two items, and a forced push",
        calls: "push 1; push 2; is_closed; force 3; len",
        replies: "ok; ok; false; closed 3; 2",
        ..OF_RING
    },
    Story {
        name: "a ring: last two items, and a close",
        calls: "push 1; push 2; close; push 3; pop; pop; pop",
        replies: "ok; ok; true; closed 3; item 1; item 2; closed",
        ..OF_RING
    },
    Story {
        name: "a ring: no item any more",
        made: Made::BoundedAfter(2, LIMIT),
        calls: "force 1; close; pop",
        replies: "closed 1; false; closed",
        ..OF_RING
    },
    Story {
        name: "a chain: no item any more",
        calls: "push 1; pop; close",
        replies: "closed 1; closed; false",
        ..OF_CHAIN
    },
    Story {
        name: "a chain: last item",
        made: Made::UnboundedAfter(LIMIT - 1),
        calls: "push 1; push 2; is_closed; close; pop; pop",
        replies: "ok; closed 2; true; false; item 1; closed",
        ..OF_CHAIN
    },
    Story {
        name: "a chain: one item short of a block",
        refusal: Refusal::Never,
        made: Made::UnboundedAfter(62),
        calls: "is_empty; push 5",
        replies: "true; ok",
        live: 2,
        requests: 2,
    },
    Story {
        name: "a chain: a block is passed",
        refusal: Refusal::Never,
        made: Made::UnboundedAfter(62),
        calls: "push 5; pop",
        replies: "ok; item 5",
        live: 1,
        requests: 2,
    },
    Story {
        name: "no memory for the second block",
        made: Made::UnboundedAfter(62),
        calls: "push 77; len; push 77; len",
        replies: "no memory 77; 0; ok; 1",
        live: 2,
        requests: 3,
        ..OF_CHAIN
    },
    Story {
        name: "no memory for the first block",
        refusal: Refusal::Always,
        made: Made::UnboundedAfter(0),
        calls: "push 77; force 78; is_empty; pop; close; push 79; pop",
        replies: "no memory 77; no memory 78; true; empty; true; closed 79; closed",
        live: 0,
        requests: 2,
    },
];

/// Tells a story. Asserts that there is memory for the queue, that each call is answered as it is to be, that a chain's blocks are those that live, and that the queue's drop asks for nothing and leaves nothing allocated.
fn tell(rt: &impl Abort, alloc: Global, story: &Story) {
    let heap = Heap::new(alloc, story.refusal);
    let mut queue = open(rt, &heap, story.made);
    let replies = told(rt, alloc, &mut queue, story.calls);
    is_in(rt, story.name, replies.as_str(), story.replies);
    let blocks = match queue.capacity() {
        Some(_) => story.live,
        None => queue.blocks() as u64,
    };
    let held = heap.live();
    drop(queue);
    is_in(
        rt,
        story.name,
        [blocks, held, heap.live(), heap.requests()],
        [story.live, story.live, 0, story.requests],
    );
}

#[test]
fn each_story_is_right(rt: HostRuntime) {
    for story in STORIES.iter() {
        tell(&rt, rt.alloc(), story);
    }
}

fn is_sent<T: Send>(_value: &T) {}

fn is_shared<T: Sync>(_value: &T) {}

#[test]
fn may_be_sent(rt: HostRuntime) {
    let queue: Exclusive<u64> = Exclusive::unbounded(rt.alloc());
    is_sent(&queue);
    is_shared(&queue);
}
