//! Queues as tests find them: how they are made, and what they hold.
use exclusive_queue::Exclusive;
use queue_steps::sizes::LIMIT;
use std::alloc::AllocError;
use std::process::Abort;
use test_support::allocators::Heap;

/// A queue whose requests are counted.
pub(crate) type Counting<'a> = Exclusive<u64, &'a Heap>;

/// How a queue is made.
#[derive(Clone, Copy, Debug)]
pub(crate) enum Made {
    Bounded(usize),
    BoundedAfter(usize, u64),
    Unbounded,
    UnboundedAfter(u64),
}

impl Made {
    /// The queue, where there is memory.
    pub(crate) fn queue<'a, T: Drop>(
        self,
        rt: &impl Abort,
        heap: &'a Heap,
    ) -> Result<Exclusive<T, &'a Heap>, AllocError> {
        match self {
            Made::Bounded(cap) if 0 < cap => Exclusive::bounded(heap, cap),
            Made::BoundedAfter(cap, n) if 1 < cap && n <= LIMIT => {
                Exclusive::bounded_after(heap, cap, n)
            }
            Made::Unbounded => Ok(Exclusive::unbounded(heap)),
            Made::UnboundedAfter(n) if n <= LIMIT => Exclusive::unbounded_after(heap, n),
            _ => panic!(rt; "there is no such queue"),
        }
    }
}

/// A queue that is made so. Asserts that there is memory.
pub(crate) fn open<'a>(rt: &impl Abort, heap: &'a Heap, made: Made) -> Counting<'a> {
    made.queue(rt, heap).expect(rt, "memory")
}

/// A queue that is made so, which so many items go through, and into which 0, 1 and so on are pushed, so many numbers. Asserts that there is memory.
pub(crate) fn filled<'a>(
    rt: &impl Abort,
    heap: &'a Heap,
    made: Made,
    through: u64,
    count: u64,
) -> Counting<'a> {
    let mut queue = open(rt, heap, made);
    for item in 0..through {
        let _ = queue.push(item);
        let _ = queue.pop();
    }
    for item in 0..count {
        let _ = queue.push(item);
    }
    queue
}
