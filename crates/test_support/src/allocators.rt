//! An allocator for tests, of one thread or of many: it counts what is asked of it and what is given back, refuses what it is told to refuse, and can hold a request.
ghost use Rattle.std.specs.Prelude.{◌≡◌};

use crate::signs::wait_for;
use mem_blocks::null_testable::NullTestable;
use std::alloc::{AllocError, Allocator, Global, Layout};
use std::sync::atomic::{AtomicBool, AtomicU64, Ordering};

/// Memory of which the requests are counted, and refused.
pub type Heap = Refusing<Global>;

/// Which requests are refused. The first request is number 1.
#[derive(Clone, Copy)]
pub enum Refusal {
    /// None.
    Never,
    /// Each one.
    Always,
    /// The one of this number.
    Nth(u64),
}

impl Refusal {
    /// Whether the request of this number is refused.
    fn refuses(self, request: u64) -> bool {
        match self {
            Refusal::Never => false,
            Refusal::Always => true,
            Refusal::Nth(number) => number == request,
        }
    }
}

/// How many allocations are live, and how many were at most at one time.
#[derive(Drop)]
struct LiveCount {
    live: AtomicU64,
    most: AtomicU64,
}

impl LiveCount {
    /// Of no allocation.
    fn zero() -> LiveCount {
        LiveCount {
            live: AtomicU64::new(0),
            most: AtomicU64::new(0),
        }
    }

    /// Counts one live allocation more.
    fn add(&self) {
        let live = self.live.fetch_add(1, Ordering::SeqCst).wrapping_add(1);
        self.most.fetch_max(live, Ordering::SeqCst);
    }

    /// Counts one live allocation less.
    fn subtract(&self) {
        self.live.fetch_sub(1, Ordering::SeqCst);
    }
}

/// Where a request waits until another thread lets it go.
#[derive(Drop)]
struct HeldRequest {
    /// Whether the next request is to be held.
    next: AtomicBool,
    /// Whether one was.
    held: AtomicBool,
    /// Whether each other request lets it go.
    by_another: AtomicBool,
    let_go: AtomicBool,
    /// Whether it was let go while it was held.
    in_time: AtomicBool,
}

impl HeldRequest {
    /// Of no request.
    fn open() -> HeldRequest {
        HeldRequest {
            next: AtomicBool::new(false),
            held: AtomicBool::new(false),
            by_another: AtomicBool::new(false),
            let_go: AtomicBool::new(false),
            in_time: AtomicBool::new(false),
        }
    }

    /// Lets a request pass, or holds it until it is let go, though not for ever. One that passes lets the held one go where each other request does.
    fn pass(&self) {
        if self.next.swap(false, Ordering::SeqCst) {
            self.held.store(true, Ordering::SeqCst);
            let in_time = wait_for(&self.let_go);
            self.in_time.store(in_time, Ordering::SeqCst);
        } else if self.by_another.load(Ordering::SeqCst) {
            self.let_go.store(true, Ordering::SeqCst);
        }
    }
}

/// What was asked so far.
#[derive(Drop)]
struct Tally {
    refusal: Refusal,
    watched: Option<Layout>,
    hold: HeldRequest,
    requests: AtomicU64,
    all: LiveCount,
    of_watched: LiveCount,
}

impl Tally {
    /// Whether allocations of this size and alignment are counted apart.
    fn watches(&self, size: usize, align: usize) -> bool {
        match self.watched {
            Some(layout) => layout.size() == size && layout.align() == align,
            None => false,
        }
    }

    /// Counts one live allocation more.
    fn add(&self, size: usize, align: usize) {
        self.all.add();
        if self.watches(size, align) {
            self.of_watched.add();
        }
    }

    /// Counts one live allocation less.
    fn subtract(&self, size: usize, align: usize) {
        self.all.subtract();
        if self.watches(size, align) {
            self.of_watched.subtract();
        }
    }
}

/// An allocator that passes each request on, unless it refuses it. Collections take a `&` to it. Threads may share it.
pub struct Refusing<B: Allocator> {
    inner: B,
    tally: Tally,
}

impl<B: Allocator> Refusing<B> {
    /// An allocator that refuses these requests.
    pub fn new(inner: B, refusal: Refusal) -> Refusing<B> {
        Refusing::starting(inner, refusal, None)
    }

    /// An allocator that refuses these requests, and counts the allocations of this layout apart too.
    pub fn watching(inner: B, refusal: Refusal, layout: Layout) -> Refusing<B> {
        Refusing::starting(inner, refusal, Some(layout))
    }

    /// An allocator of which nothing was asked.
    fn starting(inner: B, refusal: Refusal, watched: Option<Layout>) -> Refusing<B> {
        Refusing {
            inner,
            tally: Tally {
                refusal,
                watched,
                hold: HeldRequest::open(),
                requests: AtomicU64::new(0),
                all: LiveCount::zero(),
                of_watched: LiveCount::zero(),
            },
        }
    }

    /// How many requests there were, refused ones included.
    pub fn requests(&self) -> u64 {
        self.tally.requests.load(Ordering::SeqCst)
    }

    /// How many allocations were passed on and not given back.
    pub fn live(&self) -> u64 {
        self.tally.all.live.load(Ordering::SeqCst)
    }

    /// How many there were at most at one time.
    pub fn most(&self) -> u64 {
        self.tally.all.most.load(Ordering::SeqCst)
    }

    /// How many allocations of the watched layout were passed on and not given back.
    pub fn live_watched(&self) -> u64 {
        self.tally.of_watched.live.load(Ordering::SeqCst)
    }

    /// How many of them there were at most at one time.
    pub fn most_watched(&self) -> u64 {
        self.tally.of_watched.most.load(Ordering::SeqCst)
    }

    /// The next request is held until another thread lets it go, though not for ever.
    pub fn hold_next(&self) {
        self.tally.hold.next.store(true, Ordering::SeqCst);
    }

    /// The next request is held until another one is made, which only another thread can make meanwhile, though not for ever.
    pub fn hold_until_another(&self) {
        self.hold_next();
        self.tally.hold.by_another.store(true, Ordering::SeqCst);
    }

    /// Waits until a request is held, though not for ever. Gives whether one is.
    pub fn comes_to_hold(&self) -> bool {
        wait_for(&self.tally.hold.held)
    }

    /// Lets the request go that is held.
    pub fn let_go(&self) {
        self.tally.hold.let_go.store(true, Ordering::SeqCst);
    }

    /// Whether a request was held until it was let go.
    pub fn held_until_let_go(&self) -> bool {
        self.tally.hold.in_time.load(Ordering::SeqCst)
    }
}

impl<B: Allocator> Drop for Refusing<B> {
    fn drop(self) {
        let Self { inner: _, tally: _ } = self;
    }
}

/// Counts a request, holds it where it is to be held, and tells whether it is refused.
fn is_refused(tally: &Tally, size: usize, align: usize) -> bool {
    let before = tally.requests.fetch_add(1, Ordering::SeqCst);
    tally.hold.pass();
    let refused = tally.refusal.refuses(before.wrapping_add(1));
    if !refused {
        tally.add(size, align);
    }
    refused
}

/// Counts an allocation that is given back.
fn give_back(tally: &Tally, size: usize, align: usize) {
    tally.subtract(size, align);
}

unsafe impl<B: Allocator> Allocator for Refusing<B> {
    ghost dealloc_token = { λ heap ty ptr. B.dealloc_token heap.inner ty ptr };

    fn allocate(&self, size: usize, align: usize) -> Result<*mut u8, AllocError> {
        if is_refused(&self.tally, size, align) {
            return Err(AllocError);
        }
        self.inner.allocate(size, align)
    }

    unsafe fn deallocate(&self, ptr: *mut u8, size: usize, align: usize) {
        give_back(&self.tally, size, align);
        self.inner.deallocate(ptr, size, align);
    }
}

unsafe impl<B: NullTestable> NullTestable for Refusing<B> {
    fn test(&self, place: *mut u8) {
        B::test(&self.inner, place);
    }
}
