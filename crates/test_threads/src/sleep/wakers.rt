//! Futures at a list of wakers, polled by hand: each wake reaches one that needs it.
ghost use Rattle.std.specs.Prelude.{◌≡◌};
ghost use Rattle.event_count.specs.declared.wakes.seats.Seat.TheVariants.{Looking};

use crate::asserts::is;
use futures::task::Context;
use futures::test::MockTask;
use std::alloc::AllocGlobal;
use std::mem;
use std::process::Abort;
use std::random::RandomSource;
use std::sync::atomic::AtomicU64;
use std::sync::atomic::Ordering::SeqCst;
use waker_list::{Entry, Look, Place, WakerList};

/// What the futures wait for.
#[derive(Drop)]
struct Item {
    made: (),
}

/// Items, and who waits for one.
#[derive(Drop)]
struct Post {
    arrivals: WakerList<Item>,
    items: AtomicU64,
}

impl Post {
    fn new<R: Abort + RandomSource + AllocGlobal>(rt: &R) -> Post {
        Post {
            arrivals: WakerList::new(rt.alloc()).expect(rt, "memory"),
            items: AtomicU64::new(0),
        }
    }

    fn give(&self) {
        self.items.fetch_add(1, SeqCst);
        self.arrivals.owe_one(Item { made: () }).notify();
    }

    fn give_two(&self) {
        self.items.fetch_add(2, SeqCst);
        self.arrivals.owe_all(Item { made: () }).notify();
    }

    /// Takes an item if there is one.
    fn try_take(&self) -> bool {
        let some = self.items.load(SeqCst) != 0;
        if some {
            self.items.fetch_sub(1, SeqCst);
        }
        some
    }

    /// Looks once more.
    fn look<'a>(&self, look: Look<'a, Item>) -> Place<'a, Item>
        requires { look.place.sitting.seat ≡ Looking }
    {
        if self.try_take() {
            look.found(Item { made: () })
        } else {
            look.in_vain(Item { made: () }).rest()
        }
    }

    fn left(&self) -> u64 {
        self.items.load(SeqCst)
    }
}

/// What happens before a future says what it found at its first look.
#[derive(Clone, Copy)]
enum Meanwhile {
    Nothing,
    /// An item is given.
    Given,
}

/// A task of one future, which takes an item.
struct Taker<'a> {
    post: &'a Post,
    task: MockTask,
    place: Place<'a, Item>,
}

impl<'a> Taker<'a> {
    fn new<R: Abort + RandomSource + AllocGlobal>(rt: &R, post: &'a Post) -> Taker<'a> {
        Taker {
            post,
            task: MockTask::new(rt).expect(rt, "memory"),
            place: Place::new(&post.arrivals),
        }
    }

    fn is_woken(&self) -> bool {
        self.task.is_woken()
    }

    fn poll_while(&mut self, meanwhile: Meanwhile) {
        let Taker { post, task, place } = self;
        task.enter(|cx| take(post, cx, place, meanwhile));
    }

    fn poll(&mut self) {
        self.poll_while(Meanwhile::Nothing);
    }

    /// The future is dropped.
    fn end(self) {
        let Taker {
            post: _,
            task: _,
            place,
        } = self;
        place.leave();
    }
}

/// Takes an item, or is pending.
fn take<'a>(
    post: &'a Post,
    cx: &mut Context<'_>,
    place: &mut Place<'a, Item>,
    meanwhile: Meanwhile,
) {
    let look = mem::replace(place, Place::new(&post.arrivals)).rise();
    let found = post.try_take();
    if let Meanwhile::Given = meanwhile {
        post.give();
    }
    let now = if found {
        look.found(Item { made: () })
    } else {
        match look.in_vain(Item { made: () }).enter(cx) {
            Entry::Wait(place) => place,
            Entry::Look(again) => post.look(again),
        }
    };
    mem::replace(place, now).leave();
}

/// Two takers that are pending.
fn two_pending<'a, R: Abort + RandomSource + AllocGlobal>(
    rt: &R,
    post: &'a Post,
) -> (Taker<'a>, Taker<'a>) {
    let mut first = Taker::new(rt, post);
    let mut second = Taker::new(rt, post);
    first.poll();
    second.poll();
    (first, second)
}

/// Which of two are woken.
fn woken(first: &Taker<'_>, second: &Taker<'_>) -> (bool, bool) {
    (first.is_woken(), second.is_woken())
}

#[test]
fn one_item_wakes_one_future(rt: HostRuntime) {
    let post = Post::new(&rt);
    let (mut first, second) = two_pending(&rt, &post);
    is(&rt, woken(&first, &second), (false, false));
    post.give();
    is(&rt, woken(&first, &second), (true, false));
    first.poll();
    is(&rt, (post.left(), first.is_woken()), (0, false));
    post.give();
    is(&rt, woken(&first, &second), (false, true));
    first.end();
    second.end();
}

#[test]
fn all_futures_are_woken(rt: HostRuntime) {
    let post = Post::new(&rt);
    let (mut first, mut second) = two_pending(&rt, &post);
    post.give_two();
    is(&rt, woken(&first, &second), (true, true));
    first.poll();
    second.poll();
    is(&rt, post.left(), 0);
    first.end();
    second.end();
}

#[test]
fn a_woken_future_that_ends_hands_its_wake_on(rt: HostRuntime) {
    let post = Post::new(&rt);
    let (first, mut second) = two_pending(&rt, &post);
    post.give();
    is(&rt, woken(&first, &second), (true, false));
    first.end();
    is(&rt, second.is_woken(), true);
    second.poll();
    is(&rt, post.left(), 0);
    second.end();
}

#[test]
fn a_future_that_ends_on_the_list_wakes_nobody(rt: HostRuntime) {
    let post = Post::new(&rt);
    let (first, mut second) = two_pending(&rt, &post);
    first.end();
    is(&rt, second.is_woken(), false);
    post.give();
    is(&rt, second.is_woken(), true);
    second.poll();
    is(&rt, post.left(), 0);
    second.end();
}

#[test]
fn a_future_that_has_found_hands_on_a_wake_for_another_item(rt: HostRuntime) {
    let post = Post::new(&rt);
    let (mut first, mut second) = two_pending(&rt, &post);
    // an item that nobody is notified of yet, which the first takes; another one is given before it says so
    post.items.fetch_add(1, SeqCst);
    first.poll_while(Meanwhile::Given);
    is(&rt, second.is_woken(), true);
    second.poll();
    is(&rt, post.left(), 0);
    first.end();
    second.end();
}
