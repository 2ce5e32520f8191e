//! Stories of a call of A that is held before one of its steps, while B's calls go on to their ends, wait for it, are pending, or are dropped.
//!
//! The held call is made by the queue's own `answer`, to which a user's calls come too; B makes its calls as a user does.
use crate::stories::telling::tell_each;

const HELD: &str = "\
full while a push holds the slot: single
hold A push 1 at P2 -> ok
B push 2 -> full 2
left 1 open

empty while a pop holds the slot: single; with 1
hold A pop at O2 -> item 1
B pop -> empty
left open

popped and pushed while a push is not stamped: bounded:3; with 1
hold A push 2 at B4 -> ok
B pop -> item 1
B push 3 -> ok
left 2 3 open

popped while a pop is not stamped: bounded:3; with 2
hold A pop at O4 -> item 1
B pop -> item 2
left open

closed while an item is coming: bounded:2; with 2
hold A force 3 at F6 -> displaced 1
B close -> true
B pop -> item 2
B waits pop -> item 3
B pop -> closed
B is_closed -> true
left closed

push waits while an item is coming: bounded:2; with 2
hold A force 3 at F6 -> displaced 1
B len -> 1
B waits push 4 -> full 4
left 2 3 open

popped and pushed while a push is not written: unbounded; with 1
hold A push 2 at U9 -> ok
B push 3 -> ok
B pop -> item 1
left 2 3 open

popped while a pop has not read: unbounded; with 2
hold A pop at V10 -> item 1
B pop -> item 2
left open";

/// B's calls go on to their ends, or wait for an item that is coming.
#[test]
fn stories_of_held_calls(rt: HostRuntime) {
    tell_each(&rt, rt.alloc(), HELD);
}

const PENDING: &str = "\
a slot, a pop beside a push: single
hold A push 7 at P2 -> ok
B begin pop -> pending
B resume -> pending
B give_up -> given up
B begin pop -> pending
B resume -> pending
go
B resume -> item 7
left open

a slot, a push by force beside a push: single
hold A push 7 at P2 -> ok
B begin force 8 -> pending
B resume -> pending
B give_up -> given up 8
B begin force 8 -> pending
B resume -> pending
go
B resume -> displaced 7
left 8 open

a slot, a push beside a pop: single; with 1
hold A pop at O2 -> item 1
B begin push 8 -> pending
B resume -> pending
B give_up -> given up 8
B begin push 8 -> pending
B resume -> pending
go
B resume -> ok
left 8 open

a ring, a pop beside a push: bounded:3
hold A push 7 at B4 -> ok
B begin pop -> pending
B resume -> pending
B give_up -> given up
B begin pop -> pending
B resume -> pending
go
B resume -> item 7
left open

a ring, a push beside a pop: bounded:2; with 2
hold A pop at O4 -> item 1
B begin push 8 -> pending
B resume -> pending
B give_up -> given up 8
B begin push 8 -> pending
B resume -> pending
go
B resume -> ok
left 2 8 open

a ring, a push beside a push by force: bounded:2; with 2
hold A force 7 at F6 -> displaced 1
B begin push 8 -> pending
B resume -> pending
B give_up -> given up 8
B begin push 8 -> pending
B resume -> pending
go
B resume -> full 8
left 2 7 open

a chain, a pop beside a push: unbounded; uncounted
hold A push 7 at U9 -> ok
B begin pop -> pending
B resume -> pending
B give_up -> too late
B resume -> pending
go
B resume -> pending
B resume -> item 7
left open

a chain, a push beside one that lays a block: unbounded; with 62; uncounted
hold A push 7 at U6 -> ok
B begin push 8 -> pending
B resume -> pending
B give_up -> given up 8
B begin push 8 -> pending
B resume -> pending
go
B resume -> pending
B resume -> ok
left 1..62 7 8 open";

/// A call of B is pending there, and has its reply once the held one has ended: on a chain when it is taken up for a second time, since it first acts on what it read while it was pending.
#[test]
fn stories_of_pending_calls(rt: HostRuntime) {
    tell_each(&rt, rt.alloc(), PENDING);
}

const BUSY: &str = "\
a slot that a push holds: single
hold A push 7 at P2 -> ok
B try push 8 -> full 8
B try force 9 -> busy 9
B try pop -> busy
left 7 open

a slot that a pop holds: single; with 1
hold A pop at O2 -> item 1
B try push 8 -> busy 8
B try force 9 -> busy 9
B try pop -> empty
left open

a ring whose only item is not stamped: bounded:2
hold A push 7 at B4 -> ok
B try push 8 -> ok
B try force 9 -> busy 9
B try pop -> busy
left 7 8 open

a ring whose free slot is not stamped: bounded:2; with 2
hold A pop at O4 -> item 1
B try push 8 -> busy 8
B try force 9 -> busy 9
B try pop -> item 2
left open

a ring that an item comes into: bounded:2; with 2
hold A force 7 at F6 -> displaced 1
B try push 8 -> busy 8
B try force 9 -> busy 9
B try pop -> item 2
left 7 open

a chain whose next block is not laid: unbounded; with 62
hold A push 7 at U6 -> ok
B try push 8 -> busy 8
B try force 9 -> busy 9
left 1..62 7 open";

/// A call of B that would have to wait answers busy; on a chain no pop is tried.
#[test]
fn busy_beside_a_call_that_is_half_done(rt: HostRuntime) {
    tell_each(&rt, rt.alloc(), BUSY);
}

const COUNTED: &str = "\
a slot, a dropped pop: single
hold A push 7 at P2 -> ok
B begin pop -> pending
count -> items 1, allocations 2
drop
count -> items 1, allocations 2
shared

a slot, a dropped push by force: single
hold A push 7 at P2 -> ok
B begin force 8 -> pending
count -> items 2, allocations 2
drop
count -> items 1, allocations 2
shared

a ring, a dropped push: bounded:2; with 2
hold A pop at O4 -> item 1
B begin push 8 -> pending
count -> items 3, allocations 2
drop
count -> items 2, allocations 2
shared

a ring, a dropped pop: bounded:2
hold A push 7 at B4 -> ok
B begin pop -> pending
count -> items 1, allocations 2
drop
count -> items 1, allocations 2
shared

a chain, a dropped push: unbounded; with 62
hold A push 7 at U6 -> ok
B begin push 8 -> pending
count -> items 64, allocations 3
drop
count -> items 63, allocations 3
shared

a chain, a dropped pop that has taken its item: unbounded
hold A push 7 at U9 -> ok
B begin pop -> pending
count -> items 1, allocations 2
drop
count -> items 1, allocations 2
shared; items 1, allocations 1

a chain, a dropped push with a spare block: unbounded; with 62
hold A push 7 at U6 once asked -> ok
B begin push 8 -> pending
count -> items 64, allocations 4
drop
count -> items 63, allocations 4
shared; items 0, allocations 1

a chain, a push with a spare block that answers busy: unbounded; with 62
hold A push 7 at U6 once asked -> ok
count -> items 63, allocations 2
B try push 8 -> busy 8
count -> items 63, allocations 3
left 1..62 7 open

a chain, a push whose block comes once another one has been made: unbounded
hold A push 7 once asked -> ok
B begin push 8 -> ok
count -> items 2, allocations 2
left 7 8 open";

/// A call that is dropped while it is pending drops what it carries, and its party is missing then. On a chain it loses what it has in hand: the item that a pop has taken, with its block, or the spare block of a push. A push that answers busy loses nothing, and one that is granted a block which another one has laid meanwhile is not pending: the block goes back.
#[test]
fn calls_beside_a_held_one_are_counted(rt: HostRuntime) {
    tell_each(&rt, rt.alloc(), COUNTED);
}
