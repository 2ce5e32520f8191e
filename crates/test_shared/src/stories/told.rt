//! Stories of one party and of two, told on one thread, so that each waiting call is seen to return.
use crate::stories::telling::tell_each;

const ONE_PARTY: &str = "\
each call: single bounded:2 unbounded
A is_empty -> true
A is_full -> false
A push 7 -> ok
A len -> 1
A is_empty -> false
A pop -> item 7
A len -> 0
A is_empty -> true
A is_full -> false
A push 8 -> ok
A pop -> item 8
A pop -> empty
A is_closed -> false
A close -> true
A is_closed -> true
A close -> false
A pop -> closed
left closed

a slot, full: single
A capacity -> 1
A push 1 -> ok
A is_full -> true
A push 2 -> full 2
A force 3 -> displaced 1
left 3 open

a ring, full: bounded:3
A capacity -> 3
A push 1 -> ok
A push 2 -> ok
A is_full -> false
A push 3 -> ok
A is_full -> true
A push 4 -> full 4
A len -> 3
A pop -> item 1
A push 4 -> ok
A force 5 -> displaced 2
left 3 4 5 open

a chain, never full: unbounded
A capacity -> none
A push 1 -> ok
A force 2 -> ok
A is_full -> false
left 1 2 open

a slot, tried: single
A try pop -> empty
A try push 8 -> ok
A try push 7 -> full 7
A try force 9 -> displaced 8
A try pop -> item 9
A close -> true
A try push 8 -> closed 8
A try force 9 -> closed 9
A try pop -> closed
left closed

a ring, tried: bounded:2
A try push 8 -> ok
A try force 9 -> ok
A try push 7 -> full 7
A try force 7 -> displaced 8
A try pop -> item 9
A close -> true
A try push 8 -> closed 8
A try force 9 -> closed 9
A try pop -> item 7
A try pop -> closed
left closed

a chain, tried: unbounded
A try push 8 -> ok
A try force 9 -> ok
A close -> true
A try push 8 -> closed 8
A try force 9 -> closed 9
left 8 9 closed";

#[test]
fn stories_of_one_party(rt: HostRuntime) {
    tell_each(&rt, rt.alloc(), ONE_PARTY);
}

const TWO_PARTIES: &str = "\
items of the other party: single bounded:2 unbounded
split
A push 5 -> ok
meet
B is_empty -> false
B pop -> item 5
B is_empty -> true
A push 6 -> ok
A close -> true
B len -> 1
B is_empty -> false
B is_closed -> true
B pop -> item 6
B pop -> closed
left closed

looked at by the other party: single bounded:2 unbounded
split
B len -> 0
B is_empty -> true
A push 1 -> ok
B len -> 1
B is_empty -> false
A pop -> item 1
B is_full -> false
B len -> 0
A push 3 -> ok
B is_closed -> false
A close -> true
B is_closed -> true
B close -> false
B push 4 -> closed 4
B force 5 -> closed 5
left 3 closed

a slot, full to the other party: single
split
A push 2 -> ok
B is_full -> true
B push 3 -> full 3
A pop -> item 2
B is_full -> false
left open

a ring, full to the other party: bounded:2
split
B capacity -> 2
A push 1 -> ok
B is_full -> false
A push 2 -> ok
B is_full -> true
B len -> 2
B push 3 -> full 3
left 1 2 open

a slot, by force, and closed by the other party: single
split
A force 10 -> ok
meet
B is_empty -> false
B is_full -> true
B len -> 1
B force 20 -> displaced 10
B close -> true
meet
A push 30 -> closed 30
left 20 closed

a ring, by force in turn: bounded:2
split
A force 1 -> ok
B force 2 -> ok
A force 3 -> displaced 1
B force 4 -> displaced 2
A pop -> item 3
left 4 open

a chain, in turn: unbounded
split
B capacity -> none
A push 1 -> ok
B push 2 -> ok
A force 3 -> ok
B pop -> item 1
A pop -> item 2
left 3 open

an item of the other party is left: single bounded:2 unbounded
split
B push 1 -> ok
left 1 open

parted again: single bounded:2 unbounded
split
B push 1 -> ok
join
split
B pop -> item 1
A is_empty -> true
left open";

#[test]
fn stories_of_two_parties(rt: HostRuntime) {
    tell_each(&rt, rt.alloc(), TWO_PARTIES);
}

const DROPPED: &str = "\
dropped without an item: single bounded:2 unbounded
split
drop
A pop -> empty
shared

dropped once it had pushed: single bounded:2 unbounded
split
B push 1 -> ok
drop
A pop -> item 1
shared";

/// A party that was dropped is missing for ever, whether or not it had pushed.
#[test]
fn not_finished_with_a_party_dropped(rt: HostRuntime) {
    tell_each(&rt, rt.alloc(), DROPPED);
}

const REFUSED: &str = "\
a push that is tried without its first block: unbounded; refusing 2
A try push 1 -> no memory 1
left open

a push by force that is tried without its first block: unbounded; refusing 2
A try force 1 -> no memory 1
left open

a push without its first block: unbounded; refusing 2
A begin push 7 -> no memory 7
A len -> 0
count -> items 0, allocations 1
A begin push 7 -> ok
A len -> 1
count -> items 1, allocations 2
left 7 open

a push without its second block: unbounded; with 62; refusing 3
A begin push 7 -> no memory 7
A len -> 62
count -> items 62, allocations 2
A begin push 7 -> ok
A len -> 63
count -> items 63, allocations 3
left 1..62 7 open

a push without its third block: unbounded; with 125; refusing 4
A begin push 7 -> no memory 7
A len -> 125
count -> items 125, allocations 3
A begin push 7 -> ok
A len -> 126
count -> items 126, allocations 4
left 1..125 7 open

a push by force without its first block: unbounded; refusing 2
A begin force 7 -> no memory 7
A len -> 0
count -> items 0, allocations 1
A begin force 7 -> ok
A len -> 1
count -> items 1, allocations 2
left 7 open

a push by force without its second block: unbounded; with 62; refusing 3
A begin force 7 -> no memory 7
A len -> 62
count -> items 62, allocations 2
A begin force 7 -> ok
A len -> 63
count -> items 63, allocations 3
left 1..62 7 open

a push by force without its third block: unbounded; with 125; refusing 4
A begin force 7 -> no memory 7
A len -> 125
count -> items 125, allocations 3
A begin force 7 -> ok
A len -> 126
count -> items 126, allocations 4
left 1..125 7 open";

/// A push that never waits, whose block is refused, has its reply at once, and nothing has changed: the same push is accepted then.
#[test]
fn no_memory_for_a_call_that_never_waits(rt: HostRuntime) {
    tell_each(&rt, rt.alloc(), REFUSED);
}
