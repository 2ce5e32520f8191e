//! Which number each export answers, and which value it writes, on each kind of queue.
use crate::exports::{
    queue_c_bounded, queue_c_capacity, queue_c_close, queue_c_drop, queue_c_finish,
    queue_c_force_push, queue_c_is_closed, queue_c_is_empty, queue_c_is_full, queue_c_len,
    queue_c_pop, queue_c_push, queue_c_resume, queue_c_split, queue_c_unbounded,
};
use crate::handle::Handle;
use std::alloc::Global;
use std::process::Abort;

/// What is where a value goes, before it is written.
const UNWRITTEN: u64 = 77;

/// A call of an export, but for those that open and split.
#[derive(Clone, Copy, Debug)]
enum Export {
    Push(u64),
    ForcePush(u64),
    Pop,
    Len,
    Resume,
    Close,
    IsClosed,
    IsEmpty,
    IsFull,
    Capacity,
    Finish,
    Drop,
}

/// Makes a call. Gives its number, and what is then where a value goes.
fn answer(alloc: Global, party: &mut Handle, export: Export) -> (u32, u64) {
    let mut value = UNWRITTEN;
    let number = match export {
        Export::Push(value) => queue_c_push(alloc, party, value),
        Export::ForcePush(new) => queue_c_force_push(alloc, party, new, &mut value),
        Export::Pop => queue_c_pop(alloc, party, &mut value),
        Export::Len => queue_c_len(alloc, party, &mut value),
        Export::Resume => queue_c_resume(alloc, party, &mut value),
        Export::Close => queue_c_close(alloc, party),
        Export::IsClosed => queue_c_is_closed(alloc, party),
        Export::IsEmpty => queue_c_is_empty(alloc, party),
        Export::IsFull => queue_c_is_full(alloc, party),
        Export::Capacity => queue_c_capacity(alloc, party, &mut value),
        Export::Finish => queue_c_finish(alloc, party, &mut value),
        Export::Drop => queue_c_drop(alloc, party),
    };
    (number, value)
}

/// A call, its number, and what is then where a value goes.
type Row = (Export, u32, u64);

/// Makes calls, and asserts their answers.
fn are_answered(rt: &impl Abort, alloc: Global, party: &mut Handle, rows: &[Row]) {
    for (export, number, value) in rows {
        let found = answer(alloc, party, *export);
        assert_eq!(rt; found, (*number, *value), "{export:?}");
    }
}

/// Opens a queue of this capacity, or without one, in a handle that has none. Gives its number.
fn open(alloc: Global, party: &mut Handle, cap: Option<usize>) -> u32 {
    match cap {
        Some(cap) => queue_c_bounded(alloc, party, cap),
        None => queue_c_unbounded(alloc, party),
    }
}

/// The calls of the only party of an empty queue of this capacity, or without one.
struct Story {
    cap: Option<usize>,
    rows: &'static [Row],
}

static STORIES: [Story; 3] = [
    Story {
        cap: Some(1),
        rows: &[
            (Export::Capacity, 1, 1),
            (Export::IsEmpty, 1, UNWRITTEN),
            (Export::IsFull, 0, UNWRITTEN),
            (Export::Pop, 3, UNWRITTEN),
            (Export::Push(5), 0, UNWRITTEN),
            (Export::IsEmpty, 0, UNWRITTEN),
            (Export::IsFull, 1, UNWRITTEN),
            (Export::Push(6), 2, UNWRITTEN),
            (Export::ForcePush(7), 1, 5),
            (Export::Len, 0, 1),
            (Export::Resume, 14, UNWRITTEN),
            (Export::IsClosed, 0, UNWRITTEN),
            (Export::Close, 1, UNWRITTEN),
            (Export::Close, 0, UNWRITTEN),
            (Export::IsClosed, 1, UNWRITTEN),
            (Export::Push(8), 4, UNWRITTEN),
            (Export::ForcePush(8), 4, UNWRITTEN),
            (Export::Pop, 0, 7),
            (Export::Pop, 4, UNWRITTEN),
            (Export::Drop, 0, UNWRITTEN),
            (Export::Drop, 6, UNWRITTEN),
        ],
    },
    Story {
        cap: Some(2),
        rows: &[
            (Export::Capacity, 1, 2),
            (Export::ForcePush(5), 0, UNWRITTEN),
            (Export::IsEmpty, 0, UNWRITTEN),
            (Export::IsFull, 0, UNWRITTEN),
            (Export::Push(6), 0, UNWRITTEN),
            (Export::IsFull, 1, UNWRITTEN),
            (Export::Push(7), 2, UNWRITTEN),
            (Export::ForcePush(7), 1, 5),
            (Export::Len, 0, 2),
            (Export::Pop, 0, 6),
            (Export::Resume, 14, UNWRITTEN),
            (Export::Close, 1, UNWRITTEN),
            (Export::Push(8), 4, UNWRITTEN),
            (Export::Finish, 0, 1),
            (Export::Finish, 6, UNWRITTEN),
        ],
    },
    Story {
        cap: None,
        rows: &[
            (Export::Capacity, 0, UNWRITTEN),
            (Export::Pop, 3, UNWRITTEN),
            (Export::IsEmpty, 1, UNWRITTEN),
            (Export::Push(5), 0, UNWRITTEN),
            (Export::ForcePush(6), 0, UNWRITTEN),
            (Export::IsEmpty, 0, UNWRITTEN),
            (Export::IsFull, 0, UNWRITTEN),
            (Export::Len, 0, 2),
            (Export::Pop, 0, 5),
            (Export::Resume, 14, UNWRITTEN),
            (Export::Close, 1, UNWRITTEN),
            (Export::ForcePush(8), 4, UNWRITTEN),
            (Export::Finish, 0, 1),
        ],
    },
];

/// What a handle without a party answers.
static NO_PARTY: [Row; 12] = [
    (Export::Push(1), 6, UNWRITTEN),
    (Export::ForcePush(1), 6, UNWRITTEN),
    (Export::Pop, 6, UNWRITTEN),
    (Export::Len, 6, UNWRITTEN),
    (Export::Resume, 6, UNWRITTEN),
    (Export::Close, 6, UNWRITTEN),
    (Export::IsClosed, 6, UNWRITTEN),
    (Export::IsEmpty, 6, UNWRITTEN),
    (Export::IsFull, 6, UNWRITTEN),
    (Export::Capacity, 6, UNWRITTEN),
    (Export::Finish, 6, UNWRITTEN),
    (Export::Drop, 6, UNWRITTEN),
];

#[test]
fn answers_of_the_only_party(rt: HostRuntime) {
    for story in STORIES.iter() {
        let mut party = Handle::none(rt.alloc());
        are_answered(&rt, rt.alloc(), &mut party, &NO_PARTY);
        let opened = open(rt.alloc(), &mut party, story.cap);
        let taken = open(rt.alloc(), &mut party, story.cap);
        assert_eq!(&rt; (opened, taken), (0, 7));
        are_answered(&rt, rt.alloc(), &mut party, story.rows);
        are_answered(&rt, rt.alloc(), &mut party, &NO_PARTY);
    }
}

/// Splits the party of a queue of this capacity, and asserts what each of two handles answers then.
fn are_split(rt: &impl Abort, alloc: Global, cap: Option<usize>) {
    let mut party = Handle::none(alloc);
    let mut other = Handle::none(alloc);
    let nothing = queue_c_split(alloc, &mut party, &mut other);
    let opened = open(alloc, &mut party, cap);
    let done = queue_c_split(alloc, &mut party, &mut other);
    let taken = queue_c_split(alloc, &mut party, &mut other);
    assert_eq!(rt; (nothing, opened, done, taken), (6, 0, 0, 7));
    are_answered(
        rt,
        alloc,
        &mut party,
        &[
            (Export::Push(5), 0, UNWRITTEN),
            (Export::Finish, 10, UNWRITTEN),
        ],
    );
    are_answered(
        rt,
        alloc,
        &mut other,
        &[(Export::Pop, 0, 5), (Export::Drop, 0, UNWRITTEN)],
    );
    are_answered(
        rt,
        alloc,
        &mut party,
        &[
            (Export::Finish, 11, UNWRITTEN),
            (Export::Drop, 6, UNWRITTEN),
        ],
    );
}

#[test]
fn answers_of_two_parties(rt: HostRuntime) {
    for cap in [Some(1), Some(2), None] {
        are_split(&rt, rt.alloc(), cap);
    }
}

#[test]
fn no_queue_without_room(rt: HostRuntime) {
    let mut party = Handle::none(rt.alloc());
    assert_eq!(&rt; queue_c_bounded(rt.alloc(), &mut party, 0), 8);
    are_answered(&rt, rt.alloc(), &mut party, &NO_PARTY);
}

/// A queue with room for thousands takes them, and no more.
#[test]
fn room_for_thousands(rt: HostRuntime) {
    let mut party = Handle::none(rt.alloc());
    assert_eq!(&rt; open(rt.alloc(), &mut party, Some(5_000)), 0);
    for item in 0..5_000 {
        assert_eq!(&rt; queue_c_push(rt.alloc(), &mut party, item), 0, "{item}");
    }
    are_answered(
        &rt,
        rt.alloc(),
        &mut party,
        &[
            (Export::Push(1), 2, UNWRITTEN),
            (Export::Pop, 0, 0),
            (Export::Drop, 0, UNWRITTEN),
        ],
    );
}
