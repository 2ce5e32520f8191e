//! Threads that push and pop on one queue. No value is counted: the numbers are added up.
use crate::fault::Fault;
use std::alloc::{AllocError, Global};
use std::sync::Wait;
use std::sync::atomic::Ordering::SeqCst;
use std::sync::atomic::{AtomicBool, AtomicU64};
use std::thread;
use std::thread::{Scope, Threads, yield_now};

/// How many threads push and how many pop, and how many numbers each pushes. The poppers share what is pushed evenly.
#[derive(Clone, Copy)]
pub struct Crew {
    pub pushers: u64,
    pub poppers: u64,
    pub count: u64,
}

/// Why a number was not pushed, or none popped.
#[derive(Clone, Copy)]
pub enum Refusal {
    /// The queue is full, or empty, which another thread may change.
    ForNow,
    /// The queue is closed.
    ForGood,
}

/// A queue as one of the threads has it that share it.
pub trait Seat {
    /// Makes two seats of one.
    ///
    /// # Errors
    ///
    /// There may be no more of them.
    fn part(self) -> Result<(Self, Self), AllocError>;

    /// Pushes a number.
    fn put<R: Wait>(&mut self, rt: &R, number: u64) -> Result<(), Refusal>;

    /// Pops a number.
    fn take<R: Wait>(&mut self, rt: &R) -> Result<u64, Refusal>;
}

// What a thread does.
#[derive(Clone, Copy)]
enum Role {
    // Pushes so many numbers.
    Pushes(u64),
    // Pops so many numbers.
    Pops(u64),
}

// A thread to be: its seat, and what it does.
#[derive(Drop)]
struct Member<S> {
    seat: S,
    role: Role,
}

// What the threads of a crew share.
#[derive(Drop)]
struct Board {
    // The sum of what was popped.
    sum: AtomicU64,
    // A thread could not be started, so those that were wait no longer.
    is_given_up: AtomicBool,
}

impl Board {
    fn new() -> Board {
        Board {
            sum: AtomicU64::new(0),
            is_given_up: AtomicBool::new(false),
        }
    }

    // Lets others go first, and gives whether to try again then.
    fn wait(&self) -> bool {
        yield_now();
        !self.is_given_up.load(SeqCst)
    }
}

/// Runs the threads of a crew. Gives the sum of what was popped.
///
/// # Errors
///
/// There is no memory, or there may be no more seats, or a thread cannot be started. Those that were started have ended then.
pub fn run_crew<R: Threads + Wait + Sync, S: Seat + Send + Drop>(
    rt: &R,
    alloc: Global,
    seat: S,
    crew: Crew,
) -> Result<u64, Fault> {
    let members = enlist_all(alloc, seat, crew)?;
    let board = Board::new();
    thread::scope(thread::scope_env(), rt, |scope| {
        start_all(rt, scope, members, &board)
    })?;
    Ok(board.sum.load(SeqCst))
}

// Starts a thread for each member. Where one cannot be started, the others end.
fn start_all<'s, E, R: Threads + Wait + Sync, S: Seat + Send + Drop + 's>(
    rt: &'s R,
    scope: &Scope<'s, E>,
    members: Vec<Member<S>>,
    board: &'s Board,
) -> Result<(), Fault> {
    for member in members {
        if scope.spawn(move || act(rt, member, board)).is_err() {
            board.is_given_up.store(true, SeqCst);
            return Err(Fault::NoThread);
        }
    }
    Ok(())
}

// The members of a crew.
fn enlist_all<S: Seat + Drop>(
    alloc: Global,
    seat: S,
    crew: Crew,
) -> Result<Vec<Member<S>>, AllocError> {
    let pushed = crew.pushers.wrapping_mul(crew.count);
    let share = pushed.checked_div(crew.poppers).unwrap_or(0);
    let mut members = Vec::new(alloc);
    let seat = enlist(seat, &mut members, Role::Pushes(crew.count), crew.pushers)?;
    enlist(seat, &mut members, Role::Pops(share), crew.poppers)?;
    Ok(members)
}

// Adds so many members with this role. Gives the seat that is left.
fn enlist<S: Seat + Drop>(
    mut seat: S,
    members: &mut Vec<Member<S>>,
    role: Role,
    count: u64,
) -> Result<S, AllocError> {
    for _ in 0..count {
        let (left, theirs) = seat.part()?;
        members.push(Member { seat: theirs, role })?;
        seat = left;
    }
    Ok(seat)
}

// Does what the member's role says, and adds what was popped to the sum.
fn act<R: Wait, S: Seat + Drop>(rt: &R, member: Member<S>, board: &Board) {
    let Member { mut seat, role } = member;
    match role {
        Role::Pushes(count) => push_all(rt, &mut seat, count, board),
        Role::Pops(count) => {
            board
                .sum
                .fetch_add(pop_all(rt, &mut seat, count, board), SeqCst);
        }
    }
}

// Pushes the numbers from 0 up to the count, which is left out, each again for as long as the queue is full.
fn push_all<R: Wait, S: Seat>(rt: &R, seat: &mut S, count: u64, board: &Board) {
    let mut number = 0;
    for _ in rt.forever() {
        if number >= count {
            break;
        }
        match seat.put(rt, number) {
            Ok(()) => number += 1,
            Err(Refusal::ForNow) if board.wait() => {}
            Err(Refusal::ForNow | Refusal::ForGood) => break,
        }
    }
}

// Pops so many numbers, and waits where the queue is empty. Gives their sum.
fn pop_all<R: Wait, S: Seat>(rt: &R, seat: &mut S, count: u64, board: &Board) -> u64 {
    let mut sum = 0u64;
    let mut left = count;
    for _ in rt.forever() {
        if left == 0 {
            break;
        }
        match seat.take(rt) {
            Ok(number) => {
                sum = sum.wrapping_add(number);
                left -= 1;
            }
            Err(Refusal::ForNow) if board.wait() => {}
            Err(Refusal::ForNow | Refusal::ForGood) => break,
        }
    }
    sum
}
