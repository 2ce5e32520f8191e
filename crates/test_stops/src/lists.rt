//! Lists of events of all sorts, made from fixed numbers.
use crate::events::{Events, Item, add_call, add_steps, numbered};
use crate::flaw::Flaw;
use crate::runs::{AtEnd, PARTIES, run};
use crate::shapes::{Shape, Start};
use crate::tally::Tally;
use queue_steps::model::Call;
use queue_steps::sizes::{BLOCK_SLOTS, STEPS_ALONE};
use std::alloc::Global;
use std::io;

/// How many times a list goes on with a step, some steps or a call.
const TURNS: u64 = 80;

/// Numbers that follow from a seed.
#[derive(Clone, Copy)]
struct Dice {
    state: u64,
}

impl Dice {
    // A seed that is not 0, as all numbers behind 0 are.
    fn new(seed: u64) -> Dice {
        Dice {
            state: seed.wrapping_mul(0x9e37_79b9_7f4a_7c15) | 1,
        }
    }

    // The next number, below `sides`, which is not 0.
    fn roll(&mut self, sides: u64) -> u64 {
        let mut state = self.state;
        state ^= state << 13;
        state ^= state >> 7;
        state ^= state << 17;
        self.state = state;
        (state >> 20).checked_rem(sides).unwrap_or(0)
    }
}

/// The list that follows from a seed.
#[derive(Clone, Copy, Debug)]
struct List {
    seed: u64,
}

/// Tries so many lists, of this seed and the ones behind it.
pub fn try_lists<R: Print>(rt: &R, alloc: Global, seed: u64, count: u64) -> io::Result<Tally> {
    let mut tally = Tally::NONE;
    for before in 0..count {
        let list = List {
            seed: seed.wrapping_add(before),
        };
        tally.count(rt, &list, judge(alloc, list))?;
    }
    Ok(tally)
}

// Makes the list, runs it, and runs it again with a way to each call's end. In which of them calls waited is not looked at.
fn judge(alloc: Global, list: List) -> Result<bool, Flaw> {
    let mut dice = Dice::new(list.seed);
    let shape = shape_of(&mut dice);
    let mut events = Vec::new(alloc);
    for _ in 0..dice.roll(4).wrapping_add(1) {
        start_of(shape, &mut dice).reach(&mut events)?;
    }
    for _ in 0..TURNS {
        add_turn(&mut dice, &mut events)?;
    }
    run(alloc, shape, &events, 0, AtEnd::Stopped)?;
    end_all(&mut events)?;
    run(alloc, shape, &events, 0, AtEnd::Ended)?;
    Ok(false)
}

fn shape_of(dice: &mut Dice) -> Shape {
    match dice.roll(4) {
        0 => Shape::Single,
        1 => Shape::Pair,
        2 => Shape::Triple,
        _ => Shape::Chain,
    }
}

// What a list begins with, up to four times over: on a chain as many pushes as bring it to within three items of a block's end, before or behind it.
fn start_of(shape: Shape, dice: &mut Dice) -> Start {
    match shape {
        Shape::Chain => Start {
            pushed: dice.roll(6).wrapping_add(BLOCK_SLOTS - 3),
            popped: dice.roll(BLOCK_SLOTS + 3),
            closed: false,
        },
        _ => Start {
            pushed: dice.roll(4),
            popped: dice.roll(3),
            closed: false,
        },
    }
}

fn add_turn(dice: &mut Dice, events: &mut Events) -> Result<(), Flaw> {
    let party = party_of(dice);
    match dice.roll(8) {
        0 | 1 | 2 => {
            let call = call_of(dice);
            add_call(events, party, call, 0, true)
        }
        3 => add_steps(events, party, 1, false),
        _ => add_steps(events, party, dice.roll(5), true),
    }
}

// A party of the run, and now and then a stranger.
fn party_of(dice: &mut Dice) -> usize {
    match dice.roll(40) {
        0 => PARTIES,
        other => (other % PARTIES as u64) as usize,
    }
}

fn call_of(dice: &mut Dice) -> Call<Item> {
    let item = numbered(dice.roll(1000));
    match dice.roll(20) {
        0 | 1 | 2 | 3 => Call::Push(item),
        4 | 5 | 6 | 7 => Call::ForcePush(item),
        8 | 9 | 10 | 11 | 12 | 13 => Call::Pop,
        14 => Call::Close,
        15 => Call::IsClosed,
        16 => Call::IsEmpty,
        17 => Call::IsFull,
        18 => Call::Len,
        _ => Call::Capacity,
    }
}

// Each party goes on in turn, until none waits for another any more: each time one of them at least can end.
fn end_all(events: &mut Events) -> Result<(), Flaw> {
    for _ in 0..PARTIES {
        for party in 0..PARTIES {
            add_steps(events, party, STEPS_ALONE, true)?;
        }
    }
    Ok(())
}
