//! Runs the machine with calls that stop anywhere, and with lists of events of all sorts, and reads what is told of each run against the definition of a queue, and finds its calls in one order of whole ones.
//!
//! With the arguments `lists SEED COUNT` it tries so many lists and nothing else, of this seed and the ones behind it.
#![tactic(auto)]

mod cases;
mod events;
mod flaw;
mod lists;
mod moment;
mod orders;
mod queue;
mod reader;
mod runs;
mod shapes;
mod tally;

use crate::cases::{Second, try_stops};
use crate::lists::try_lists;
use std::io::ErrorKind;
use std::process::ExitCode;
use std::{env, io};

/// The lists that are tried where there are no arguments.
const LISTS: u64 = 5_000;

fn main(rt: HostRuntime) -> io::Result<ExitCode> {
    let args = env::args(&rt)?;
    let words: Vec<String> = args.skip(1).collect(rt.alloc())?;
    let flawed = match words.as_slice() {
        [] => tell_all(&rt)?,
        [form, seed, count] if form.as_str() == "lists" => {
            tell_some(&rt, seed.as_str(), count.as_str())?
        }
        _ => return Err(io::Error::from(ErrorKind::InvalidInput)),
    };
    Ok(ExitCode::from(if flawed == 0 { 0 } else { 1 }))
}

/// Tries each stop of one call beside each other call, each stop of two, and some lists, and tells how many cases there were. Gives how many were flawed.
fn tell_all<R: Print + AllocGlobal>(rt: &R) -> io::Result<u64> {
    let one = try_stops(rt, rt.alloc(), Second::GoesOn)?;
    println!(rt;
        "one call stops: {} cases, {} of them with a call that waits, {} flawed",
        one.cases, one.waits, one.flawed
    )?;
    let two = try_stops(rt, rt.alloc(), Second::Stops)?;
    println!(rt;
        "two calls stop: {} cases, {} flawed",
        two.cases, two.flawed
    )?;
    let lists = tell_lists(rt, 1, LISTS)?;
    Ok(one.flawed.wrapping_add(two.flawed).wrapping_add(lists))
}

/// Tries so many lists, of this seed and the ones behind it. Gives how many were flawed.
fn tell_some<R: Print + AllocGlobal>(rt: &R, seed: &str, count: &str) -> io::Result<u64> {
    let (Ok(seed), Ok(count)) = (seed.parse(), count.parse()) else {
        return Err(io::Error::from(ErrorKind::InvalidInput));
    };
    tell_lists(rt, seed, count)
}

/// The same of these numbers, and tells how many there were.
fn tell_lists<R: Print + AllocGlobal>(rt: &R, seed: u64, count: u64) -> io::Result<u64> {
    let tally = try_lists(rt, rt.alloc(), seed, count)?;
    println!(rt;
        "lists of events: {} from seed {seed} on, {} flawed",
        tally.cases, tally.flawed
    )?;
    Ok(tally.flawed)
}
