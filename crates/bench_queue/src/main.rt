//! Times pushes and pops on this repository's queues: by one owner, by the only party of a shared queue, once its sharing has ended, and by threads; and on the kit's: by one thread through a shared reference, and by threads.
//!
//! The arguments are `SETUP KIND PATTERN BYTES COUNT` or `threads KIND PUSHERS POPPERS COUNT`, for one run. `SETUP` is `owned`, `alone`, `ended`, or `kit-alone`; `KIND` is `single`, `bounded:CAP` or `unbounded`; `PATTERN` is `behind:ITEMS` or `batch:ITEMS`; `BYTES` is 8 or 64; `kit-threads` stands for `threads` where the queue is the kit's. Without arguments there is a short run of each.
//!
//! Standard output tells the sum of what was popped, which no time changes. Standard error tells how long it took, and the most memory that the process has had. Where a thread cannot be started, it tells that, and the status is 3, as where there is no memory; where the arguments name no load it is 2.
#![tactic(auto)]

mod crew;
mod fault;
mod kit;
mod load;
mod ours;
mod pairs;
mod runs;

use crate::fault::Fault;
use crate::load::parse_load;
use crate::runs::{Run, time};
use app_text::words::words_of;
use std::process::ExitCode;
use std::sync::Wait;
use std::thread::Threads;
use std::{env, fs, io};

/// What is run where there are no arguments.
static SHORT: [&str; 41] = [
    "owned single behind:0 8 1000",
    "owned bounded:2 behind:0 8 1000",
    "owned bounded:3 behind:1 8 1000",
    "owned bounded:4 behind:0 8 1000",
    "owned bounded:1000 behind:100 8 1000",
    "owned bounded:1024 batch:1000 8 2000",
    "owned unbounded behind:0 8 1000",
    "owned unbounded behind:100 8 1000",
    "owned unbounded batch:1000 8 2000",
    "owned single behind:0 64 1000",
    "owned bounded:1000 batch:1000 64 2000",
    "owned unbounded behind:100 64 1000",
    "alone single behind:0 8 1000",
    "alone bounded:2 behind:0 8 1000",
    "alone bounded:3 behind:1 8 1000",
    "alone bounded:1000 batch:1000 8 2000",
    "alone unbounded behind:100 8 1000",
    "alone single behind:0 64 1000",
    "alone unbounded batch:100 64 1000",
    "ended single behind:0 8 1000",
    "ended bounded:3 behind:0 8 1000",
    "ended unbounded behind:100 8 1000",
    "threads single 1 1 1000",
    "threads bounded:3 1 1 1000",
    "threads bounded:1000 4 4 1000",
    "threads unbounded 1 1 1000",
    "threads single 4 4 1000",
    "threads unbounded 4 4 1000",
    "kit-alone single behind:0 8 1000",
    "kit-alone bounded:2 behind:0 8 1000",
    "kit-alone bounded:3 behind:1 8 1000",
    "kit-alone bounded:1000 behind:100 8 1000",
    "kit-alone bounded:1000 batch:1000 8 2000",
    "kit-alone unbounded behind:100 8 1000",
    "kit-alone single behind:0 64 1000",
    "kit-alone bounded:1000 batch:1000 64 2000",
    "kit-alone unbounded batch:100 64 1000",
    "kit-threads single 1 1 1000",
    "kit-threads bounded:1000 4 4 1000",
    "kit-threads unbounded 1 1 1000",
    "kit-threads unbounded 4 4 1000",
];

fn main(rt: HostRuntime) -> ExitCode {
    let Err(fault) = run_asked(&rt, &rt) else {
        return ExitCode::SUCCESS;
    };
    let _ = eprintln!(&rt; "{fault}");
    ExitCode::from(fault.status())
}

// Runs what the arguments ask for.
fn run_asked<R: Threads + Wait + Sync>(rt: &HostRuntime, threads: &R) -> Result<(), Fault> {
    let words = words_of(rt.alloc(), env::args(rt))?;
    let line = words.join(rt.alloc(), " ")?;
    run(rt, threads, line.as_str())
}

// Runs what this line names, or each of the short runs where it names none.
fn run<R: Threads + Wait + Sync>(rt: &HostRuntime, threads: &R, line: &str) -> Result<(), Fault> {
    if !line.is_empty() {
        return tell(rt, threads, line);
    }
    for line in SHORT.iter() {
        tell(rt, threads, line)?;
    }
    Ok(())
}

// Runs the load that this line names, and tells what came of it.
fn tell<R: Threads + Wait + Sync>(rt: &HostRuntime, threads: &R, line: &str) -> Result<(), Fault> {
    let Some(load) = parse_load(line) else {
        return Err(Fault::NoLoad);
    };
    let Run { sum, took } = time(rt, threads, load)?;
    tell_sum(rt, line, sum)?;
    tell_time(rt, line, took.as_nanos())?;
    Ok(())
}

fn tell_sum<R: Print>(rt: &R, line: &str, sum: u64) -> io::Result<()> {
    println!(rt; "{line}: sum {sum}")
}

fn tell_time(rt: &HostRuntime, line: &str, nanos: u128) -> io::Result<()> {
    match peak(rt) {
        Some(peak) => eprintln!(rt; "{line}: {nanos} ns, peak {peak} KiB"),
        None => eprintln!(rt; "{line}: {nanos} ns"),
    }
}

// The most memory that this process has had so far, in KiB, where the system tells.
fn peak(rt: &HostRuntime) -> Option<u64> {
    match fs::read_to_string(rt, "/proc/self/status") {
        Ok(status) => peak_in(status.as_str()),
        Err(_) => None,
    }
}

// The peak that is told by one of these lines.
fn peak_in(status: &str) -> Option<u64> {
    let (_, behind) = status.split_once("VmHWM:")?;
    let (size, _) = behind.split_once(" kB")?;
    size.trim().parse().ok()
}
