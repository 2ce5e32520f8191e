//! A thread sends numbers, this one adds them up.
#![tactic(auto)]

use concurrent_queue::{PopError, PushError};
use queue_handle::Handle;
use std::io;
use std::thread::{spawn, yield_now};

fn main(rt: HostRuntime) -> io::Result<()> {
    let mut mine = Handle::bounded(rt.alloc(), 4)?;
    let mut theirs = mine.split()?;
    let sender = spawn(&rt, move || {
        let mut next: u64 = 1;
        for _ in rt.forever() {
            match theirs.push(&rt, next) {
                Ok(()) if next < 100 => next += 1,
                Err(PushError::Full(_)) => yield_now(),
                _ => break,
            }
        }
        theirs.close();
    })?;
    let mut sum: u64 = 0;
    for _ in rt.forever() {
        match mine.pop(&rt) {
            Ok(number) => sum = sum.wrapping_add(number),
            Err(PopError::Empty) => yield_now(),
            Err(PopError::Closed) => break,
        }
    }
    sender.join(&rt);
    println!(rt; "{sum}")
}
