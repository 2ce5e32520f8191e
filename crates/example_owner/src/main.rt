//! A queue with one owner.
#![tactic(auto)]

use exclusive_queue::Exclusive;
use std::io;

fn main(rt: HostRuntime) -> io::Result<()> {
    let mut queue: Exclusive<u64> = Exclusive::bounded(rt.alloc(), 2)?;
    let first = queue.push(10);
    let second = queue.push(20);
    let third = queue.push(30);
    let displaced = queue.force_push(40);
    let closed = queue.close();
    let item = queue.pop();
    println!(rt; "{first:?} {second:?} {third:?}")?;
    println!(rt; "{displaced:?} {closed} {item:?}")?;
    println!(rt; "{queue:?}")
}
