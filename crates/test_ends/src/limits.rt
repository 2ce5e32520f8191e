//! More ends, and more room, than small tests have.
use crate::asserts::is_in;
use crate::host::Host;
use crate::opening::{one_more, opened_surely};
use channel_handle::{Handle, PushError};
use counted_channel::ChannelEnd;

/// How many ends are parted off, and how many items a channel has room for.
const MANY: usize = 5_000;

/// Parts so many ends off, which are all there at once. Gives how many.
fn parted_off<E: ChannelEnd<u64>, R: Host>(
    rt: &R,
    end: &mut Handle<E, u64>,
    count: usize,
) -> usize {
    let mut ends = Vec::new(rt.alloc());
    for _ in 0..count {
        ends.push(one_more(rt, end)).expect(rt, "memory");
    }
    ends.len()
}

#[test]
fn thousands_of_ends_of_each_side(rt: HostRuntime) {
    for cap in [Some(1), Some(3), None] {
        let (mut sender, mut receiver) = opened_surely(&rt, rt.alloc(), cap);
        let senders = parted_off(&rt, &mut sender, MANY);
        let receivers = parted_off(&rt, &mut receiver, MANY);
        is_in(&rt, cap, (senders, receivers), (MANY, MANY));
    }
}

#[test]
fn room_for_thousands(rt: HostRuntime) {
    let (mut sender, mut receiver) = opened_surely(&rt, rt.alloc(), Some(MANY));
    for item in 0..MANY as u64 {
        is_in(&rt, item, sender.try_send(&rt, item), Ok(()));
    }
    is_in(
        &rt,
        "full",
        sender.try_send(&rt, 1),
        Err(PushError::Full(1)),
    );
    is_in(&rt, "the first", receiver.try_recv(&rt), Ok(0));
}
