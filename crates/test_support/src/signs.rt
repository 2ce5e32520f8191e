//! Signs that threads show each other.
use std::sync::atomic::{AtomicBool, Ordering};
use std::thread::yield_now;

/// How often a thread looks for another one's sign at most.
const LOOKS: u64 = 10_000_000;

/// Waits for a sign, though not for ever. Gives whether it came.
pub fn wait_for(sign: &AtomicBool) -> bool {
    for _ in 0..LOOKS {
        if sign.load(Ordering::SeqCst) {
            return true;
        }
        yield_now();
    }
    false
}
