//! Deadlines by clocks that cannot be read, or are too far.
use crate::asserts::{is, is_in};
use event_count::{Deadline, Never, Until};
use std::io;
use std::io::ErrorKind;
use std::sync::atomic::AtomicU64;
use std::sync::atomic::Ordering::SeqCst;
use std::time::{Clock, Duration};

/// A clock that cannot be read.
struct Broken;

impl Clock for Broken {
    fn monotonic(&self) -> io::Result<Duration> {
        Err(io::Error::from(ErrorKind::Other))
    }

    fn since_1970(&self) -> io::Result<Duration> {
        Err(io::Error::from(ErrorKind::Other))
    }
}

/// A clock that stands still.
pub(crate) struct Still;

impl Clock for Still {
    fn monotonic(&self) -> io::Result<Duration> {
        Ok(Duration::from_secs(5))
    }

    fn since_1970(&self) -> io::Result<Duration> {
        Ok(Duration::from_secs(5))
    }
}

/// Whether it has passed, and how long a sleep may last.
fn shown(until: &impl Deadline) -> (bool, Option<Duration>) {
    (until.is_past(), until.left())
}

#[test]
fn a_clock_that_cannot_be_read_ends_the_wait(rt: HostRuntime) {
    let until = Until::after(&Broken, Duration::from_secs(600));
    is(&rt, shown(&until), (true, Some(Duration::ZERO)));
}

#[test]
fn a_deadline_passes_with_its_clock(rt: HostRuntime) {
    let now = Until::after(&Still, Duration::ZERO);
    let second = Duration::from_secs(1);
    let later = Until::after(&Still, second);
    let found = (shown(&now), shown(&later));
    is(
        &rt,
        found,
        ((true, Some(Duration::ZERO)), (false, Some(second))),
    );
}

#[test]
fn no_deadline_and_one_after_all_times_have_no_end(rt: HostRuntime) {
    let far = Until::after(&Still, Duration::MAX);
    is(
        &rt,
        (shown(&Never), shown(&far)),
        ((false, None), (false, None)),
    );
}

/// A clock that is set by hand, in seconds.
#[derive(Drop)]
struct Set(AtomicU64);

impl Set {
    fn reading(&self) -> io::Result<Duration> {
        Ok(Duration::from_secs(self.0.load(SeqCst)))
    }
}

impl Clock for Set {
    fn monotonic(&self) -> io::Result<Duration> {
        self.reading()
    }

    fn since_1970(&self) -> io::Result<Duration> {
        self.reading()
    }
}

/// What is shown of a deadline that is so many seconds from now, after so many.
fn shown_after(timeout: u64, seconds: u64) -> (bool, Option<Duration>) {
    let clock = Set(AtomicU64::new(5));
    let until = Until::after(&clock, Duration::from_secs(timeout));
    clock.0.fetch_add(seconds, SeqCst);
    shown(&until)
}

/// Timeouts in seconds: above a minute, an hour, a day and a century.
static LONG: [u64; 4] = [61, 7_200, 100_000, 4_000_000_000];

#[test]
fn a_long_wait_has_left_what_has_not_passed(rt: HostRuntime) {
    for timeout in LONG.iter() {
        for left in [*timeout, 1, 0] {
            let passed = timeout.saturating_sub(left);
            let wanted = (left == 0, Some(Duration::from_secs(left)));
            is_in(&rt, (*timeout, left), shown_after(*timeout, passed), wanted);
        }
    }
}
