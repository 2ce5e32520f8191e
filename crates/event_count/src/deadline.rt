//! How long a wait may last.
ghost use Rattle.std.specs.Prelude.{IsTrue};

use std::time::{Clock, Duration, Instant};

/// When a wait is given up.
pub trait Deadline {
    /// Whether it can pass at all.
    ghost can_pass: { Self → Type 0 };

    /// Whether it has passed.
    fn is_past(&self) -> bool
        ensures { IsTrue result → can_pass self.now };

    /// How long a sleep may last, or `None` where it has no end.
    fn left(&self) -> Option<Duration>;
}

/// A wait that is never given up.
#[derive(Clone, Copy)]
pub struct Never;

impl Deadline for Never {
    ghost can_pass = { λ _. ⊥ };

    #[inline(always)]
    fn is_past(&self) -> bool {
        false
    }

    #[inline(always)]
    fn left(&self) -> Option<Duration> {
        None
    }
}

/// The moment that a deadline is.
#[derive(Clone, Copy)]
enum Moment {
    /// A reading of the clock.
    At(Instant),
    /// After all readings of the clock.
    After,
    /// The clock could not be read.
    Unknown,
}

/// A deadline by a clock. A clock that cannot be read ends the wait.
#[derive(Drop)]
pub struct Until<'a, C: Clock> {
    clock: &'a C,
    moment: Moment,
}

impl<'a, C: Clock> Until<'a, C> {
    /// The deadline that is so far from now.
    pub fn after(clock: &'a C, timeout: Duration) -> Until<'a, C> {
        let moment = match Instant::now(clock) {
            Ok(now) => match now.checked_add(timeout) {
                Some(moment) => Moment::At(moment),
                None => Moment::After,
            },
            Err(_) => Moment::Unknown,
        };
        Until { clock, moment }
    }
}

impl<C: Clock> Deadline for Until<'_, C> {
    ghost can_pass = { λ _. Unit {0} };

    fn is_past(&self) -> bool {
        match (self.moment, Instant::now(self.clock)) {
            (Moment::At(moment), Ok(now)) => now >= moment,
            (Moment::After, Ok(_)) => false,
            (Moment::Unknown, _) | (_, Err(_)) => true,
        }
    }

    fn left(&self) -> Option<Duration> {
        match (self.moment, Instant::now(self.clock)) {
            (Moment::At(moment), Ok(now)) => Some(moment.saturating_duration_since(now)),
            (Moment::After, Ok(_)) => None,
            (Moment::Unknown, _) | (_, Err(_)) => Some(Duration::ZERO),
        }
    }
}
