//! What the system reports of a thread: its number, whether it sleeps, and how much processor time it had.
use std::alloc::AllocGlobal;
use std::fs;
use std::sync::atomic::AtomicU64;
use std::sync::atomic::Ordering::SeqCst;
use std::thread::sleep;
use std::time::{Clock, Duration};

/// How often a thread is looked at before it is taken to be awake for ever.
const LOOKS: u64 = 5_000;

/// How many microseconds there are between two looks.
const PAUSE: u64 = 100;

/// What reads texts of the system, by their paths.
pub trait System {
    /// The text of this path, where it can be read.
    fn text(&self, path: &str) -> Option<String>;
}

impl System for HostRuntime {
    fn text(&self, path: &str) -> Option<String> {
        fs::read_to_string(self, path).ok()
    }
}

/// A thread that others look at.
#[derive(Drop)]
pub struct Watched {
    /// The number that the system gives it, or 0.
    number: AtomicU64,
}

impl Watched {
    pub fn new() -> Watched {
        Watched {
            number: AtomicU64::new(0),
        }
    }

    /// The thread that calls this is looked at from now on.
    pub fn enter<R: System>(&self, rt: &R) {
        let number = rt.text(OWN).and_then(|text| field(&text, 0));
        self.number.store(number.unwrap_or(0), SeqCst);
    }

    /// No thread is looked at from now on.
    pub fn leave(&self) {
        self.number.store(0, SeqCst);
    }

    /// Whether it sleeps.
    fn sleeps<R: System + AllocGlobal>(&self, rt: &R) -> bool {
        let number = self.number.load(SeqCst);
        if number == 0 {
            return false;
        }
        let Ok(path) = format!(in rt.alloc(); "/proc/self/task/{number}/status") else {
            return false;
        };
        match rt.text(&path) {
            Some(text) => text.contains("State:\tS"),
            None => false,
        }
    }

    /// Whether it is seen asleep.
    pub fn is_seen_asleep<R: System + AllocGlobal + Clock>(&self, rt: &R) -> bool {
        for _ in 0..LOOKS {
            if self.sleeps(rt) {
                return true;
            }
            sleep(rt, Duration::from_micros(PAUSE));
        }
        false
    }
}

/// Where the system reports of the thread that asks.
const OWN: &str = "/proc/thread-self/stat";

/// Where it reports of the process.
const ALL: &str = "/proc/self/stat";

/// How much processor time this thread had, in hundredths of a second, where the system reports it.
pub fn time<R: System>(rt: &R) -> Option<u64> {
    time_at(rt, OWN)
}

/// How much processor time all threads of the process had, in hundredths of a second, where the system reports it.
pub fn time_of_all<R: System>(rt: &R) -> Option<u64> {
    time_at(rt, ALL)
}

/// The processor time that a text of the system reports.
fn time_at<R: System>(rt: &R, path: &str) -> Option<u64> {
    let text = rt.text(path)?;
    let own = field(&text, 13)?;
    let system = field(&text, 14)?;
    Some(own.wrapping_add(system))
}

/// A number in a text, after so many fields.
fn field(text: &str, after: usize) -> Option<u64> {
    text.split(' ').nth(after)?.parse().ok()
}
