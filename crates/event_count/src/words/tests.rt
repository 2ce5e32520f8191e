//! What each step finds and what it leaves in the words, and what notifies take off `SLEEPERS`.
ghost use Rattle.event_count.specs.Cursors.{IsOnWords};

use crate::EventCount;
use crate::wakes::{Step, Whom, Word};
use crate::words::Words;
use crossbeam_utils::CachePadded;
use std::process::Abort;
use std::sync::atomic::AtomicU64;
use std::sync::atomic::Ordering::SeqCst;

/// `EVENTS` and `SLEEPERS`.
type Both = (u64, u64);

impl Words {
    /// What is in both.
    fn both(&self) -> Both {
        (self.events.load(SeqCst), self.sleepers.load(SeqCst))
    }
}

/// Asserts that this step finds this number where there are 5 events and 3 sleepers, and that it leaves this.
fn takes(rt: &impl Abort, step: Step, found: u64, left: Both)
    requires { IsOnWords step }
{
    let words = Words {
        events: CachePadded::new(AtomicU64::new(5)),
        sleepers: CachePadded::new(AtomicU64::new(3)),
    };
    let done = words.operate(step);
    assert_eq!(rt; (done.found(), words.both()), (found, left));
}

#[test]
fn a_load_leaves_both_words(rt: HostRuntime) {
    takes(&rt, Step::Load(Word::Events), 5, (5, 3));
    takes(&rt, Step::Load(Word::Sleepers), 3, (5, 3));
}

#[test]
fn an_add_adds_one_to_its_word(rt: HostRuntime) {
    takes(&rt, Step::Add(Word::Events), 5, (6, 3));
    takes(&rt, Step::Add(Word::Sleepers), 3, (5, 4));
}

/// Another party has changed the word where it is not the number that was loaded.
#[test]
fn a_take_takes_one_off_if_the_word_is_unchanged(rt: HostRuntime) {
    takes(&rt, Step::Take(3), 3, (5, 2));
    takes(&rt, Step::Take(2), 3, (5, 3));
    takes(&rt, Step::Take(4), 3, (5, 3));
}

#[test]
fn a_clear_takes_all_off(rt: HostRuntime) {
    takes(&rt, Step::Clear, 3, (5, 0));
}

#[test]
fn a_wake_leaves_both_words(rt: HostRuntime) {
    takes(&rt, Step::Wake(Whom::One), 0, (5, 3));
    takes(&rt, Step::Wake(Whom::All), 0, (5, 3));
}

/// What the tests wait for.
#[derive(Drop)]
struct Sign;

/// An eventcount at which so many waits were begun and given up.
fn after_waits(waits: u64) -> EventCount<Sign> {
    let signs = EventCount::new();
    for _ in 0..waits {
        signs.prepare().found();
    }
    signs
}

/// Asserts that as many notifies of one as there were waits go to wake, and that each takes one off, and that a later one does nothing.
fn notify_each(rt: &impl Abort, waits: u64) {
    let signs = after_waits(waits);
    for notifies in 0..=waits {
        let left = (notifies, waits.saturating_sub(notifies));
        assert_eq!(rt; signs.words.both(), left, "of {waits}");
        signs.owe_one(Sign).notify();
    }
    assert_eq!(rt; signs.words.both(), (waits, 0), "of {waits}");
}

#[test]
fn each_notify_of_one_takes_one_off(rt: HostRuntime) {
    for waits in 0..5 {
        notify_each(&rt, waits);
    }
}

/// Asserts that a notify of all takes all off, and that a notify of one does nothing then.
fn notify_together(rt: &impl Abort, waits: u64) {
    let signs = after_waits(waits);
    signs.owe_all(Sign).notify();
    assert_eq!(rt; signs.words.both(), (1, 0), "of {waits}");
    signs.owe_one(Sign).notify();
    assert_eq!(rt; signs.words.both(), (1, 0), "of {waits}");
}

#[test]
fn a_notify_of_all_takes_all_off_the_count(rt: HostRuntime) {
    for waits in 0..5 {
        notify_together(&rt, waits);
    }
}
