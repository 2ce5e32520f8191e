//! A notify ends each wait whose ticket is older, and of those that sleep it wakes as many as it is to.
use crate::asserts::is;
use crate::host::Host;
use crate::sleep::deadlines::Still;
use event_count::{EventCount, Look, Patience, Until};
use std::sync::Wait;
use std::sync::atomic::AtomicU64;
use std::sync::atomic::Ordering::SeqCst;
use std::thread::{join, sleep};
use std::time::Duration;
use test_support::watched::Watched;

/// What the threads wait for.
#[derive(Drop)]
struct Sign {
    made: (),
}

/// Notifies one, or all.
fn notify(signs: &EventCount<Sign>, all: bool) {
    if all {
        signs.owe_all(Sign { made: () }).notify();
    } else {
        signs.owe_one(Sign { made: () }).notify();
    }
}

/// The test ends, since neither wait sleeps.
#[test]
fn a_notify_after_the_ticket_ends_the_wait(rt: HostRuntime) {
    for all in [false, true] {
        let signs = EventCount::new();
        let ticket = signs.prepare();
        notify(&signs, all);
        ticket.missed(Sign { made: () }).wait(&rt);
    }
}

/// After how many looks in vain, with a pause after each, one has a ticket, which is not waited on.
fn pauses<R: Wait>(rt: &R, patience: &mut Patience<'_, Sign>) -> u64 {
    for looks in 0..100 {
        match patience.look() {
            Look::Awake => patience.wait(rt, Look::Awake.in_vain(Sign { made: () })),
            prepared => {
                prepared.found();
                return looks;
            }
        }
    }
    100
}

/// The test ends, since the look is older than the notify.
#[test]
fn a_patient_look_has_its_ticket_first(rt: HostRuntime) {
    let signs = EventCount::new();
    let mut patience = Patience::new(&signs);
    let before = pauses(&rt, &mut patience);
    let look = patience.look();
    notify(&signs, false);
    patience.wait(&rt, look.in_vain(Sign { made: () }));
    is(&rt, (before, pauses(&rt, &mut patience)), (10, 10));
}

/// A notify may take a sleeper as its time passes: so a sleep is never the last thing of a wait, and the look after it may be.
#[test]
fn a_sleeper_looks_again_after_its_deadline(rt: HostRuntime) {
    let signs = EventCount::new();
    let past = Until::after(&Still, Duration::ZERO);
    let mut patience = Patience::new(&signs);
    let before = pauses(&rt, &mut patience);
    let slept = patience.look().in_vain(Sign { made: () });
    let over_by_sleep = patience.wait_until(&rt, slept, &past);
    let awake = patience.look().in_vain(Sign { made: () });
    let over_by_look = patience.wait_until(&rt, awake, &past);
    is(
        &rt,
        (before, over_by_sleep, over_by_look),
        (10, false, true),
    );
}

/// Two threads that sleep.
#[derive(Drop)]
struct Sleepers {
    signs: EventCount<Sign>,
    one: Watched,
    two: Watched,
    /// How many have returned.
    returned: AtomicU64,
}

impl Sleepers {
    /// Sleeps once.
    fn sleep<R: Host>(&self, rt: &R, watched: &Watched) {
        watched.enter(rt);
        self.signs.prepare().missed(Sign { made: () }).wait(rt);
        self.returned.fetch_add(1, SeqCst);
    }

    /// Waits until so many have returned, though not for ever, and a while longer. Gives how many have.
    fn wait_for<R: Host>(&self, rt: &R, wanted: u64) -> u64 {
        for _ in 0..1_000 {
            if wanted <= self.returned.load(SeqCst) {
                break;
            }
            sleep(rt, Duration::from_millis(5));
        }
        sleep(rt, Duration::from_millis(50));
        self.returned.load(SeqCst)
    }

    /// Notifies one, or all, once both sleep, and all in the end. Asserts that both are seen asleep, and how many return in between.
    fn wake<R: Host>(&self, rt: &R, all: bool) {
        is(rt, self.one.is_seen_asleep(rt), true);
        is(rt, self.two.is_seen_asleep(rt), true);
        notify(&self.signs, all);
        let wanted = if all { 2 } else { 1 };
        is(rt, self.wait_for(rt, wanted), wanted);
        notify(&self.signs, true);
    }
}

#[test]
fn a_notify_wakes_one_of_two_or_both(rt: HostRuntime) {
    for all in [false, true] {
        let sleepers = Sleepers {
            signs: EventCount::new(),
            one: Watched::new(),
            two: Watched::new(),
            returned: AtomicU64::new(0),
        };
        join(
            &rt,
            || sleepers.sleep(&rt, &sleepers.one),
            || {
                join(
                    &rt,
                    || sleepers.sleep(&rt, &sleepers.two),
                    || sleepers.wake(&rt, all),
                );
            },
        );
    }
}
