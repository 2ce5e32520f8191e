//! Threads that send and receive through one channel, each with an end of its own.
ghost use Rattle.std.specs.Prelude.{◌≡◌, ℕ, ◌<◌, ◌+◌, ◌*◌, ◌^◌, ◌&&◌, [], ⊤, true, false, length, replicate, IfOk, MatchResult};
ghost use Rattle.queue_steps.specs.Parties.{IsView};
ghost use Rattle.concurrent_queue.specs.Shared.{IsPartyOf, Joins};
ghost use Rattle.counted_channel.specs.Channel.{IsEndOf};
ghost use Rattle.law_parties.specs.Doings.{takes};
ghost use Rattle.app_threads.specs.Counts.{EachSumFits, AreSums};
ghost use Rattle.app_threads.specs.Works.{IsWorkOf, IsRoleOf, IsRoleDone, PartsRole, TakesNothing, TookNothing, ends_share, ends_taken};
ghost use Rattle.app_threads.specs.declared.ends.Role.TheVariants as role;

use crate::counts::{add, count, none_counted};
use crate::crew::{Plan, WorkResult};
use concurrent_queue::Party;
use counted_channel::{Channel, Receiver, Sender};
use mem_blocks::null_testable::NullTestable;
use queue_crew::crew::{Crew, Parting, run};
use std::alloc::{AllocError, Allocator, Global};
use std::sync::Wait;
use std::sync::atomic::{AtomicBool, Ordering};
use std::thread::Threads;

/// The role of a thread: what it has to do, with the end that it does it by.
#[derive(Drop)]
enum Role {
    /// Sends the numbers from 0 up to that of the items, which is left out.
    Send(Sender<u64>),
    /// Receives until nobody sends any more, and counts.
    Receive(Receiver<u64>),
}

/// What the calling thread keeps: an end of each side, and a count for each value.
#[derive(Drop)]
struct KeptEnds {
    sender: Sender<u64>,
    receiver: Receiver<u64>,
    counts: Vec<u64>,
}

/// Threads that send and receive as a plan says. Each gives back the party of its end, and counts what that took: of each value no more than the plan's share.
#[derive(Drop)]
struct Passing<'a, A: Allocator> {
    channel: &'a Channel<u64, A>,
    alloc: Global,
    plan: Plan,
    /// Whether not all threads could be started. Who begins then ends at once.
    gives_up: AtomicBool,
}

impl<'a, A: NullTestable + Send + Sync> Crew for Passing<'a, A> {
    type Kept = KeptEnds;

    type Given = Role;

    type Back = WorkResult;

    type All = WorkResult;

    ghost can_part = { λ c k. IsEndOf k.sender c.channel.now × IsEndOf k.receiver c.channel.now × (k.counts.items ≡ replicate c.plan.items 0) };

    ghost can_work = { λ c g. IsRoleOf g c.channel.now };

    ghost fits = { λ c n. n * c.plan.share < 2 ^ 64 };

    ghost parted = { λ c w k g. PartsRole w.sender w.receiver k.sender k.receiver g };

    ghost worked = { λ c n g work. IsRoleDone c.channel.now c.plan.items c.plan.share g work };

    ghost came = { λ c n started made k work. IsWorkOf c.channel.now.queue c.plan.items (made * c.plan.share) (ends_taken k.sender k.receiver) (ends_share k.sender k.receiver) work
        × (length work.counts.items ≡ c.plan.items) };

    ghost is_least = { λ c k. ⊤ };

    fn part(&self, number: u64, kept: KeptEnds) -> Result<(KeptEnds, Role), WorkResult> {
        let KeptEnds {
            sender,
            receiver,
            counts,
        } = kept;
        match part(self.channel, sender, receiver, self.plan, number) {
            Err((sender, receiver)) => {
                Err(end_both(self.channel, sender, receiver, counts, false))
            }
            Ok((sender, receiver, role)) => {
                let kept = KeptEnds {
                    sender,
                    receiver,
                    counts,
                };
                Ok((kept, role))
            }
        }
    }

    /// Does what the role asks, or nothing where the crew gives up. Ends the end in any case.
    fn work<R: Wait>(&self, rt: &R, _number: u64, given: Role) -> WorkResult {
        if self.gives_up.load(Ordering::SeqCst) {
            return end_at_once(self.alloc, self.channel, given, self.plan);
        }
        match given {
            Role::Send(sender) => send_all(rt, self.alloc, self.channel, sender, self.plan),
            Role::Receive(receiver) => {
                receive_all(rt, self.alloc, self.channel, receiver, self.plan)
            }
        }
    }

    fn end(&self, _number: u64, kept: KeptEnds, all_started: bool) -> WorkResult {
        let KeptEnds {
            sender,
            receiver,
            counts,
        } = kept;
        if !all_started {
            self.gives_up.store(true, Ordering::SeqCst);
        }
        end_both(self.channel, sender, receiver, counts, all_started)
    }

    fn join(
        &self,
        _number: u64,
        _all_started: bool,
        made: u64,
        parting: Parting<KeptEnds, Role>,
        all: WorkResult,
        back: WorkResult,
    ) -> WorkResult
        requires parted { PartsRole parting.whole.value.sender parting.whole.value.receiver parting.kept.value.sender parting.kept.value.receiver parting.given.value }
        requires came { IsWorkOf self.now.channel.now.queue self.now.plan.items (made * self.now.plan.share) (ends_taken parting.kept.value.sender parting.kept.value.receiver)
            (ends_share parting.kept.value.sender parting.kept.value.receiver) all × (length all.counts.items ≡ self.now.plan.items) }
        requires worked { IsRoleDone self.now.channel.now self.now.plan.items self.now.plan.share parting.given.value back }
        requires fits { (made + 1) * self.now.plan.share < 2 ^ 64 }
        ensures { IsWorkOf self.now.channel.now.queue self.now.plan.items ((made + 1) * self.now.plan.share) (ends_taken parting.whole.value.sender parting.whole.value.receiver)
            (ends_share parting.whole.value.sender parting.whole.value.receiver) result × (length result.counts.items ≡ self.now.plan.items) }
    {
        both(self.channel, all, back)
    }
}

/// Runs all threads of a plan, joins them, and adds up what they counted. Each receives no more often than its share, which is to be one more than is sent.
///
/// Where one cannot be started its end is ended at once, as are those of the threads that have not begun.
///
/// # Errors
///
/// The allocator refused the counts. No thread was started.
pub fn run_all<R: Threads + Wait + Sync, A: NullTestable + Send + Sync>(
    rt: &R,
    alloc: Global,
    channel: &Channel<u64, A>,
    sender: Sender<u64>,
    receiver: Receiver<u64>,
    plan: Plan,
) -> Result<WorkResult, AllocError>
    requires of { IsEndOf sender channel.now × IsEndOf receiver channel.now }
    requires few { (plan.pushers + plan.poppers) * plan.share < 2 ^ 64 }
    requires threads { plan.pushers + plan.poppers < 2 ^ 64 }
    ensures { IfOk result (λ work. IsWorkOf channel.now.queue plan.items ((plan.pushers + plan.poppers) * plan.share) (ends_taken sender receiver) (ends_share sender receiver) work
        × (length work.counts.items ≡ plan.items)) }
{
    let counts = none_counted(alloc, plan.items)?;
    let crew = Passing {
        channel,
        alloc,
        plan,
        gives_up: AtomicBool::new(false),
    };
    let ends = KeptEnds {
        sender,
        receiver,
        counts,
    };
    let ran = run(rt, &crew, ends, plan.pushers + plan.poppers, plan.limit);
    Ok(ran.all)
}

/// Parts the end of the side that the thread of this number belongs to: the senders come first. Gives both ends back where that has too many.
fn part<A: Allocator>(
    channel: &Channel<u64, A>,
    sender: Sender<u64>,
    receiver: Receiver<u64>,
    plan: Plan,
    number: u64,
) -> Result<(Sender<u64>, Receiver<u64>, Role), (Sender<u64>, Receiver<u64>)>
    requires { IsEndOf sender channel.now × IsEndOf receiver channel.now }
    ensures of { MatchResult result
        (λ r. IsEndOf r.0 channel.now × IsEndOf r.1 channel.now × IsRoleOf r.2 channel.now)
        (λ r. IsEndOf r.0 channel.now × IsEndOf r.1 channel.now) }
    ensures parts { MatchResult result (λ r. PartsRole sender receiver r.0 r.1 r.2) (λ r. TakesNothing sender receiver r.0 r.1) }
{
    sender.show_view();
    receiver.show_view();
    if number < plan.pushers {
        match channel.split_sender(sender) {
            Ok((kept, given)) => Ok((kept, receiver, Role::Send(given))),
            Err(sender) => Err((sender, receiver)),
        }
    } else {
        match channel.split_receiver(receiver) {
            Ok((kept, given)) => Ok((sender, kept, Role::Receive(given))),
            Err(receiver) => Err((sender, receiver)),
        }
    }
}

/// Ends both ends, whose parties become one.
fn end_both<A: Allocator>(
    channel: &Channel<u64, A>,
    sender: Sender<u64>,
    receiver: Receiver<u64>,
    counts: Vec<u64>,
    done: bool,
) -> WorkResult
    requires { IsEndOf sender channel.now × IsEndOf receiver channel.now }
    ensures of { IsPartyOf result.party channel.now.queue }
    ensures taken { (x : ℕ) → takes x result.party.view ≡ ends_taken sender receiver x }
    ensures share { result.party.view.share ≡ ends_share sender receiver }
    ensures same { (result.counts.items ≡ counts.items) × (result.done ≡ done) }
{
    let first = end_sending(channel, sender);
    let second = end_receiving(channel, receiver);
    first.show_view();
    second.show_view();
    WorkResult {
        party: channel.join(first, second),
        counts,
        done,
    }
}

/// Ends a sender, and gives back its party.
fn end_sending<A: Allocator>(channel: &Channel<u64, A>, sender: Sender<u64>) -> Party<u64>
    requires { IsEndOf sender channel.now }
    ensures { TookNothing sender.party result }
{
    sender.show_view();
    let (party, _) = channel.end_sender(sender);
    party
}

/// Ends a receiver, and gives back its party.
fn end_receiving<A: Allocator>(channel: &Channel<u64, A>, receiver: Receiver<u64>) -> Party<u64>
    requires { IsEndOf receiver channel.now }
    ensures { TookNothing receiver.party result }
{
    receiver.show_view();
    let (party, _) = channel.end_receiver(receiver);
    party
}

/// The work of both, whose parties become one.
fn both<A: Allocator>(channel: &Channel<u64, A>, ours: WorkResult, theirs: WorkResult) -> WorkResult
    requires of { IsPartyOf ours.party channel.now.queue × IsPartyOf theirs.party channel.now.queue }
    requires fits { EachSumFits ours.counts.items theirs.counts.items }
    ensures views { IsView ours.party.queue.cap ours.party.view × IsView theirs.party.queue.cap theirs.party.view }
    ensures joined { Joins ours.party theirs.party result.party }
    ensures sums { AreSums ours.counts.items theirs.counts.items result.counts.items }
    ensures done { result.done ≡ (ours.done && theirs.done) }
{
    ours.party.show_view();
    theirs.party.show_view();
    let WorkResult {
        party,
        mut counts,
        done,
    } = ours;
    add(&mut counts, &theirs.counts);
    WorkResult {
        party: channel.join(party, theirs.party),
        counts,
        done: done && theirs.done,
    }
}

/// Ends the end of a role of which nothing is done.
fn end_at_once<A: Allocator>(
    alloc: Global,
    channel: &Channel<u64, A>,
    role: Role,
    plan: Plan,
) -> WorkResult
    requires { IsRoleOf role channel.now }
    ensures { IsRoleDone channel.now plan.items plan.share role result }
{
    match role {
        Role::Send(sender) => idle(alloc, end_sending(channel, sender)),
        Role::Receive(receiver) => idle(alloc, end_receiving(channel, receiver)),
    }
}

/// The work of which nothing was done.
fn idle(alloc: Global, party: Party<u64>) -> WorkResult
    ensures { (result.party ≡ party) × (result.counts.items ≡ []) × (result.done ≡ false) }
{
    WorkResult {
        party,
        counts: Vec::new(alloc),
        done: false,
    }
}

/// Sends all values, and ends the sender.
fn send_all<R: Wait, A: NullTestable>(
    rt: &R,
    alloc: Global,
    channel: &Channel<u64, A>,
    mut sender: Sender<u64>,
    plan: Plan,
) -> WorkResult
    requires { IsEndOf sender channel.now }
    ensures { IsRoleDone channel.now plan.items plan.share (role.Send sender) result }
{
    let done = send_values(rt, channel, &mut sender, plan.items);
    WorkResult {
        party: end_sending(channel, sender),
        counts: Vec::new(alloc),
        done,
    }
}

/// Sends the numbers from 0 up to `items`, which is left out. Gives false where one could not be sent; those behind it were not tried.
fn send_values<R: Wait, A: NullTestable>(
    rt: &R,
    channel: &Channel<u64, A>,
    sender: &mut Sender<u64>,
    items: u64,
) -> bool
    requires { IsEndOf sender.old channel.now }
    ensures { (sender.new.counts ≡ sender.old.counts) × TookNothing sender.old.party sender.new.party }
{
    for value in 0..items {
        sender.show_view();
        if channel.send(rt, sender, value).is_err() {
            return false;
        }
    }
    true
}

/// Receives and counts until nobody sends any more, and ends the receiver.
fn receive_all<R: Wait, A: Allocator>(
    rt: &R,
    alloc: Global,
    channel: &Channel<u64, A>,
    mut receiver: Receiver<u64>,
    plan: Plan,
) -> WorkResult
    requires { IsEndOf receiver channel.now }
    ensures { IsRoleDone channel.now plan.items plan.share (role.Receive receiver) result }
{
    let Ok(mut counts) = none_counted(alloc, plan.items) else {
        return end_at_once(alloc, channel, Role::Receive(receiver), plan);
    };
    receive_values(rt, channel, &mut receiver, &mut counts, plan);
    WorkResult {
        party: end_receiving(channel, receiver),
        counts,
        done: true,
    }
}

/// Receives and counts until nobody sends any more, no more often than the plan's share says.
fn receive_values<R: Wait, A: Allocator>(
    rt: &R,
    channel: &Channel<u64, A>,
    receiver: &mut Receiver<u64>,
    counts: &mut Vec<u64>,
    plan: Plan,
)
    requires of { IsEndOf receiver.old channel.now }
    requires none { counts.old.items ≡ replicate plan.items 0 }
    ensures end { receiver.new.counts ≡ receiver.old.counts }
    ensures received { IsWorkOf channel.now.queue plan.items plan.share (λ x. takes x receiver.old.party.view) receiver.old.party.view.share (record { party = receiver.new.party; counts = counts.new; done = true }) }
{
    for _ in 0..plan.share {
        receiver.show_view();
        let Ok(value) = channel.recv(rt, receiver) else {
            return;
        };
        count(counts, value);
    }
}
