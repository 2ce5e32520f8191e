//! The mode `handshake`: two threads that hand an item to each other.
ghost use Rattle.std.specs.Prelude.{◌≡◌, ◌<◌, ◌&&◌, true, IfOk, MatchResult};
ghost use Rattle.std.specs.Io.KnownBytes.{Appends};
ghost use Rattle.concurrent_queue.specs.Shared.{IsPartyOf};
ghost use Rattle.law_parties.specs.Doings.{takes, SawClosed};
ghost use Rattle.app_threads.specs.Meetings.{Handshake, IsHandshakeText, HandsJoined, HandsMet, handshake_text, met_verdict, AreHandsOf, AreHalves, AreThreeParts, Unites, IsShaken, IsMeeting};
ghost use Rattle.app_threads.specs.Verdicts.{IsOutputFault};
ghost use denote.Param.Send.{IsSync};

use crate::crew::Queue;
use crate::limit::Limit;
use crate::sharing::{EndedQueue, Ran, Sharing};
use crate::verdict::Verdict;
use app_text::faults::Fault;
use app_text::streams::write_output;
use concurrent_queue::{Party, PopError};
use std::alloc::{AllocError, Global};
use std::io::Write;
use std::snapshot::Snapshot;
use std::sync::Wait;
use std::thread;
use std::thread::{Promise, Scope, Threads, yield_now};

/// How often a thread tries to pop.
const MOST_TRIES: u64 = 1_000_000;

/// Lets two threads hand an item to each other through two queues of one slot, and writes whether both got one. Hands both queues on, each with the
/// party that all of its have become.
///
/// It ends in `NoMemory`, also where a thread cannot be started, and in `OutputFailed`, where a beginning of the output may be
/// written.
pub fn handshake<R: Threads + Wait + Sync, O: Write>(
    rt: &R,
    alloc: Global,
    limit: Limit,
    output: &mut O,
) -> Ran
    ensures { MatchResult result.end
        (Handshake result.sharing (O.contents output.old) (O.contents output.new))
        (IsOutputFault (IsHandshakeText result.sharing) (O.contents output.old) (O.contents output.new)) }
{
    match shake_hands(rt, alloc, limit) {
        Ok((sharing, met)) => Ran {
            end: write_met(met, output),
            sharing,
        },
        Err(_) => Ran {
            end: Err(Fault::NoMemory),
            sharing: Sharing::Nothing,
        },
    }
}

// Writes whether both threads got an item.
fn write_met<O: Write>(met: bool, output: &mut O) -> Result<Verdict, Fault>
    ensures { MatchResult result
        (λ shown. (shown ≡ met_verdict met) × Appends (O.contents output.old) (O.contents output.new) (handshake_text shown))
        (IsOutputFault (λ text. text ≡ handshake_text (met_verdict met)) (O.contents output.old) (O.contents output.new)) }
{
    if met {
        write_output(output, b"both\n")?;
        Ok(Verdict::Right)
    } else {
        write_output(output, b"alone\n")?;
        Ok(Verdict::Wrong)
    }
}

// A party of the queue that a thread sends by, and one of the queue that it takes from.
#[derive(Drop)]
struct Hands {
    sends: Party<u64>,
    takes: Party<u64>,
}

// What came of a thread's part, or of both: the parties, and whether the item came.
#[derive(Drop)]
struct Shaken {
    hands: Hands,
    came: bool,
}

// A thread gives its parties of these queues back. Where its item came, one of them took it.
#[derive(Drop)]
struct Shakes<'a> {
    sends: &'a Queue,
    takes: &'a Queue,
    given: Snapshot<Hands>,
    item: u64,
}

impl<'a> Promise<Shaken> for Shakes<'a> {
    ghost kept_by = { λ p shaken. IsShaken p.sends.now p.takes.now p.item p.given.value shaken };
}

// Both queues, with all parties joined, and whether both threads got the other's item.
fn shake_hands<R: Threads + Wait + Sync>(
    rt: &R,
    alloc: Global,
    limit: Limit,
) -> Result<(Sharing, bool), AllocError>
    ensures joined { IfOk result (λ r. HandsJoined r.0) }
    ensures met { IfOk result (λ r. r.1 ≡ true → HandsMet r.0) }
{
    let (there, party_there) = Queue::bounded(alloc, 1)?;
    let (back, party_back) = Queue::bounded(alloc, 1)?;
    let kept = Hands {
        sends: party_there,
        takes: party_back,
    };
    let (kept, first) = part(&there, &back, kept)?;
    let (kept, second) = part(&there, &back, kept)?;
    let shaken = thread::scope(
        thread::scope_env(),
        rt,
        |scope| -> Result<Shaken, Hands>
            requires { IsSync R.row × AreHandsOf kept there back × AreHandsOf first there back × AreHandsOf second there back × AreThreeParts kept first second }
            ensures { MatchResult result (IsMeeting there back) (λ hands. SawClosed hands.sends × SawClosed hands.takes) }
        { start_both(rt, scope, limit, &there, &back, kept, first, second) },
    );
    let Ok(Shaken { hands, came }) = shaken else {
        return Err(AllocError);
    };
    hands.sends.show_view();
    hands.takes.show_view();
    let there = EndedQueue {
        queue: there,
        party: hands.sends,
    };
    let back = EndedQueue {
        queue: back,
        party: hands.takes,
    };
    Ok((Sharing::Met(there, back), came))
}

// Parts the parties of both queues.
fn part(there: &Queue, back: &Queue, hands: Hands) -> Result<(Hands, Hands), AllocError>
    requires { AreHandsOf hands there.now back.now }
    ensures of { IfOk result (λ r. AreHandsOf r.0 there.now back.now × AreHandsOf r.1 there.now back.now) }
    ensures halves { IfOk result (λ r. AreHalves hands r.0 × AreHalves hands r.1) }
{
    let Hands { sends, takes } = hands;
    let Ok((kept_sends, given_sends)) = there.split(sends) else {
        return Err(AllocError);
    };
    let Ok((kept_takes, given_takes)) = back.split(takes) else {
        return Err(AllocError);
    };
    let kept = Hands {
        sends: kept_sends,
        takes: kept_takes,
    };
    let given = Hands {
        sends: given_sends,
        takes: given_takes,
    };
    Ok((kept, given))
}

// Starts both threads, and tells whether both got the other's item. Where one cannot be started the queues are closed, and the parties handed back.
fn start_both<'s, E, R: Threads + Wait + Sync>(
    rt: &'s R,
    scope: &Scope<'s, E>,
    limit: Limit,
    there: &'s Queue,
    back: &'s Queue,
    mut kept: Hands,
    first: Hands,
    second: Hands,
) -> Result<Shaken, Hands>
    requires kept { AreHandsOf kept there.now back.now }
    requires first { AreHandsOf first there.now back.now }
    requires second { AreHandsOf second there.now back.now }
    requires parts { AreThreeParts kept first second }
    ensures { MatchResult result (IsMeeting there.now back.now) (λ hands. SawClosed hands.sends × SawClosed hands.takes) }
{
    let second = Hands {
        sends: second.takes,
        takes: second.sends,
    };
    let offers = Shakes {
        sends: there,
        takes: back,
        given: Snapshot::of(&first),
        item: 2,
    };
    let replies = Shakes {
        sends: back,
        takes: there,
        given: Snapshot::of(&second),
        item: 1,
    };
    let opener = limit.start(
        0,
        scope,
        offers,
        move || -> Shaken
            requires { IsSync R.row × AreHandsOf first there.now back.now }
            ensures { IsShaken there.entry.now back.entry.now 2 first result }
        { offer(rt, there, back, first) },
    );
    let other = limit.start(
        1,
        scope,
        replies,
        move || -> Shaken
            requires { IsSync R.row × AreHandsOf second back.now there.now }
            ensures { IsShaken back.entry.now there.entry.now 1 second result }
        { reply(rt, back, there, second) },
    );
    if let (Ok(opener), Ok(other)) = (opener, other) {
        return Ok(both(there, back, kept, opener.join(rt), other.join(rt)));
    }
    kept.sends.show_view();
    there.close(&mut kept.sends);
    kept.takes.show_view();
    back.close(&mut kept.takes);
    Err(kept)
}

// Makes one pair of parties of the three, and tells whether both items came.
fn both(there: &Queue, back: &Queue, kept: Hands, offered: Shaken, replied: Shaken) -> Shaken
    requires kept { AreHandsOf kept there.now back.now }
    requires offered { AreHandsOf offered.hands there.now back.now }
    requires replied { AreHandsOf replied.hands back.now there.now }
    ensures of { AreHandsOf result.hands there.now back.now }
    ensures came { result.came ≡ (offered.came && replied.came) }
    ensures sends { Unites kept.sends offered.hands.sends replied.hands.takes result.hands.sends }
    ensures takes { Unites kept.takes offered.hands.takes replied.hands.sends result.hands.takes }
{
    let came = offered.came && replied.came;
    let hands = Hands {
        sends: unite(there, kept.sends, offered.hands.sends, replied.hands.takes),
        takes: unite(back, kept.takes, offered.hands.takes, replied.hands.sends),
    };
    Shaken { hands, came }
}

// One party that has done what these three have.
fn unite(queue: &Queue, first: Party<u64>, second: Party<u64>, third: Party<u64>) -> Party<u64>
    requires { IsPartyOf first queue.now × IsPartyOf second queue.now × IsPartyOf third queue.now }
    ensures of { IsPartyOf result queue.now }
    ensures unites { Unites first second third result }
{
    first.show_view();
    second.show_view();
    let party = queue.join(first, second);
    party.show_view();
    third.show_view();
    queue.join(party, third)
}

// Sends 1, and tells whether 2 came back.
fn offer<R: Wait>(rt: &R, there: &Queue, back: &Queue, hands: Hands) -> Shaken
    requires { AreHandsOf hands there.now back.now }
    ensures { IsShaken there.now back.now 2 hands result }
{
    let Hands {
        mut sends,
        mut takes,
    } = hands;
    let came = there.push(rt, &mut sends, 1).is_ok() && expect_item(rt, back, &mut takes, 2);
    Shaken {
        hands: Hands { sends, takes },
        came,
    }
}

// Tells whether 1 came, and sends 2 back if it did.
fn reply<R: Wait>(rt: &R, back: &Queue, there: &Queue, hands: Hands) -> Shaken
    requires { AreHandsOf hands back.now there.now }
    ensures { IsShaken back.now there.now 1 hands result }
{
    let Hands {
        mut sends,
        mut takes,
    } = hands;
    if !expect_item(rt, there, &mut takes, 1) {
        return Shaken {
            hands: Hands { sends, takes },
            came: false,
        };
    }
    let came = back.push(rt, &mut sends, 2).is_ok();
    Shaken {
        hands: Hands { sends, takes },
        came,
    }
}

// Whether the first item that comes within a number of tries is this one.
fn expect_item<R: Wait>(rt: &R, queue: &Queue, party: &mut Party<u64>, item: u64) -> bool
    requires { IsPartyOf party.old queue.now }
    ensures same { (party.new.queue ≡ party.old.queue) × (party.new.view.share ≡ party.old.view.share) }
    ensures came { result ≡ true → 0 < takes item party.new.view }
{
    for _ in 0..MOST_TRIES {
        party.show_view();
        match queue.pop(rt, party) {
            Ok(value) => return value == item,
            Err(PopError::Empty) => yield_now(),
            Err(PopError::Closed) => return false,
        }
    }
    false
}
