//! A line of a story: what a party does, and what it is answered.
ghost use Rattle.concurrent_queue.specs.Shared.{IsPartyOf};
ghost use Rattle.test_shared.specs.Outcomes.{IsOf};

use crate::asserts::is_in;
use crate::calls::{Memory, answer, begin, may_go_on, take_up};
use crate::gates::{Signs, call_waiting};
use crate::items::{Item, Items};
use crate::stories::words::{Words, call_of, force_words, pop_words, push_words, reply_words};
use call_driver::gate::Open;
use concurrent_queue::{ConcurrentQueue, Outcome};
use queue_steps::model::{Call, Reply};
use std::alloc::Global;
use std::process::Abort;
use std::sync::Wait;
use std::sync::atomic::Ordering;
use test_support::allocators::Heap;

/// The queue of a story.
pub(crate) type Queue<A> = ConcurrentQueue<Item, A>;

/// A party of it.
pub(crate) type Party = concurrent_queue::Party<Item>;

/// What a party's call has come to.
pub(crate) type Called<A> = Outcome<Item, A>;

/// What the lines of a story take, beside its queue.
#[derive(Clone, Copy)]
pub(crate) struct World<'a> {
    pub(crate) alloc: Global,
    /// The story's name, which a failure tells.
    pub(crate) name: &'a str,
    /// Where the queue's memory comes from, if it is counted.
    pub(crate) heap: &'a Heap,
    pub(crate) items: &'a Items,
    pub(crate) signs: &'a Signs,
}

/// What this line says before and after its arrow. Asserts that it has one.
pub(crate) fn sides<'a>(rt: &impl Abort, line: &'a str) -> (&'a str, &'a str) {
    line.split_once(" -> ").expect(rt, line)
}

/// A party that has made no call but that for the capacity.
pub(crate) fn seated<A: Memory>(queue: &Queue<A>, party: Party) -> Called<A>
    requires { IsPartyOf party queue.now }
    ensures { IsOf result queue.now }
{
    Outcome::Done(party, Reply::Capacity(queue.capacity()))
}

/// The party of a call. Asserts that it is not pending.
pub(crate) fn party_of<A: Memory>(rt: &impl Abort, queue: &Queue<A>, called: Called<A>) -> Party
    requires { IsOf called queue.now }
    ensures { IsPartyOf result queue.now }
{
    match called {
        Outcome::Done(party, _) => party,
        Outcome::Pending(_) => panic!(rt; "pending"),
    }
}

/// Tries a call, which never waits. Asserts of a pop that the queue has a capacity.
fn tries<A: Memory>(rt: &impl Abort, queue: &Queue<A>, party: &mut Party, call: Call<Item>) -> Words
    requires { IsPartyOf party.old queue.now }
    ensures { IsPartyOf party.new queue.now }
{
    match call {
        Call::Push(item) => push_words(queue.try_push(party, item)),
        Call::ForcePush(item) => force_words(queue.try_force_push(party, item)),
        Call::Pop => match queue.capacity() {
            Some(_) => pop_words(queue.try_pop(party)),
            None => panic!(rt; "no capacity"),
        },
        _ => panic!(rt; "no call that is tried"),
    }
}

/// Makes the call of a text; and a wait-free look again by `answer_wait_free`, which has to have the same reply.
fn makes<A: Memory, R: Wait + Abort>(
    rt: &R,
    items: &Items,
    queue: &Queue<A>,
    party: &mut Party,
    text: &str,
) -> Words
    requires { IsPartyOf party.old queue.now }
    ensures { IsPartyOf party.new queue.now }
{
    let words = reply_words(answer(rt, queue, party, call_of(rt, items, text)));
    let look = call_of(rt, items, text);
    if look.is_wait_free() && text != "close" {
        let again = reply_words(queue.answer_wait_free(&Open, party, look));
        is_in(rt, text, again, words);
    }
    words
}

/// Makes a call to its end. Asserts of one that waits while another one is held that it has its reply once that goes on.
fn ends<A: Memory, R: Wait + Abort>(
    rt: &R,
    world: World<'_>,
    queue: &Queue<A>,
    party: &mut Party,
    deed: &str,
) -> Words
    requires { IsPartyOf party.old queue.now }
    ensures { IsPartyOf party.new queue.now }
{
    if let Some(text) = deed.strip_prefix("try ") {
        return tries(rt, queue, party, call_of(rt, world.items, text));
    }
    let Some(text) = deed.strip_prefix("waits ") else {
        return makes(rt, world.items, queue, party, deed);
    };
    let call = call_of(rt, world.items, text);
    let reply = call_waiting(rt, queue, party, call, world.signs);
    is_in(
        rt,
        world.name,
        world.signs.let_go.load(Ordering::SeqCst),
        true,
    );
    reply_words(reply)
}

/// What a call has come to, and that in words.
fn come_to<A: Memory>(queue: &Queue<A>, called: Called<A>) -> (Called<A>, Words)
    requires { IsOf called queue.now }
    ensures { IsOf result.0 queue.now }
{
    match called {
        Outcome::Done(party, reply) => (seated(queue, party), reply_words(reply)),
        Outcome::Pending(pending) => (Outcome::Pending(pending), ("pending", None)),
    }
}

/// Gives a pending call up. Asserts that it is pending.
fn gives_up<A: Memory>(rt: &impl Abort, queue: &Queue<A>, called: Called<A>) -> (Called<A>, Words)
    requires { IsOf called queue.now }
    ensures { IsOf result.0 queue.now }
{
    let Outcome::Pending(pending) = called else {
        panic!(rt; "not pending")
    };
    may_go_on(rt, queue);
    let (party, value) = match queue.give_up(pending) {
        Ok(both) => both,
        Err(pending) => return (Outcome::Pending(pending), ("too late", None)),
    };
    let words = match value {
        Some(item) => ("given up ", Some(item.number)),
        None => ("given up", None),
    };
    (seated(queue, party), words)
}

/// Does what a line says of a party.
fn does<A: Memory, R: Wait + Abort>(
    rt: &R,
    world: World<'_>,
    queue: &Queue<A>,
    called: Called<A>,
    deed: &str,
) -> (Called<A>, Words)
    requires { IsOf called queue.now }
    ensures { IsOf result.0 queue.now }
{
    if deed == "resume" {
        return come_to(queue, take_up(rt, queue, called));
    }
    if deed == "give_up" {
        return gives_up(rt, queue, called);
    }
    let mut party = party_of(rt, queue, called);
    if let Some(text) = deed.strip_prefix("begin ") {
        return come_to(queue, begin(queue, party, call_of(rt, world.items, text)));
    }
    let words = ends(rt, world, queue, &mut party, deed);
    (seated(queue, party), words)
}

/// Asserts that this is answered at a line.
pub(crate) fn is_said(rt: &impl Abort, world: World<'_>, line: &str, words: Words) {
    let said = match words {
        (words, None) => String::from_str(world.alloc, words),
        (words, Some(number)) => format!(in world.alloc; "{words}{number}"),
    };
    let (_, wanted) = sides(rt, line);
    is_in(
        rt,
        (world.name, line),
        said.expect(rt, "memory").as_str(),
        wanted,
    );
}

/// Does what a line says of a party, and asserts what it is answered.
pub(crate) fn follow<A: Memory, R: Wait + Abort>(
    rt: &R,
    world: World<'_>,
    queue: &Queue<A>,
    called: Called<A>,
    line: &str,
) -> Called<A>
    requires { IsOf called queue.now }
    ensures { IsOf result queue.now }
{
    let (deed, _) = sides(rt, line);
    let (called, words) = does(rt, world, queue, called, deed);
    is_said(rt, world, line, words);
    called
}

/// Asserts how many items and allocations there are.
pub(crate) fn are(rt: &impl Abort, world: World<'_>, wanted: &str) {
    let items = world.items.alive();
    let allocations = world.heap.live();
    let found = format!(in world.alloc; "items {items}, allocations {allocations}");
    is_in(rt, world.name, found.expect(rt, "memory").as_str(), wanted);
}
