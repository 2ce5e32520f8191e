//! Stories, told from their first line to their last.
ghost use Rattle.std.specs.Prelude.{IfSome};
ghost use Rattle.concurrent_queue.specs.Shared.{IsPartyOf};
ghost use Rattle.test_shared.specs.Outcomes.{IsOf};
ghost use denote.Param.Send.{IsSync};

use crate::asserts::{is, is_in};
use crate::calls::Memory;
use crate::gates::{Holding, Signs, call_held};
use crate::items::{Item, Items};
use crate::opening::{open_surely, part};
use crate::stories::lines::{
    Called, Party, Queue, World, are, follow, is_said, party_of, seated, sides,
};
use crate::stories::words::{call_of, reply_words};
use app_text::args::{KindName, parse_kind};
use concurrent_queue::Exclusive;
use queue_steps::model::{Call, Reply};
use std::alloc::Global;
use std::process::Abort;
use std::sync::Wait;
use std::sync::atomic::Ordering;
use std::thread::{Threads, join};
use test_support::allocators::{Heap, Refusal};
use test_support::signs::wait_for;

/// A, and B once there are two.
type Cast<A> = (Called<A>, Option<Called<A>>);

/// Both parties between two calls.
type Pair = (Party, Option<Party>);

/// B, where it is there, between two calls.
fn other<A: Memory>(rt: &impl Abort, queue: &Queue<A>, b: Option<Called<A>>) -> Option<Party>
    requires { IfSome b (λ o. IsOf o queue.now) }
    ensures { IfSome result (λ p. IsPartyOf p queue.now) }
{
    match b {
        Some(called) => Some(party_of(rt, queue, called)),
        None => None,
    }
}

/// The parties after they have split, met or joined.
fn between<A: Memory>(rt: &impl Abort, queue: &Queue<A>, cast: Cast<A>, line: &str) -> Cast<A>
    requires { IsOf cast.0 queue.now × IfSome cast.1 (λ o. IsOf o queue.now) }
    ensures { IsOf result.0 queue.now × IfSome result.1 (λ o. IsOf o queue.now) }
{
    let (a, b) = cast;
    let mut first = party_of(rt, queue, a);
    if line == "split" {
        let (first, second) = part(rt, queue, first);
        return (seated(queue, first), Some(seated(queue, second)));
    }
    let mut second = other(rt, queue, b).expect(rt, line);
    if line == "join" {
        return (seated(queue, queue.join(first, second)), None);
    }
    queue.meet(&mut first, &mut second);
    (seated(queue, first), Some(seated(queue, second)))
}

/// Lets the held call go on to its end. Asserts that it ends.
fn goes_on(rt: &impl Abort, world: World<'_>) {
    world.signs.met.store(true, Ordering::SeqCst);
    is_in(rt, world.name, wait_for(&world.signs.ended), true);
}

/// B after a line that is not A's.
fn other_after<A: Memory, R: Wait + Abort>(
    rt: &R,
    world: World<'_>,
    queue: &Queue<A>,
    b: Option<Called<A>>,
    line: &str,
) -> Option<Called<A>>
    requires { IfSome b (λ o. IsOf o queue.now) }
    ensures { IfSome result (λ o. IsOf o queue.now) }
{
    if line == "drop" {
        return None;
    }
    if line == "go" {
        goes_on(rt, world);
        return b;
    }
    if let Some(wanted) = line.strip_prefix("count -> ") {
        are(rt, world, wanted);
        return b;
    }
    let called = b.expect(rt, line);
    let said = line.strip_prefix("B ").expect(rt, line);
    Some(follow(rt, world, queue, called, said))
}

/// The parties after a line.
fn both_after<A: Memory, R: Wait + Abort>(
    rt: &R,
    world: World<'_>,
    queue: &Queue<A>,
    cast: Cast<A>,
    line: &str,
) -> Cast<A>
    requires { IsOf cast.0 queue.now × IfSome cast.1 (λ o. IsOf o queue.now) }
    ensures { IsOf result.0 queue.now × IfSome result.1 (λ o. IsOf o queue.now) }
{
    if line == "split" || line == "meet" || line == "join" {
        return between(rt, queue, cast, line);
    }
    let (a, b) = cast;
    match line.strip_prefix("A ") {
        Some(said) => (follow(rt, world, queue, a, said), b),
        None => (a, other_after(rt, world, queue, b, line)),
    }
}

/// The parties after these lines, in which no call is held.
fn both_told<A: Memory, R: Wait + Abort>(
    rt: &R,
    world: World<'_>,
    queue: &Queue<A>,
    party: Party,
    lines: &str,
) -> Pair
    requires { IsPartyOf party queue.now }
    ensures { IsPartyOf result.0 queue.now × IfSome result.1 (λ p. IsPartyOf p queue.now) }
{
    let mut cast: Cast<A> = (seated(queue, party), None);
    for line in lines.lines() {
        cast = both_after(rt, world, queue, cast, line);
    }
    let (a, b) = cast;
    (party_of(rt, queue, a), other(rt, queue, b))
}

/// B after these lines. They begin once A's call is held, or before it, if that is to come when B has asked for a block.
fn other_told<A: Memory, R: Wait + Abort>(
    rt: &R,
    world: World<'_>,
    queue: &Queue<A>,
    party: Party,
    lines: &str,
    at_once: bool,
) -> Option<Party>
    requires { IsPartyOf party queue.now }
    ensures { IfSome result (λ p. IsPartyOf p queue.now) }
{
    if !at_once {
        wait_for(&world.signs.held);
    }
    let mut b = Some(seated(queue, party));
    for line in lines.lines() {
        b = other_after(rt, world, queue, b, line);
    }
    world.signs.met.store(true, Ordering::SeqCst);
    other(rt, queue, b)
}

/// The text of the call that is held.
fn call_in(deed: &str) -> &str {
    let (deed, _) = deed.split_once(" once asked").unwrap_or((deed, ""));
    let (call, _) = deed.split_once(" at ").unwrap_or((deed, ""));
    call
}

/// The gate of a call that is held: its step, if there is one, and whether it is to begin once B has asked for a block, whose request is held then.
fn gate_of<'a>(world: World<'a>, deed: &'a str) -> Holding<'a> {
    let once_asked = deed.ends_with(" once asked");
    if once_asked {
        world.heap.hold_next();
    }
    let (deed, _) = deed.split_once(" once asked").unwrap_or((deed, ""));
    let (_, step) = deed.split_once(" at ").unwrap_or((deed, ""));
    Holding {
        step,
        once_asked,
        signs: world.signs,
        heap: world.heap,
    }
}

/// Makes the call that is held at this gate, and lets B follow these lines. Gives all parties as one, and what the call is answered.
fn make_both<A: Memory + Send + Sync, R: Wait + Threads + Sync + Abort>(
    rt: &R,
    world: World<'_>,
    queue: &Queue<A>,
    first: Party,
    second: Party,
    call: Call<Item>,
    gate: &Holding<'_>,
    lines: &str,
) -> (Party, Reply<Item>)
    requires { IsPartyOf first queue.now × IsPartyOf second queue.now }
    ensures { IsPartyOf result.0 queue.now }
{
    // Each closure takes references alone: what it promises is not known where it has a value of another lifetime.
    let World {
        alloc,
        name,
        heap,
        items,
        signs,
    } = world;
    let (step, once_asked) = (gate.step, gate.once_asked);
    let ((first, reply), second) = join(
        rt,
        || -> (Party, Reply<Item>)
            requires { IsSync R.row × IsPartyOf first queue.now }
            ensures { IsPartyOf result.0 queue.entry.now }
        {
            let gate = Holding {
                step,
                once_asked,
                signs,
                heap,
            };
            call_held(rt, queue, first, call, &gate)
        },
        || -> Option<Party>
            requires { IsSync R.row × IsPartyOf second queue.now }
            ensures { IfSome result (λ p. IsPartyOf p queue.entry.now) }
        {
            let world = World {
                alloc,
                name,
                heap,
                items,
                signs,
            };
            other_told(rt, world, queue, second, lines, once_asked)
        },
    );
    match second {
        Some(second) => (queue.join(first, second), reply),
        None => (first, reply),
    }
}

/// All parties as one, after a call of A that is held, as the first line says, and the others, which are B's. Asserts what the call is answered, that it was held and let go where it has to be, and that B's request was.
fn held_told<A: Memory + Send + Sync, R: Wait + Threads + Sync + Abort>(
    rt: &R,
    world: World<'_>,
    queue: &Queue<A>,
    party: Party,
    line: &str,
    lines: &str,
) -> Party
    requires { IsPartyOf party queue.now }
    ensures { IsPartyOf result queue.now }
{
    let (deed, _) = sides(rt, line);
    let gate = gate_of(world, deed);
    let call = call_of(rt, world.items, call_in(deed));
    let (first, second) = part(rt, queue, party);
    let (whole, reply) = make_both(rt, world, queue, first, second, call, &gate, lines);
    let let_go = world.signs.let_go.load(Ordering::SeqCst);
    let seen = (let_go, world.heap.held_until_let_go());
    is_in(
        rt,
        world.name,
        seen,
        (!gate.step.is_empty(), gate.once_asked),
    );
    is_said(rt, world, line, reply_words(reply));
    whole
}

/// A number of these digits. Asserts that it is one.
fn number_of(rt: &impl Abort, digits: &str) -> u64 {
    digits.parse().expect(rt, "a number")
}

/// Asserts which items are in a queue that is no longer shared, in their order, and whether it is closed.
fn is_left<A: Memory>(
    rt: &impl Abort,
    world: World<'_>,
    mut alone: Exclusive<Item, A>,
    line: &str,
) {
    let (numbers, end) = line.rsplit_once(" ").expect(rt, line);
    for word in numbers.split_whitespace().skip(1) {
        let (first, last) = word.split_once("..").unwrap_or((word, word));
        for number in number_of(rt, first)..=number_of(rt, last) {
            let found = match alone.pop() {
                Ok(item) => Some(item.number),
                Err(_) => None,
            };
            is_in(rt, (world.name, line), found, Some(number));
        }
    }
    let found = if alone.is_closed() { "closed" } else { "open" };
    is_in(rt, (world.name, line), (alone.len(), found), (0, end));
}

/// Ends the sharing by this party. Asserts what is left, or that it does not end.
fn ends<A: Memory>(rt: &impl Abort, world: World<'_>, queue: Queue<A>, party: Party, line: &str)
    requires { IsPartyOf party queue }
{
    match queue.finish(party) {
        Ok(alone) => is_left(rt, world, alone, line),
        Err(_) => is_in(rt, world.name, "shared", line),
    }
}

/// Ends the sharing, of two parties once they are joined. Asserts of two that it does not end before.
fn all_end<A: Memory>(rt: &impl Abort, world: World<'_>, queue: Queue<A>, pair: Pair, line: &str)
    requires { IsPartyOf pair.0 queue × IfSome pair.1 (λ p. IsPartyOf p queue) }
{
    let (first, other) = pair;
    let Some(second) = other else {
        return ends(rt, world, queue, first, line);
    };
    match queue.finish(first) {
        Ok(_) => panic!(rt; "finished with a party missing"),
        Err((queue, first)) => {
            let whole = queue.join(first, second);
            ends(rt, world, queue, whole, line);
        }
    }
}

/// Pushes the items 1 to so many. Asserts that each is accepted.
fn fill<A: Memory, R: Wait + Abort>(
    rt: &R,
    items: &Items,
    queue: &Queue<A>,
    party: &mut Party,
    count: u64,
)
    requires { IsPartyOf party.old queue.now }
    ensures { IsPartyOf party.new queue.now }
{
    for before in 0..count {
        let item = items.item(rt, before.wrapping_add(1));
        is(rt, queue.push(rt, party, item).is_ok(), true);
    }
}

/// Tells a story of a queue of this capacity, or without one, in this memory. Asserts what each line says.
fn tell<A: Memory + Send + Sync, R: Wait + Threads + Sync + Abort>(
    rt: &R,
    world: World<'_>,
    memory: A,
    cap: Option<usize>,
    pushed: u64,
    text: &str,
) {
    let (queue, mut party) = open_surely(rt, memory, cap);
    fill(rt, world.items, &queue, &mut party, pushed);
    let (lines, last) = text.rsplit_once("\n").expect(rt, "a last line");
    let (last, lost) = last
        .split_once("; ")
        .unwrap_or((last, "items 0, allocations 0"));
    let pair = match lines.strip_prefix("hold A ") {
        Some(held) => {
            let (line, lines) = held.split_once("\n").expect(rt, "lines of B");
            (held_told(rt, world, &queue, party, line, lines), None)
        }
        None => both_told(rt, world, &queue, party, lines),
    };
    all_end(rt, world, queue, pair, last);
    are(rt, world, lost);
}

/// The number behind these words of a first line. It is 0 where they are not there.
fn number_behind(rt: &impl Abort, words: &str, head: &str) -> u64 {
    let Some((_, rest)) = head.split_once(words) else {
        return 0;
    };
    let (digits, _) = rest.split_once(";").unwrap_or((rest, ""));
    number_of(rt, digits)
}

/// The capacity of a kind of queue, if it has one. Asserts that the word names one.
fn cap_of(rt: &impl Abort, word: &str) -> Option<usize> {
    match parse_kind(word) {
        Some(KindName::Single) => Some(1),
        Some(KindName::Bounded(cap)) => Some(cap),
        Some(KindName::Unbounded) => None,
        None => panic!(rt; "no kind of queue: {word}"),
    }
}

/// Tells a story of each of its kinds of queue. Asserts what each line says, and that nothing stays behind but what the last one says.
fn tell_of_each_kind<R: Wait + Threads + Sync + Abort>(rt: &R, alloc: Global, story: &str) {
    let (head, text) = story.split_once("\n").expect(rt, "a first line");
    let (name, words) = head.split_once(": ").expect(rt, "kinds of queues");
    let (kinds, _) = words.split_once(";").unwrap_or((words, ""));
    let pushed = number_behind(rt, "; with ", head);
    let refused = number_behind(rt, "; refusing ", head);
    for kind in kinds.split_whitespace() {
        let cap = cap_of(rt, kind);
        let heap = Heap::new(alloc, Refusal::Nth(refused));
        let items = Items::none(rt, alloc);
        let signs = Signs::new();
        let world = World {
            alloc,
            name,
            heap: &heap,
            items: &items,
            signs: &signs,
        };
        if head.ends_with("; uncounted") {
            tell(rt, world, alloc, cap, pushed, text);
        } else {
            tell(rt, world, &heap, cap, pushed, text);
        }
    }
}

/// Tells each of these stories, between which are empty lines.
pub(crate) fn tell_each<R: Wait + Threads + Sync + Abort>(rt: &R, alloc: Global, stories: &str) {
    for story in stories.split("\n\n") {
        tell_of_each_kind(rt, alloc, story);
    }
}
