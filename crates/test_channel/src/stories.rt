//! Stories of channels, as texts.
//!
//! The first line of a text is what it shows, and the capacities of the channels of which it is told: `-` is none. Each other line is what one end does, one deed after another, and what each is answered: `A: send 7; len -> 1`. A and B send, X and Y receive; B and Y are there where a line has their name. Where no answer is told it is `Ok(())`.
//!
//! A deed is a call, by its word in [`deeds`](crate::deeds), or one of these:
//!
//! - `next` is answered with the first item of the channel's own iterator, if there is one.
//! - `end` ends the end, and is answered whether it was the last of its side. `leave` drops it; the story is told once for each way to do so.
//! - `idle CALL` makes the call, which takes next to no processor time.
//! - `sees X` waits until X sleeps, `pause 60` for so many milliseconds, `meet` until another end comes to meet this one. `pass` passes some time, which is another one in each round.
//!
//! A story is told on one thread, line by line, or on a thread for each end. An end that neither ends nor leaves is there until all have done their deeds.
use crate::asserts::is_in;
use crate::deeds::{AnyEnd, said};
use crate::host::Host;
use crate::leaving::{WAYS, Way, let_go};
use crate::opening::opened_surely;
use std::process::Abort;
use std::sync::atomic::AtomicU64;
use std::sync::atomic::Ordering::SeqCst;
use std::thread::{join, sleep, yield_now};
use std::time::Duration;
use test_support::watched::{Watched, time};

/// How many hundredths of a second of processor time an idle call may take.
const MOST: u64 = 1;

/// How often a thread looks whether another one has come to meet it.
const LOOKS: u64 = 10_000_000;

/// How a story is told.
#[derive(Clone, Copy)]
pub(crate) enum Told {
    /// On one thread.
    InTurn,
    /// On a thread for each end, in this round.
    AtOnce(u64),
}

/// Where a story is told.
#[derive(Drop)]
struct Stage {
    story: &'static str,
    cap: Option<usize>,
    way: Way,
    told: Told,
    /// How many have come to meet another.
    met: AtomicU64,
    a: Watched,
    b: Watched,
    x: Watched,
    y: Watched,
}

impl Stage {
    fn new(story: &'static str, cap: Option<usize>, way: Way, told: Told) -> Stage {
        Stage {
            story,
            cap,
            way,
            told,
            met: AtomicU64::new(0),
            a: Watched::new(),
            b: Watched::new(),
            x: Watched::new(),
            y: Watched::new(),
        }
    }

    /// The thread of the end of this name.
    fn thread(&self, name: &str) -> &Watched {
        match name {
            "A" => &self.a,
            "B" => &self.b,
            "X" => &self.x,
            _ => &self.y,
        }
    }

    /// Waits until the other thread sleeps, and gives whether it does. Nobody sees this one asleep meanwhile.
    fn sees<R: Host>(&self, rt: &R, this: &str, other: &str) -> bool {
        self.thread(this).leave();
        let asleep = self.thread(other).is_seen_asleep(rt);
        self.thread(this).enter(rt);
        asleep
    }

    /// Waits until two have come here, though not for ever.
    fn meet(&self) {
        self.met.fetch_add(1, SeqCst);
        for _ in 0..LOOKS {
            if self.met.load(SeqCst) == 2 {
                break;
            }
            yield_now();
        }
    }

    /// Passes some time, which is another one in each round.
    fn pass(&self) {
        let Told::AtOnce(round) = self.told else {
            return;
        };
        let mixed = round.wrapping_mul(0x9E37_79B9_7F4A_7C15);
        for _ in 0..mixed >> 60 {
            yield_now();
        }
        let mut spun = mixed;
        for step in 0..(mixed >> 40) % 600 {
            spun = spun.wrapping_mul(3).wrapping_add(step);
        }
        if spun == 1 {
            yield_now();
        }
    }
}

/// A number of a text.
fn number_of(text: &str) -> u64 {
    text.parse().unwrap_or(0)
}

/// Takes an end away. Asserts that there is one.
fn taken(rt: &impl Abort, end: &mut Option<AnyEnd>) -> AnyEnd {
    match end.take() {
        Some(end) => end,
        None => panic!(rt; "no end"),
    }
}

/// Makes a call, and gives what it is answered. Asserts that there is such an end.
fn answer<R: Host>(rt: &R, end: &mut Option<AnyEnd>, call: &str) -> String {
    let (word, number) = call.split_once(" ").unwrap_or((call, ""));
    match end {
        Some(end) => end.calls(rt, word, number_of(number)),
        None => panic!(rt; "no end: {call}"),
    }
}

/// What the channel's own iterator gives first. Asserts that there is an end, which receives.
fn next<R: Host>(rt: &R, end: &mut Option<AnyEnd>) -> Option<u64> {
    let (back, item) = taken(rt, end).next(rt);
    *end = Some(back);
    item
}

/// Whose line this is, and the deeds that it tells.
fn told_in(line: &str) -> (&str, &str) {
    line.split_once(": ").unwrap_or((line, ""))
}

/// Makes a call, or ends the end. Asserts what that is answered.
fn call<R: Host>(rt: &R, stage: &Stage, end: &mut Option<AnyEnd>, line: &str, deed: &str) {
    let (call, wanted) = deed.split_once(" -> ").unwrap_or((deed, "Ok(())"));
    let found = match call {
        "end" => said(rt, taken(rt, end).ends()),
        "next" => said(rt, next(rt, end)),
        _ => answer(rt, end, call),
    };
    let at = (stage.story, stage.cap, stage.way, line, deed);
    is_in(rt, at, found.as_str(), wanted);
}

/// Makes a call. Asserts that it takes next to no processor time.
fn idle<R: Host>(rt: &R, stage: &Stage, end: &mut Option<AnyEnd>, line: &str, deed: &str) {
    let before = time(rt).expect(rt, "the time so far");
    call(rt, stage, end, line, deed);
    let spent = time(rt).expect(rt, "the time since").wrapping_sub(before);
    is_in(rt, (stage.story, line, spent), spent <= MOST, true);
}

/// Does a deed of a line. Asserts what is told of it.
fn follow<R: Host>(rt: &R, stage: &Stage, end: &mut Option<AnyEnd>, line: &str, deed: &str) {
    let (word, rest) = deed.split_once(" ").unwrap_or((deed, ""));
    let at = (stage.story, stage.cap, stage.way, line, deed);
    match word {
        "idle" => idle(rt, stage, end, line, rest),
        "leave" => is_in(rt, at, let_go(rt, stage.way, taken(rt, end)), true),
        "meet" => stage.meet(),
        "pass" => stage.pass(),
        "pause" => sleep(rt, Duration::from_millis(number_of(rest))),
        "sees" => is_in(rt, at, stage.sees(rt, told_in(line).0, rest), true),
        _ => call(rt, stage, end, line, deed),
    }
}

/// Does what those of these lines say that have this name.
fn act<R: Host>(rt: &R, stage: &Stage, name: &str, end: &mut Option<AnyEnd>, lines: &str) {
    for line in lines.lines() {
        let (named, deeds) = told_in(line);
        if named == name {
            for deed in deeds.split("; ") {
                follow(rt, stage, end, line, deed);
            }
        }
    }
}

/// The same on a thread of its own, at which others look.
fn perform<R: Host>(rt: &R, stage: &Stage, name: &str, end: &mut Option<AnyEnd>, lines: &str) {
    stage.thread(name).enter(rt);
    act(rt, stage, name, end, lines);
}

/// The ends of a story's channel.
#[derive(Drop)]
struct Cast {
    a: Option<AnyEnd>,
    b: Option<AnyEnd>,
    x: Option<AnyEnd>,
    y: Option<AnyEnd>,
}

/// One more end of this one, if it is to be there.
fn another_if(rt: &impl Abort, end: &mut AnyEnd, is_there: bool) -> Option<AnyEnd> {
    if is_there {
        Some(end.another(rt))
    } else {
        None
    }
}

/// The ends of a channel of this capacity, or without one, of which these lines tell.
fn cast_of<R: Host>(rt: &R, cap: Option<usize>, lines: &str) -> Cast {
    let (sender, receiver) = opened_surely(rt, rt.alloc(), cap);
    let (mut a, mut x) = (AnyEnd::Sends(sender), AnyEnd::Receives(receiver));
    let b = another_if(rt, &mut a, lines.contains("B: "));
    let y = another_if(rt, &mut x, lines.contains("Y: "));
    Cast {
        a: Some(a),
        b,
        x: Some(x),
        y,
    }
}

/// Tells each line after another.
fn tell_in_turn<R: Host>(rt: &R, stage: &Stage, mut cast: Cast, lines: &str) {
    for line in lines.lines() {
        act(rt, stage, "A", &mut cast.a, line);
        act(rt, stage, "B", &mut cast.b, line);
        act(rt, stage, "X", &mut cast.x, line);
        act(rt, stage, "Y", &mut cast.y, line);
    }
}

/// Tells the lines of the ends of a side, of which there are one or two, each on a thread of its own.
fn tell_side<R: Host + Sync>(
    rt: &R,
    stage: &Stage,
    names: [&'static str; 2],
    first: &mut Option<AnyEnd>,
    second: &mut Option<AnyEnd>,
    lines: &str,
) {
    let [one, two] = names;
    if second.is_none() {
        return perform(rt, stage, one, first, lines);
    }
    join(
        rt,
        || perform(rt, stage, one, first, lines),
        || perform(rt, stage, two, second, lines),
    );
}

/// Tells the lines of each end on a thread of its own.
fn tell_at_once<R: Host + Sync>(rt: &R, stage: &Stage, cast: Cast, lines: &str) {
    let Cast {
        mut a,
        mut b,
        mut x,
        mut y,
    } = cast;
    join(
        rt,
        || tell_side(rt, stage, ["A", "B"], &mut a, &mut b, lines),
        || tell_side(rt, stage, ["X", "Y"], &mut x, &mut y, lines),
    );
}

/// Asserts that each line of a story is of an end, and tells what that does.
fn are_of_ends(rt: &impl Abort, story: &'static str, lines: &'static str) {
    for line in lines.lines() {
        let is_told = match told_in(line) {
            (_, "") => false,
            ("A" | "B" | "X" | "Y", _) => true,
            _ => false,
        };
        is_in(rt, (story, line), is_told, true);
    }
}

/// Tells a story. Asserts what its lines say.
pub(crate) fn tell<R: Host + Sync>(rt: &R, told: Told, text: &'static str) {
    let Some((head, lines)) = text.split_once("\n") else {
        panic!(rt; "no lines: {text}")
    };
    let Some((story, caps)) = head.rsplit_once(": ") else {
        panic!(rt; "no capacities: {text}")
    };
    are_of_ends(rt, story, lines);
    let ways = if lines.contains("leave") {
        WAYS.len()
    } else {
        1
    };
    for cap in caps.split(" ") {
        for way in WAYS.iter().take(ways) {
            let stage = Stage::new(story, cap.parse().ok(), *way, told);
            let cast = cast_of(rt, stage.cap, lines);
            match told {
                Told::InTurn => tell_in_turn(rt, &stage, cast, lines),
                Told::AtOnce(_) => tell_at_once(rt, &stage, cast, lines),
            }
        }
    }
}

/// Tells these stories.
pub(crate) fn tell_all<R: Host + Sync>(rt: &R, told: Told, texts: &[&'static str]) {
    for text in texts {
        tell(rt, told, *text);
    }
}
