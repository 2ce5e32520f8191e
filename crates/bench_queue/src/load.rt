//! What the program is asked to time, and the words that ask for it.
ghost use Rattle.std.specs.Prelude.{◌<◌};
ghost use Rattle.std.specs.Option.{IfSome};

use crate::crew::Crew;
use app_text::args::parse_kind;

/// Who has the queue, and whose it is.
#[derive(Clone, Copy)]
pub enum Setup {
    /// One owner.
    Owned,
    /// The only party of a shared queue.
    Alone,
    /// The owner of what is left of a shared queue, once the sharing has ended.
    Ended,
    /// One thread has one of the kit's queues, which it calls by a reference.
    KitAlone,
}

/// In which order pushes and pops come.
#[derive(Clone, Copy)]
pub enum Pattern {
    /// A push and a pop in turn, on a queue that had so many items before.
    Behind(u64),
    /// So many pushes, and then as many pops.
    Batch(u64),
}

/// How many bytes an item has.
#[derive(Clone, Copy)]
pub enum Size {
    Bytes8,
    Bytes64,
}

/// So many pairs of a push and a pop by one thread.
#[derive(Clone, Copy)]
pub struct Pairs {
    pub setup: Setup,
    pub pattern: Pattern,
    pub size: Size,
    pub count: u64,
}

/// What is done with a queue.
#[derive(Clone, Copy)]
pub enum Workload {
    /// One thread pushes and pops.
    Pairs(Pairs),
    /// Threads push numbers, and others pop them.
    Threads(Crew),
    /// The same on one of the kit's queues.
    KitThreads(Crew),
}

/// A workload, and the capacity of the queue that it is done with, if it has one.
#[derive(Clone, Copy)]
pub struct Load {
    pub capacity: Option<usize>,
    pub workload: Workload,
}

// The five words of a line.
#[derive(Clone, Copy)]
struct Words<'a> {
    setup: &'a str,
    kind: &'a str,
    first: &'a str,
    second: &'a str,
    count: &'a str,
}

/// The load that a line of words names: `SETUP KIND PATTERN BYTES COUNT`, or `threads KIND PUSHERS POPPERS COUNT`, or the same with `kit-threads`.
pub fn parse_load(line: &str) -> Option<Load>
    ensures { IfSome result (λ load. IfSome load.capacity (λ cap. 0 < cap)) }
{
    let words = words_in(line)?;
    let capacity = parse_kind(words.kind)?.capacity();
    let workload = parse_task(words, words.count.parse().ok()?)?;
    Some(Load { capacity, workload })
}

// The words of a line, if it has five.
fn words_in(line: &str) -> Option<Words<'_>> {
    let mut words = line.split(' ');
    let found = Words {
        setup: words.next()?,
        kind: words.next()?,
        first: words.next()?,
        second: words.next()?,
        count: words.next()?,
    };
    match words.next() {
        Some(_) => None,
        None => Some(found),
    }
}

// The task that these words name, of so many numbers or pairs.
fn parse_task(words: Words<'_>, count: u64) -> Option<Workload> {
    let Words { first, second, .. } = words;
    match words.setup {
        "threads" => Some(Workload::Threads(parse_crew(first, second, count)?)),
        "kit-threads" => Some(Workload::KitThreads(parse_crew(first, second, count)?)),
        setup => Some(Workload::Pairs(Pairs {
            setup: parse_setup(setup)?,
            pattern: parse_pattern(first)?,
            size: parse_size(second)?,
            count,
        })),
    }
}

// The crew that these numbers name.
fn parse_crew(pushers: &str, poppers: &str, count: u64) -> Option<Crew> {
    Some(Crew {
        pushers: pushers.parse().ok()?,
        poppers: poppers.parse().ok()?,
        count,
    })
}

// The setup that this word names.
fn parse_setup(word: &str) -> Option<Setup> {
    match word {
        "owned" => Some(Setup::Owned),
        "alone" => Some(Setup::Alone),
        "ended" => Some(Setup::Ended),
        "kit-alone" => Some(Setup::KitAlone),
        _ => None,
    }
}

// The pattern that this word names: `behind:ITEMS` or `batch:ITEMS`.
fn parse_pattern(word: &str) -> Option<Pattern> {
    let (order, items) = word.split_once(':')?;
    let items = items.parse().ok()?;
    match order {
        "behind" => Some(Pattern::Behind(items)),
        "batch" => Some(Pattern::Batch(items)),
        _ => None,
    }
}

// The size that this number of bytes names.
fn parse_size(word: &str) -> Option<Size> {
    match word {
        "8" => Some(Size::Bytes8),
        "64" => Some(Size::Bytes64),
        _ => None,
    }
}
