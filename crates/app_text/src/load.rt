//! What the modes `threads` and `channel` are asked for.
ghost use Rattle.std.specs.Prelude.{[], ◌∷◌};
ghost use Rattle.std.specs.Fmt.{decimal};
ghost use Rattle.app_text.specs.Reading.{IsReading};
ghost use Rattle.app_text.specs.KindNames.{IsThreadCount, IsItemCount, IsLoad, IsEvenLoad, load_words};

use crate::args::{KindName, parse_kind};
use crate::numbers::parse_number;

/// The most threads that may push, and the most that may pop.
pub const MOST_THREADS: u64 = 64;

/// The most items that a thread may push.
pub const MOST_ITEMS: u64 = 1_000_000;

const _: () = prove!(MOST_THREADS == 64 && MOST_ITEMS == 1_000_000);

/// The kind of a queue, how many threads push and how many pop, and how many items each of the first pushes.
#[derive(Clone, Copy)]
pub struct Load {
    pub kind: KindName,
    pub pushers: u64,
    pub poppers: u64,
    pub items: u64,
}

/// The load that these four words name, if they name one of which each popper gets as many items as the others.
pub fn parse_even_load(kind: &str, pushers: &str, poppers: &str, items: &str) -> Option<Load>
    ensures { IsReading IsEvenLoad load_words (kind.now ∷ pushers.now ∷ poppers.now ∷ items.now ∷ []) result }
{
    let load = parse_load(kind, pushers, poppers, items)?;
    if load.pushers * load.items % load.poppers != 0 {
        return None;
    }
    Some(load)
}

/// The load that these four words name, if they name one.
pub fn parse_load(kind: &str, pushers: &str, poppers: &str, items: &str) -> Option<Load>
    ensures { IsReading IsLoad load_words (kind.now ∷ pushers.now ∷ poppers.now ∷ items.now ∷ []) result }
{
    Some(Load {
        kind: parse_kind(kind)?,
        pushers: parse_thread_count(pushers)?,
        poppers: parse_thread_count(poppers)?,
        items: parse_item_count(items)?,
    })
}

// The number of threads that this text names.
fn parse_thread_count(text: &str) -> Option<u64>
    ensures { IsReading IsThreadCount decimal text.now result }
{
    let count = parse_number(text.as_bytes())?;
    if count == 0 || count > MOST_THREADS {
        return None;
    }
    Some(count)
}

// The number of items that this text names.
fn parse_item_count(text: &str) -> Option<u64>
    ensures { IsReading IsItemCount decimal text.now result }
{
    let count = parse_number(text.as_bytes())?;
    if count > MOST_ITEMS {
        return None;
    }
    Some(count)
}
