//! What the words of a queue show to who only loads them, beside any call.
ghost use Rattle.std.specs.Prelude.{◌≡◌};
ghost use Rattle.queue_steps.specs.ShownWords.{shown_len, shows_closed};

use crate::steps::Kind;
use crate::steps::chain::each::items;
use crate::steps::slot::each;
use crate::words::{is_marked, position_of};

/// How many items a tail and a head show, of which the tail was loaded first: none where the head has passed that tail meanwhile. One slot has one word, which stands for its tail.
pub fn shown_len(kind: Kind, tail: u64, head: u64) -> usize
    ensures { result ≡ shown_len kind tail head }
{
    match kind {
        Kind::Single => { if each::is_pushed(tail) { 1 } else { 0 } }
        Kind::Bounded(_) => position_of(tail).saturating_sub(head) as usize,
        Kind::Unbounded => items(position_of(tail)).saturating_sub(items(position_of(
            head,
        ))) as usize,
    }
}

/// Whether a tail is that of a closed queue. One slot has one word, which stands for its tail.
pub fn shows_closed(kind: Kind, tail: u64) -> bool
    ensures { result ≡ shows_closed kind tail }
{
    match kind {
        Kind::Single => each::is_closed(tail),
        Kind::Bounded(_) | Kind::Unbounded => is_marked(tail),
    }
}
