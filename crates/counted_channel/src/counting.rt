//! The table of a channel: two words, which count its senders and its receivers.
ghost use Rattle.std.specs.Prelude.{[], true, ◌≡◌, ◌<◌, IfOk, MatchBool, MatchOption};
ghost use Rattle.queue_steps.specs.Shares.{entire, plus, IsEntire, IsPart};
ghost use Rattle.counted_channel.specs.Counting.{side, at_side, stake_at, IsEndSeat, IsHalfEnd};

use atomic_table::{Join, Play, Seat, Shared, Split, Table, TableRule};
use std::alloc::{AllocError, Allocator};

/// The greatest number of ends of a side, splits under way included.
pub const MAX_ENDS: u64 = 1 << 31;

const _: () = prove!(MAX_ENDS == 2147483648);

/// What a seat knows of a side: for how many ends of it it counts, how many more it was counted for, and its part of all stakes in the side. No value of it is
/// made.
pub struct Side {
    pub ends: usize,
    pub extra: usize,
    pub stake: (usize, usize),
}

/// What a seat knows of both sides. No value of it is made.
pub struct SeatCounts {
    pub senders: Side,
    pub receivers: Side,
}

/// The rule: each word is the number of ends for which the seats count, and how many more they were counted for.
pub struct Counted;

impl TableRule<(), SeatCounts, ()> for Counted {
    ghost use Rattle.counted_channel.specs.Counting.{IsCounted, both_sides};

    ghost holds = { λ _. IsCounted };

    ghost first = { λ _. both_sides };
}

/// A word is raised.
struct Add;

impl Play<(), SeatCounts> for Add {
    ghost use Rattle.counted_channel.specs.Counting.{Added};

    ghost then = { Added };
}

/// A word is lowered.
struct Subtract;

impl Play<(), SeatCounts> for Subtract {
    ghost use Rattle.counted_channel.specs.Counting.{Subtracted};

    ghost then = { Subtracted };
}

/// The first seat becomes that of a sender and that of a receiver.
struct Apart;

impl Split<SeatCounts> for Apart {
    ghost use Rattle.counted_channel.specs.Counting.{first_sender, first_receiver};

    ghost left = { λ v. first_sender };

    ghost right = { λ v. first_receiver };
}

/// The seat of two ends of a side becomes two seats, of one end each.
struct Halves;

impl Split<SeatCounts> for Halves {
    ghost use Rattle.counted_channel.specs.Counting.{halved};

    ghost left = { halved };

    ghost right = { halved };
}

/// Two seats become one, which counts for what both did.
struct Both;

impl Join<SeatCounts> for Both {
    ghost use Rattle.counted_channel.specs.Counting.{nobody, both, two_seats};

    ghost both = { two_seats };

    ghost spent = { both nobody nobody };
}

/// The words of a channel.
pub(crate) type Counts<A> = Table<(), SeatCounts, (), Counted, A>;

/// The words, as threads see them.
pub(crate) type SharedCounts = Shared<(), SeatCounts, (), Counted>;

/// The seat of an end.
pub(crate) type EndSeat = Seat<(), SeatCounts>;

/// The words, which count one sender and one receiver, and the seats of these.
///
/// # Errors
///
/// There is no memory.
pub(crate) fn open<A: Allocator>(alloc: A) -> Result<(Counts<A>, EndSeat, EndSeat), AllocError>
    ensures table { IfOk result (λ r. (r.0.shared.table_id.words ≡ 2) × (r.1.table_id ≡ r.0.shared.table_id) × (r.2.table_id ≡ r.0.shared.table_id)) }
    ensures seats { IfOk result (λ r. (r.1.me ≡ (at_side 0 (side 1 0 entire), [])) × (r.2.me ≡ (at_side 1 (side 1 0 entire), []))) }
{
    let (counts, mut sender) = Table::of_words(alloc, &[1, 1], &())?;
    let receiver = counts.shared.split_seat::<Apart>(&mut sender);
    Ok((counts, sender, receiver))
}

/// Counts one end more, where there may be one, and gives whether there may.
fn enter(words: &SharedCounts, place: &mut EndSeat, word: usize) -> bool
    requires table { (place.old.table_id ≡ words.now.table_id) × (words.now.table_id.words ≡ 2) × (word < 2) }
    requires one { IsEndSeat word place.old.me }
    ensures same { (place.new.table_id ≡ place.old.table_id) × (place.new.id ≡ place.old.id) }
    ensures counted { MatchBool result (place.new.me ≡ (at_side word (side 2 0 (stake_at word place.old.me.0)), [])) (place.new.me ≡ place.old.me) }
{
    if words.fetch_add::<Add>(place, word, 1) < MAX_ENDS {
        return true;
    }
    words.fetch_sub::<Subtract>(place, word, 1);
    false
}

/// Parts the seat of an end in two, where there may be one more end of its side.
pub(crate) fn part(words: &SharedCounts, place: &mut EndSeat, word: usize) -> Option<EndSeat>
    requires table { (place.old.table_id ≡ words.now.table_id) × (words.now.table_id.words ≡ 2) × (word < 2) }
    requires one { IsEndSeat word place.old.me }
    ensures same { place.new.table_id ≡ place.old.table_id }
    ensures parted { MatchOption result
        (place.new.me ≡ place.old.me)
        (λ r. (r.table_id ≡ place.old.table_id) × IsHalfEnd word place.old.me place.new.me × IsHalfEnd word place.old.me r.me) }
{
    if !enter(words, place, word) {
        return None;
    }
    Some(words.split_seat::<Halves>(place))
}

/// Counts one end less, and gives whether it was the last of its side.
pub(crate) fn leave(words: &SharedCounts, mut place: EndSeat, word: usize) -> bool
    requires table { (place.table_id ≡ words.now.table_id) × (words.now.table_id.words ≡ 2) × (word < 2) }
    requires one { IsEndSeat word place.me }
    ensures { IsEntire (stake_at word place.me.0) → result ≡ true }
{
    words.fetch_sub::<Subtract>(&mut place, word, 1) == 1
}

/// Makes one seat of the seats of two ends of a side, and counts one end less. It has the stakes of both, which are no more than one.
pub(crate) fn unite(words: &SharedCounts, place: &mut EndSeat, other: EndSeat, word: usize)
    requires table { (place.old.table_id ≡ words.now.table_id) × (other.table_id ≡ words.now.table_id) × (words.now.table_id.words ≡ 2) × (word < 2) }
    requires ends { IsEndSeat word place.old.me × IsEndSeat word other.me }
    ensures same { place.new.table_id ≡ place.old.table_id }
    ensures both { place.new.me ≡ (at_side word (side 1 0 (plus (stake_at word place.old.me.0) (stake_at word other.me.0))), []) }
    ensures part { IsPart (plus (stake_at word place.old.me.0) (stake_at word other.me.0)) }
{
    words.join_seat::<Both>(place, other);
    words.fetch_sub::<Subtract>(place, word, 1);
}
