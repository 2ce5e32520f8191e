//! The steps on a table that this crate takes, as the table has them. What each asks for stands here in two clauses, since one clause alone costs seconds to answer.
ghost use Rattle.std.specs.Prelude.{◌≡◌, ◌<◌, ◌+◌, ◌-◌, ◌%◌, ◌^◌, ◌==◌, [], bit_or};
ghost use mathlib.Core.Option.{none};
ghost use prog.Atomic.{either};
ghost use Rattle.atomic_table.specs.Table.{step, Allows, Splits, Joins};

use atomic_table::{Join, Play, Seat, Shared, Split, TableRule};
use shared_parties::known::CallState;

/// A load.
#[inline(always)]
pub(crate) fn load<
    T,
    P: TableRule<Option<T>, CallState<T>, usize>,
    M: Play<Option<T>, CallState<T>>,
>(
    table: &Shared<Option<T>, CallState<T>, usize, P>,
    seat: &mut Seat<Option<T>, CallState<T>>,
    word: usize,
) -> u64
    requires table { seat.old.table_id ≡ table.now.table_id }
    requires may { (word < table.now.table_id.words) × Allows (P.holds table.now.key) table.now.table_id.slots seat.old.id seat.old.me word (λ n. n) (M.then (step table.now.table_id.slots word 0 0 none) seat.old.me) }
    ensures { (seat.new.table_id ≡ seat.old.table_id) × (seat.new.id ≡ seat.old.id) × M.then (step table.now.table_id.slots word 0 0 none) seat.old.me result seat.new.me }
{
    table.load::<M>(seat, word)
}

/// A store.
#[inline(always)]
pub(crate) fn store<
    T,
    P: TableRule<Option<T>, CallState<T>, usize>,
    M: Play<Option<T>, CallState<T>>,
>(
    table: &Shared<Option<T>, CallState<T>, usize, P>,
    seat: &mut Seat<Option<T>, CallState<T>>,
    word: usize,
    new: u64,
)
    requires table { seat.old.table_id ≡ table.now.table_id }
    requires may { (word < table.now.table_id.words) × Allows (P.holds table.now.key) table.now.table_id.slots seat.old.id seat.old.me word (λ _. new) (λ _. M.then (step table.now.table_id.slots word new 0 none) seat.old.me new) }
    ensures { (seat.new.table_id ≡ seat.old.table_id) × (seat.new.id ≡ seat.old.id) × M.then (step table.now.table_id.slots word new 0 none) seat.old.me new seat.new.me }
{
    table.store::<M>(seat, word, new)
}

/// An addition.
#[inline(always)]
pub(crate) fn fetch_add<
    T,
    P: TableRule<Option<T>, CallState<T>, usize>,
    M: Play<Option<T>, CallState<T>>,
>(
    table: &Shared<Option<T>, CallState<T>, usize, P>,
    seat: &mut Seat<Option<T>, CallState<T>>,
    word: usize,
    k: u64,
) -> u64
    requires table { seat.old.table_id ≡ table.now.table_id }
    requires may { (word < table.now.table_id.words) × Allows (P.holds table.now.key) table.now.table_id.slots seat.old.id seat.old.me word (λ n. (n + k) % 2 ^ 64) (M.then (step table.now.table_id.slots word k 0 none) seat.old.me) }
    ensures { (seat.new.table_id ≡ seat.old.table_id) × (seat.new.id ≡ seat.old.id) × M.then (step table.now.table_id.slots word k 0 none) seat.old.me result seat.new.me }
{
    table.fetch_add::<M>(seat, word, k)
}

/// A subtraction.
#[inline(always)]
pub(crate) fn fetch_sub<
    T,
    P: TableRule<Option<T>, CallState<T>, usize>,
    M: Play<Option<T>, CallState<T>>,
>(
    table: &Shared<Option<T>, CallState<T>, usize, P>,
    seat: &mut Seat<Option<T>, CallState<T>>,
    word: usize,
    k: u64,
) -> u64
    requires table { seat.old.table_id ≡ table.now.table_id }
    requires may { (word < table.now.table_id.words) × Allows (P.holds table.now.key) table.now.table_id.slots seat.old.id seat.old.me word (λ n. (n + (2 ^ 64 - k)) % 2 ^ 64) (M.then (step table.now.table_id.slots word k 0 none) seat.old.me) }
    ensures { (seat.new.table_id ≡ seat.old.table_id) × (seat.new.id ≡ seat.old.id) × M.then (step table.now.table_id.slots word k 0 none) seat.old.me result seat.new.me }
{
    table.fetch_sub::<M>(seat, word, k)
}

/// An or.
#[inline(always)]
pub(crate) fn fetch_or<
    T,
    P: TableRule<Option<T>, CallState<T>, usize>,
    M: Play<Option<T>, CallState<T>>,
>(
    table: &Shared<Option<T>, CallState<T>, usize, P>,
    seat: &mut Seat<Option<T>, CallState<T>>,
    word: usize,
    k: u64,
) -> u64
    requires table { seat.old.table_id ≡ table.now.table_id }
    requires may { (word < table.now.table_id.words) × Allows (P.holds table.now.key) table.now.table_id.slots seat.old.id seat.old.me word (λ n. bit_or n k) (M.then (step table.now.table_id.slots word k 0 none) seat.old.me) }
    ensures { (seat.new.table_id ≡ seat.old.table_id) × (seat.new.id ≡ seat.old.id) × M.then (step table.now.table_id.slots word k 0 none) seat.old.me result seat.new.me }
{
    table.fetch_or::<M>(seat, word, k)
}

/// A compare and exchange.
#[inline(always)]
pub(crate) fn compare_exchange<
    T,
    P: TableRule<Option<T>, CallState<T>, usize>,
    M: Play<Option<T>, CallState<T>>,
>(
    table: &Shared<Option<T>, CallState<T>, usize, P>,
    seat: &mut Seat<Option<T>, CallState<T>>,
    word: usize,
    old: u64,
    new: u64,
) -> u64
    requires table { seat.old.table_id ≡ table.now.table_id }
    requires may { (word < table.now.table_id.words) × Allows (P.holds table.now.key) table.now.table_id.slots seat.old.id seat.old.me word (λ n. either (n == old) new n) (M.then (step table.now.table_id.slots word old new none) seat.old.me) }
    ensures { (seat.new.table_id ≡ seat.old.table_id) × (seat.new.id ≡ seat.old.id) × M.then (step table.now.table_id.slots word old new none) seat.old.me result seat.new.me }
{
    table.compare_exchange::<M>(seat, word, old, new)
}

/// A seat becomes two.
#[inline(always)]
pub(crate) fn split_seat<T, P: TableRule<Option<T>, CallState<T>, usize>, M: Split<CallState<T>>>(
    table: &Shared<Option<T>, CallState<T>, usize, P>,
    seat: &mut Seat<Option<T>, CallState<T>>,
) -> Seat<Option<T>, CallState<T>>
    requires table { seat.old.table_id ≡ table.now.table_id }
    requires may { (0 < table.now.table_id.words) × Splits (P.holds table.now.key) seat.old.id seat.old.me.0 (M.left seat.old.me.0) (M.right seat.old.me.0) }
    ensures { (seat.new.table_id ≡ seat.old.table_id) × (seat.new.id ≡ seat.old.id) × (seat.new.me ≡ (M.left seat.old.me.0, seat.old.me.1)) × (result.table_id ≡ seat.old.table_id) × (result.me ≡ (M.right seat.old.me.0, [])) }
{
    table.split_seat::<M>(seat)
}

/// Two seats become one.
#[inline(always)]
pub(crate) fn join_seat<T, P: TableRule<Option<T>, CallState<T>, usize>, M: Join<CallState<T>>>(
    table: &Shared<Option<T>, CallState<T>, usize, P>,
    seat: &mut Seat<Option<T>, CallState<T>>,
    other: Seat<Option<T>, CallState<T>>,
)
    requires table { (seat.old.table_id ≡ table.now.table_id) × (other.table_id ≡ table.now.table_id) × (other.me.1 ≡ []) }
    requires may { (0 < table.now.table_id.words) × Joins (P.holds table.now.key) seat.old.id seat.old.me.0 other.id other.me.0 (M.both seat.old.me.0 other.me.0) M.spent }
    ensures { (seat.new.table_id ≡ seat.old.table_id) × (seat.new.id ≡ seat.old.id) × (seat.new.me ≡ (M.both seat.old.me.0 other.me.0, seat.old.me.1)) }
{
    table.join_seat::<M>(seat, other);
}
