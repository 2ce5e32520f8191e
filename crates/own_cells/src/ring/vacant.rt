//! Tables whose slots are empty at the beginning.
ghost use Rattle.std.specs.Prelude.{◌≡◌, [], length, replicate, IfOk, None};
ghost use Rattle.atomic_table.specs.Table.{opening};

use atomic_table::{Refused, Seat, Table, TableRule};
use std::alloc::{AllocError, Allocator};

/// So many empty slots.
///
/// # Errors
///
/// Where there is no memory, and without a request where they are more bytes than one allocation may have.
pub fn empty_slots<T, A: Allocator>(alloc: A, count: usize) -> Result<Vec<Option<T>, A>, AllocError>
    ensures { IfOk result (λ slots. slots.items ≡ replicate count None) }
{
    let mut slots = Vec::with_capacity(alloc, count)?;
    for _slot in 0..count {
        slots.push_reserved(None);
    }
    Ok(slots)
}

/// Gives empty slots up.
pub fn discard<T, A: Allocator>(mut slots: Vec<Option<T>, A>)
    requires { slots.items ≡ replicate (length slots.items) None }
{
    while let Some(slot) = slots.pop() {
        let None = slot else { unreachable!() };
    }
    slots.destroy_empty();
}

/// A table of these words and these slots, which are empty, and the seat of its only party.
///
/// # Errors
///
/// Where there is no memory.
pub fn table_of<T, V, K, P: TableRule<Option<T>, V, K>, A: Allocator, B: Allocator>(
    alloc: A,
    words: &[u64],
    slots: Vec<Option<T>, B>,
    about: &K,
) -> Result<(Table<Option<T>, V, K, P, A>, Seat<Option<T>, V>), AllocError>
    requires empty { slots.items ≡ replicate (length slots.items) None }
    requires holds { P.holds about.now (opening words.now slots.items (P.first about.now)) }
    ensures { IfOk result (λ t. (t.0.shared.table_id.words ≡ length words.now) × (t.0.shared.table_id.slots ≡ length slots.items) × (t.1.table_id ≡ t.0.shared.table_id) × (t.1.id ≡ 0) × (t.1.me ≡ (P.first about.now, [])) × (t.0.shared.key ≡ about.now)) }
{
    match Table::new(alloc, words, slots, about) {
        Ok(made) => Ok(made),
        Err(Refused { slots }) => {
            discard(slots);
            Err(AllocError)
        }
    }
}
