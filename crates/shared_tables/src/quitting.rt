//! A call at a table that has had no effect yet is given up.
ghost use Rattle.std.specs.Prelude.{◌≡◌};
ghost use Rattle.shared_tables.specs.Quitting.{MayQuit, HasQuit};

use crate::clauses::load;
use crate::seats::PARTIES;
use crate::table::{SharedTable, TableKind, TableSteps};
use atomic_table::{Play, Seat};
use shared_parties::known::CallState;
use std::alloc::Allocator;
use std::marker::PhantomData;

/// The seat is at nothing again.
pub struct Quits<K> {
    of: PhantomData<K>,
}

impl<T, K: TableKind<T>> Play<Option<T>, CallState<T>> for Quits<K> {
    ghost use Rattle.shared_tables.specs.Quitting.{HasQuit};

    ghost then = { λ st m n q. HasQuit (K.layout st.slots).calls m q };
}

impl<T, K: TableSteps<T>, A: Allocator> SharedTable<T, K, A> {
    /// Gives the call up that a seat is at. It takes a look at the table, since what a seat knows changes only by one.
    pub fn quit(&self, seat: &mut Seat<Option<T>, CallState<T>>)
        requires table { seat.old.table_id ≡ self.now.table.shared.table_id }
        requires may { MayQuit seat.old.me }
        ensures same { seat.new.table_id ≡ seat.old.table_id }
        ensures quit { HasQuit (K.layout self.now.table.shared.table_id.slots).calls seat.old.me seat.new.me }
    {
        load::<_, _, Quits<K>>(&self.table.shared, seat, PARTIES);
    }
}
