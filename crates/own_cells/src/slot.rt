//! A queue of one slot with one owner, as cells of the driver.

pub mod own_slot;

pub use own_slot::OwnSlot;
