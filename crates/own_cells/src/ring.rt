//! Rings of slots, with one owner, as cells of the driver.

pub mod own_ring;
pub mod reading;
pub mod ring_words;
pub mod vacant;
