//! Queues with one owner, where no script shows them.
pub mod collecting;
pub mod drops;
pub mod errors;
pub mod iterators;
pub mod made;
pub mod reading;
pub mod refused;
pub mod runs;
pub mod stories;
