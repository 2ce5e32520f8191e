//! What is found of a small program over one queue: by a walk over its positions its outcomes and their schedules, which `explore` shows to be right, and numbers of them, which nothing shows.

mod alone;
pub mod counts;
mod edges;
pub mod faults;
pub mod figures;
pub mod find;
pub mod findings;
mod numbers;
mod orders;
pub mod outcomes;
mod paths;
mod places;
pub(crate) mod rounds;
mod visited;
mod waits;
