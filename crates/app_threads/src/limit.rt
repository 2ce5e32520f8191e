//! How many threads a run may start.
pub use queue_crew::limit::{Limit, NO_LIMIT};
