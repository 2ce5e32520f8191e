//! Why a search gives no answer.
use std::alloc::{AllocError, AllocFailed};

/// Why a search gives no answer.
#[derive(Clone, Copy)]
pub enum SearchFault {
    /// Memory was wanted and refused, or no queue may have the capacity.
    NoMemory,
    /// The program has more positions than are looked at.
    TooManyStates,
    /// A call did not end alone within the steps that a call alone takes at most.
    EndlessCall,
    /// What was found could not be shown.
    NotShown,
}

impl From<AllocError> for SearchFault {
    fn from(_error: AllocError) -> SearchFault {
        SearchFault::NoMemory
    }
}

impl<X: Drop> From<AllocFailed<X>> for SearchFault {
    fn from(_failed: AllocFailed<X>) -> SearchFault {
        SearchFault::NoMemory
    }
}
