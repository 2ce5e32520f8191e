//! What is found, compared with what is wanted, in one place for all tests.
use std::fmt::Debug;
use std::process::Abort;

/// Asserts that this was found.
pub(crate) fn is<T: PartialEq + Debug + Drop>(rt: &impl Abort, found: T, wanted: T) {
    assert_eq!(rt; found, wanted);
}

/// Asserts that this was found in this case, which a failure names.
pub(crate) fn is_in<T: PartialEq + Debug + Drop, C: Debug + Drop>(
    rt: &impl Abort,
    case: C,
    found: T,
    wanted: T,
) {
    assert_eq!(rt; found, wanted, "{case:?}");
}
