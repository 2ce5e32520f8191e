//! Ends that have still to be ended.

/// An end that has still to be ended. It is not `Drop`, but the end in it is: tests refuse a `drop` that ends nothing.
pub(crate) struct Owed<E> {
    pub(crate) end: E,
}
