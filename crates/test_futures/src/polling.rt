//! Tasks that poll by hand.
use futures::task::Poll;
use futures::test::MockTask;
use std::alloc::AllocGlobal;
use std::process::Abort;
use std::random::RandomSource;

/// A task of its own.
pub(crate) fn task<R: Abort + RandomSource + AllocGlobal>(rt: &R) -> MockTask {
    MockTask::new(rt).expect(rt, "memory")
}

/// What a poll gave, if it gave anything.
pub(crate) fn given<T>(polled: Poll<T>) -> Option<T> {
    match polled {
        Poll::Ready(value) => Some(value),
        Poll::Pending => None,
    }
}
