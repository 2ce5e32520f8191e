//! The tasks of a batch, each with its number.
ghost use Rattle.std.specs.Prelude.{◌≡◌, ℕ, List, [], Some, slice_get};
ghost use Rattle.use_shared.specs.Steps.{MatchStep};

use crate::tasks::stepped::{Step, Task};
use std::marker::{Brand, PhantomData};

/// Work with a number, which is stepped until it is finished.
pub(crate) trait Numbered: Sized + Drop + Send {
    type Finished: Drop + Send;

    // The number of the work.
    ghost number: { Self → ℕ };

    // The number of the work that was finished.
    ghost finished_number: { Self.Finished → ℕ };

    /// Does the next part of the work.
    fn step(self) -> Step<Self, Self::Finished>
        ensures { MatchStep result (λ next. number next ≡ number self) (λ finished. finished_number finished ≡ number self) };
}

/// Stands for the tasks that are run together.
pub(crate) trait Batch<O>: Send {
    // What they come to, in their order.
    ghost outcomes: { List O };
}

impl<O> Batch<O> for Brand {
    ghost outcomes = { [] };
}

/// A task that is not done, whose outcome is that of its number.
#[derive(Drop)]
pub(crate) struct Running<K: Batch<T::Output>, T: Task> {
    pub(crate) number: usize,
    task: T,
    batch: PhantomData<(K, T::Output)>,
    ghost of: { slice_get K.outcomes number ≡ Some (T.outcome task) },
}

/// The output of a task, which is the outcome of its number.
#[derive(Drop)]
pub(crate) struct Finished<K: Batch<T::Output>, T: Task> {
    pub(crate) number: usize,
    output: T::Output,
    batch: PhantomData<K>,
    ghost of: { slice_get K.outcomes number ≡ Some output },
}

impl<K: Batch<T::Output>, T: Task> Running<K, T> {
    pub(crate) fn new(number: usize, task: T) -> Self
        requires of { slice_get K.outcomes number ≡ Some (T.outcome task) }
        ensures { result.number ≡ number }
    {
        Running {
            number,
            task,
            batch: PhantomData,
        }
    }
}

impl<K: Batch<T::Output>, T: Task> Numbered for Running<K, T> {
    type Finished = Finished<K, T>;

    ghost number = { λ t. t.number };

    ghost finished_number = { λ d. d.number };

    fn step(self) -> Step<Running<K, T>, Finished<K, T>> {
        let Running {
            number,
            task,
            batch: _,
        } = self;
        match task.step() {
            Step::More(task) => Step::More(Running {
                number,
                task,
                batch: PhantomData,
            }),
            Step::Done(output) => Step::Done(Finished {
                number,
                output,
                batch: PhantomData,
            }),
        }
    }
}

impl<K: Batch<T::Output>, T: Task> Finished<K, T> {
    /// The number and the output.
    pub(crate) fn into_parts(self) -> (usize, T::Output)
        ensures { (result.0 ≡ self.number) × (slice_get K.outcomes result.0 ≡ Some result.1) }
    {
        let Finished {
            number,
            output,
            batch: _,
        } = self;
        (number, output)
    }
}
