//! What a task is.
ghost use Rattle.std.specs.Prelude.{◌≡◌};
ghost use Rattle.use_shared.specs.Steps.{MatchStep};

/// What a step leaves.
#[derive(Drop)]
pub enum Step<T, D> {
    /// There is more to do.
    More(T),
    /// It is done, with this output.
    Done(D),
}

/// Work that is done step by step.
pub trait Task: Sized + Drop + Send {
    type Output: Drop + Send;

    // What the task comes to, however many steps it takes.
    ghost outcome: { Self → Self.Output };

    /// Does the next part of the work. It does not wait: where it has to, it leaves the task as it is.
    fn step(self) -> Step<Self, Self::Output>
        ensures { MatchStep result (λ next. outcome next ≡ outcome self) (λ output. output ≡ outcome self) };
}
