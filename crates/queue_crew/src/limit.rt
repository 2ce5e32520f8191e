//! How many threads a crew may start.
ghost use Rattle.std.specs.Prelude.{◌≡◌, ◌<◌, IfOk, IfErr, OnOk};

use std::thread::{Promise, PromisedHandle, Scope, SpawnError};

/// How many threads a crew may start. Each one more is refused, as the system refuses one.
#[derive(Clone, Copy)]
pub struct Limit(pub u64);

/// As many threads as the system starts.
pub const NO_LIMIT: Limit = Limit(u64::MAX);

impl Limit {
    /// Starts the thread of this number, which is how many were started before. Hands `f` back where none can be started.
    pub fn start<'s, E, P: Promise<T> + Drop, F: FnOnce() -> T + Send + 's, T: Send + Drop + 's>(
        self,
        number: u64,
        scope: &Scope<'s, E>,
        promise: P,
        f: F,
    ) -> Result<PromisedHandle<T, P>, SpawnError<F>>
        requires runs { F.pre f }
        requires keeps { (r : T) → F.post f r → P.kept_by promise r }
        ensures ok { IfOk result (λ h. h.promise ≡ promise) }
        ensures within { OnOk result (number < self.0) }
        ensures err { IfErr result (λ e. e.value ≡ f) }
    {
        if number < self.0 {
            scope.spawn_with(promise, f)
        } else {
            Err(SpawnError { value: f })
        }
    }
}
