//! A call that stands between two of its steps.
ghost use Rattle.std.specs.Prelude.{◌≡◌};

use call_driver::progress::Progress;
use queue_steps::model::CallKind;
use queue_steps::steps::Kind;

/// A call that has left its fast steps: which it is, where it stands, and the value that it carries.
pub struct Left<T, B> {
    pub kind: Kind,
    pub call: CallKind,
    pub progress: Progress<B>,
    pub carried: Option<T>,
}

impl<T: Drop, B: Copy> Left<T, B> {
    /// Drops the value that the call carries.
    pub fn forgo(self) {
        let Left {
            kind: _,
            call: _,
            progress: _,
            carried,
        } = self;
        drop(carried);
    }
}

impl<T, B: Copy> Left<T, B> {
    /// The same in a place of its own, part by part. A function that is not in place is lent that one, so that the fast steps write none of it to memory.
    #[inline(always)]
    pub fn apart(self) -> Self
        ensures { result ≡ self }
    {
        let Left {
            kind,
            call,
            progress,
            carried,
        } = self;
        Left {
            kind,
            call,
            progress: Progress {
                local: progress.local,
                answer: progress.answer,
            },
            carried,
        }
    }
}
