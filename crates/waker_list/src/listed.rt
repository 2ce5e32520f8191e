//! The word that says whether somebody is on the list.
ghost use Rattle.std.specs.Prelude.{◌≡◌, true};

use crossbeam_utils::CachePadded;
use std::sync::atomic::AtomicU64;
use std::sync::atomic::Ordering::SeqCst;

/// A word on a line of its own: 0 where no future is on the list. It is written under the lock alone, after each change of the list.
#[derive(Drop)]
pub(crate) struct Listed {
    word: CachePadded<AtomicU64>,
}

/// The word was written last so. Only the word makes one.
#[derive(Drop)]
pub(crate) struct Shown {
    nobody: bool,
}

/// A load of the word is done, and has found that nobody is on the list, or somebody. Only the word makes one.
pub(crate) struct Loaded {
    nobody: bool,
}

impl Loaded {
    #[inline(always)]
    pub(crate) fn nobody(self) -> bool
        ensures { result ≡ self.nobody }
    {
        let Loaded { nobody } = self;
        nobody
    }
}

impl Listed {
    /// Nobody is on the list.
    pub(crate) fn new() -> (Listed, Shown)
        ensures { result.1.nobody ≡ true }
    {
        let listed = Listed {
            word: CachePadded::new(AtomicU64::new(0)),
        };
        (listed, Shown { nobody: true })
    }

    #[inline(always)]
    pub(crate) fn load(&self) -> Loaded {
        Loaded {
            nobody: self.word.load(SeqCst) == 0,
        }
    }

    /// Writes whether nobody is on the list.
    pub(crate) fn show(&self, nobody: bool) -> Shown
        ensures { result.nobody ≡ nobody }
    {
        self.word.store(u64::from(!nobody), SeqCst);
        Shown { nobody }
    }
}
