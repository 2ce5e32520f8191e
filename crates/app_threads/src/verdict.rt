//! What a run that came to its end has shown.
ghost use Rattle.std.specs.Prelude.{◌≡◌};
ghost use Rattle.app_threads.specs.Verdicts.{verdict_status};

/// What a run that came to its end has shown.
#[derive(Clone, Copy, Debug, PartialEq)]
pub enum Verdict {
    /// All is as it has to be.
    Right,
    /// A count is wrong, or a thread stayed alone.
    Wrong,
}

impl Verdict {
    /// The status that the program ends with.
    pub fn status(self) -> u8
        ensures { result ≡ verdict_status self }
    {
        match self {
            Verdict::Right => 0,
            Verdict::Wrong => 1,
        }
    }
}
