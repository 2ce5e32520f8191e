//! Why the arguments ask for nothing that exists.
ghost use Rattle.std.specs.Prelude.{◌≡◌, Some};
ghost use Rattle.app_explore.specs.Usage.{usage_text};

use std::fmt;

/// Why the arguments ask for nothing that exists.
#[derive(Clone, Copy, Debug, PartialEq)]
pub enum UsageFault {
    /// What the first words ask for takes more words, or fewer.
    WordCount,
    /// No kind of queue has this name.
    Kind,
    /// No queue has this capacity.
    Capacity,
    /// The queue asks for no block that may be refused.
    Refusal,
    /// Nothing of this name is shown of a program.
    Wanted,
    /// No outcome and no wait has this number.
    Number,
}

impl fmt::Display for UsageFault {
    ghost output = { λ why. Some (usage_text why) };

    fn fmt<W: fmt::Write>(&self, f: &mut fmt::Formatter<W>) -> fmt::Result {
        f.write_str(match self {
            UsageFault::WordCount => "words: too few or too many",
            UsageFault::Kind => "kind: single, bounded:CAP or unbounded",
            UsageFault::Capacity => "capacity: 1 to 576460752303423488",
            UsageFault::Refusal => "refuse: with unbounded alone",
            UsageFault::Wanted => "after the kind: refuse, schedule N, lanes N or waits [N]",
            UsageFault::Number => "number: 1 to 18446744073709551615",
        })
    }
}
