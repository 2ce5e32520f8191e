//! Which queue the argument asks for.
ghost use Rattle.std.specs.Prelude.{◌≡◌};
ghost use Rattle.app_text.specs.Reading.{IsReading};
ghost use Rattle.app_check.specs.Asked.{asked_text, rules_of, IsAsked};

use app_text::args::{KindName, parse_kind};
use history_check::recorded::Rules;

/// The queue that the argument asks for.
#[derive(Clone, Copy)]
pub enum Asked {
    /// Of this kind. A displacement takes two steps.
    InSteps(KindName),
    /// Of this kind. A displacement is one step.
    AtOnce(KindName),
}

impl Asked {
    /// By what a history on this queue is judged.
    pub fn rules(self) -> Rules
        ensures { result ≡ rules_of self }
    {
        match self {
            Asked::InSteps(kind) => Rules {
                cap: kind.capacity(),
                at_once: false,
            },
            Asked::AtOnce(kind) => Rules {
                cap: kind.capacity(),
                at_once: true,
            },
        }
    }
}

/// The queue that this text asks for, if it asks for one.
pub fn parse_asked(text: &str) -> Option<Asked>
    ensures { IsReading IsAsked asked_text text.now result }
{
    match text.strip_prefix("atomic:") {
        Some(kind) => Some(Asked::AtOnce(parse_kind(kind)?)),
        None => Some(Asked::InSteps(parse_kind(text)?)),
    }
}
