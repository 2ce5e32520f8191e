// A rule for queues of which only the closing is modelled: one history, of which each party has seen a beginning and
// done some places. Larger rules keep their histories in the same way.
ghost use Rattle.std.specs.Prelude.{ℕ, List};
ghost use base.Fml.{ftrue};
ghost use base.Stored.{coded_list, coded_ℕ};

use atomic_table::{Join, Split};
use mem_blocks::block::BlockPtr;
use mem_blocks::web::{Play, WebRule};
use std::marker::Model;

/// What a party knows: the history that it has seen, and the places of it that it did. No value of it is made.
pub struct View {
    pub ghost seen: { List ℕ } by { coded_list coded_ℕ },
    pub ghost mine: { List ℕ } by { coded_list coded_ℕ },
}

impl Model for View {
    ghost also_owns = { λ _. ftrue };
}

/// Where the ends of the queue lie.
#[derive(Drop)]
pub struct QueueEnds<S> {
    pub tail: BlockPtr<S>,
    pub head: BlockPtr<S>,
}

/// The rule: the first word of the tail is 1 once the history has an effect, and 0 before.
pub struct ClosingRule;

impl<S> WebRule<S, View, QueueEnds<S>> for ClosingRule {
    ghost use Rattle.test_support.specs.ClosingRule.{ClosingHolds, nothing};

    ghost holds = { ClosingHolds };

    ghost first = { λ _. nothing };
}

/// The step that closes.
pub struct Closes;

impl<S> Play<S, View> for Closes {
    ghost use Rattle.test_support.specs.ClosingRule.{closes};

    ghost then = { λ _. closes };
}

/// The step that looks.
pub struct Looks;

impl<S> Play<S, View> for Looks {
    ghost use Rattle.test_support.specs.ClosingRule.{looks};

    ghost then = { λ _. looks };
}

/// How a party is cut in two: both have seen the same, and the second has done nothing.
pub struct Parts;

impl Split<View> for Parts {
    ghost use Rattle.test_support.specs.ClosingRule.{newcomer};

    ghost left = { λ d. d };

    ghost right = { newcomer };
}

/// How a party takes another back: it knows what it knew, and what the other knew is forgotten.
pub struct Returns;

impl Join<View> for Returns {
    ghost use Rattle.test_support.specs.ClosingRule.{nothing};

    ghost both = { λ d _. d };

    ghost spent = { nothing };
}
