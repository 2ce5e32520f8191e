//! What a party of a shared queue has done, as the effects at its own places tell. Each function is there for its contract alone, which holds of all parties.
#![tactic(auto)]

ghost use Rattle.law_parties.specs.Laws.{CallsAct, ClosedStaysSeen, DoingsAddUp, DrainedStays, ItemsAreKept, JoinsAddDoings, MeetsKeepDoings, NumbersAreKept, PopsSeeDrained, SawMoreThenCalls, SplitsKeepDoings, WholeDidAll};

/// A call adds the effects at its places to what its party did, and nothing else.
pub fn calls_act<T>()
    ensures { CallsAct T }
{}

/// A party did nothing between two moments without a call, and first one list of effects and then another is both.
pub fn doings_add_up<T>()
    ensures { DoingsAddUp T }
{}

/// Of the two that a party is split into, the first did what the party did, and the other nothing.
pub fn splits_keep_doings<T>()
    ensures { SplitsKeepDoings T }
{}

/// The party that two become did what both did.
pub fn joins_add_doings<T>()
    ensures { JoinsAddDoings T }
{}

/// Two parties that meet did what they did.
pub fn meets_keep_doings<T>()
    ensures { MeetsKeepDoings T }
{}

/// A party to whom every place of what it has seen belongs did all of it.
pub fn whole_did_all<T>()
    ensures { WholeDidAll T }
{}

/// Where nothing is on its way in, as many items of a kind as such a party handed in, it handed out, or they are left.
pub fn items_are_kept<T>()
    ensures { ItemsAreKept T }
{}

/// As often as such a party handed a number in, it handed it out, or the number is left.
pub fn numbers_are_kept()
    ensures { NumbersAreKept }
{}

/// A party that has seen the queue closed has seen so from then on.
pub fn closed_stays_seen<T>()
    ensures { ClosedStaysSeen T }
{}

/// A party whose pop is answered `Closed` has seen the queue closed and empty.
pub fn pops_see_drained<T>()
    ensures { PopsSeeDrained T }
{}

/// A party that has seen the queue closed and empty sees it so from then on.
pub fn drained_stays<T>()
    ensures { DrainedStays T }
{}

/// A party that saw more and then made a call has made it after what it had seen before.
pub fn saw_more_then_calls<T>()
    ensures { SawMoreThenCalls T }
{}
