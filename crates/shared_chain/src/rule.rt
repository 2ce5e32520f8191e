//! The rule of a shared chain, and what its steps tell.
use crate::ends::ChainEnds;
use mem_blocks::item::Item;
use mem_blocks::web::{LinkPlay, Play, WebRule};
use shared_parties::call_tag::CallTag;
use shared_parties::known::CallState;
use std::marker::PhantomData;

/// A web that stands for a chain.
pub struct Chained;

impl<T> WebRule<Item<T>, CallState<T>, ChainEnds<T>> for Chained {
    ghost use Rattle.shared_chain.specs.Rule.{chained, first_seat};

    ghost holds = { chained };

    ghost first = { λ _. first_seat };
}

/// The operation of a call on a word, and the load or the install of a link.
pub struct Steps<J> {
    of: PhantomData<J>,
}

impl<T, J: CallTag<T>> Play<Item<T>, CallState<T>> for Steps<J> {
    ghost use Rattle.queue_laws.specs.Common.Operations.{answer_for};
    ghost use Rattle.shared_chain.specs.Steps.{Follows};

    ghost then = { λ st m n q. Follows J.call (answer_for J.call.op n) q };
}

impl<T, J: CallTag<T>> LinkPlay<Item<T>, CallState<T>> for Steps<J> {
    ghost use Rattle.shared_chain.specs.Steps.{FollowsLink};

    ghost then = { λ m p q. FollowsLink J.call p q };
}

/// The store of a link.
pub struct Stores<J> {
    of: PhantomData<J>,
}

impl<T, J: CallTag<T>> LinkPlay<Item<T>, CallState<T>> for Stores<J> {
    ghost use Rattle.queue_steps.specs.declared.steps.types.Answer.TheVariants as answer;
    ghost use Rattle.shared_chain.specs.Steps.{Follows};

    ghost then = { λ m p q. Follows J.call answer.Done q };
}

/// A request was granted, and the seat carries the block.
pub struct Grants<J> {
    of: PhantomData<J>,
}

impl<T, J: CallTag<T>> Play<Item<T>, CallState<T>> for Grants<J> {
    ghost use Rattle.shared_chain.specs.Steps.{FollowsGrant};
    ghost use Rattle.shared_chain.specs.Turning.{carried_place};

    ghost then = { λ st m n q. FollowsGrant J.call (carried_place m) q };
}

/// A request was refused.
pub struct Refusals<J> {
    of: PhantomData<J>,
}

impl<T, J: CallTag<T>> Play<Item<T>, CallState<T>> for Refusals<J> {
    ghost use Rattle.queue_steps.specs.declared.steps.types.Answer.TheVariants as answer;
    ghost use Rattle.shared_chain.specs.Steps.{Follows};

    ghost then = { λ st m n q. Follows J.call answer.Refused q };
}
