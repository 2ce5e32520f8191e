//! The call whose step a seat does.
use std::marker::Brand;

/// A tag that says which call a step is one of. No value of such a type is made.
pub trait CallTag<T> {
    ghost use Rattle.shared_parties.specs.declared.known.InCall.{InCall};

    ghost call: { InCall T };
}

impl<T> CallTag<T> for Brand {
    ghost use Rattle.shared_parties.specs.Called.{nothing_called};

    ghost call = { nothing_called };
}
