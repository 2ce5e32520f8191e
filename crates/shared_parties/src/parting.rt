//! How the views of seats are cut in two and made one, whatever they are seats of.
use crate::known::CallState;
use atomic_table::{Join, Split};

/// A seat of two parties becomes two seats.
pub struct Halves;

impl<T> Split<CallState<T>> for Halves {
    ghost use Rattle.shared_parties.specs.Parting.{first_part, second_part};

    ghost left = { first_part };

    ghost right = { second_part };
}

/// A seat for nobody is made.
pub struct Spare;

impl<T> Split<CallState<T>> for Spare {
    ghost use Rattle.shared_parties.specs.CallStates.{empty_seat};

    ghost left = { λ v. v };

    ghost right = { λ v. empty_seat };
}

/// Two parties' seats become one seat.
pub struct Both;

impl<T> Join<CallState<T>> for Both {
    ghost use Rattle.shared_parties.specs.CallStates.{empty_seat};
    ghost use Rattle.shared_parties.specs.Parting.{both_parts};

    ghost both = { both_parts };

    ghost spent = { empty_seat };
}
