//! Where a party is at a list of wakers, and what it does next.
ghost use Rattle.std.specs.Prelude.{◌≡◌};
ghost use Rattle.event_count.specs.Sleep.Seats.{step_of, entered_of, looked_of, taken_off_of, left_of, next_of};

/// Where a party is at a list of wakers.
#[derive(Clone, Copy)]
pub enum Seat {
    /// It is not on the list, and between two calls.
    Away,
    /// It is on the list, and looks once more.
    Looking,
    /// It is on the list, and has not found what it waits for.
    Asleep,
    /// A notify has taken it off the list, and it has not looked since.
    Notified,
    /// It is on the list, and has found what it waits for.
    Taken,
    /// It has an item to tell of.
    Given,
    /// It goes to take one party off the list.
    Waking,
    /// It has made what all wait for come.
    Telling,
    /// It goes to take all parties off the list.
    Calling,
}

/// What a notify does next.
#[derive(Clone, Copy)]
pub enum ListStep {
    /// Nothing: it is no notify, or it has ended.
    Rest,
    /// Looks whether somebody is on the list.
    Load,
    /// Takes the party off the list that has waited longest, and wakes it.
    TakeOne,
    /// Takes all parties off the list, and wakes them.
    TakeAll,
}

impl Seat {
    /// What a notify does next.
    #[inline(always)]
    pub fn step(self) -> ListStep
        ensures { result ≡ step_of self }
    {
        match self {
            Seat::Given | Seat::Telling => ListStep::Load,
            Seat::Waking => ListStep::TakeOne,
            Seat::Calling => ListStep::TakeAll,
            Seat::Away | Seat::Looking | Seat::Asleep | Seat::Notified | Seat::Taken =>
                ListStep::Rest,
        }
    }

    /// Where it is after it has entered the list.
    #[inline(always)]
    pub fn entered(self) -> Seat
        ensures { result ≡ entered_of self }
    {
        match self {
            Seat::Away => Seat::Looking,
            other => other,
        }
    }

    /// Where it is after it has looked, and has found what it waits for or not.
    #[inline(always)]
    pub fn looked(self, found: bool) -> Seat
        ensures { result ≡ looked_of self found }
    {
        match self {
            Seat::Looking | Seat::Asleep => { if found { Seat::Taken } else { Seat::Asleep } }
            Seat::Notified => Seat::Away,
            other => other,
        }
    }

    /// Where it is after a notify has taken it off the list.
    #[inline(always)]
    pub fn taken_off(self) -> Seat
        ensures { result ≡ taken_off_of self }
    {
        match self {
            Seat::Looking | Seat::Asleep => Seat::Notified,
            Seat::Taken => Seat::Given,
            other => other,
        }
    }

    /// Where it is after it has come off the list by itself, or has handed its wake on.
    #[inline(always)]
    pub fn left(self) -> Seat
        ensures { result ≡ left_of self }
    {
        match self {
            Seat::Looking | Seat::Asleep | Seat::Taken => Seat::Away,
            Seat::Notified => Seat::Given,
            other => other,
        }
    }

    /// Where a notify is after its next step, where nobody was on the list, or somebody was.
    #[inline(always)]
    pub fn next(self, nobody: bool) -> Seat
        ensures { result ≡ next_of self nobody }
    {
        match self {
            Seat::Given => { if nobody { Seat::Away } else { Seat::Waking } }
            Seat::Telling => { if nobody { Seat::Away } else { Seat::Calling } }
            Seat::Waking | Seat::Calling => Seat::Away,
            other => other,
        }
    }
}
