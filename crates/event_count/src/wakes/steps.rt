//! Where a party is, and what it does next.
ghost use Rattle.std.specs.Prelude.{◌≡◌};
ghost use Rattle.event_count.specs.Sleep.Steps.{step_of, after_of, looked_of};

/// A word that the parties share.
#[derive(Clone, Copy)]
pub enum Word {
    /// How often somebody went to wake sleepers.
    Events,
    /// How many parties began to wait, less the notifies of one that took one of them off.
    Sleepers,
}

/// Whom a notify wakes.
#[derive(Clone, Copy)]
pub enum Whom {
    /// One of those that sleep.
    One,
    /// All that sleep.
    All,
}

/// What a party does next.
#[derive(Clone, Copy)]
pub enum Step {
    /// Nothing: its caller acts.
    Rest,
    /// Loads the word.
    Load(Word),
    /// Adds one to the word.
    Add(Word),
    /// Takes one off `SLEEPERS` if it is this number, which is above 0.
    Take(u64),
    /// Takes all off `SLEEPERS`.
    Clear,
    /// Sleeps if the low 32 bits of `EVENTS` are these, until it is woken or for no reason.
    Park(u32),
    /// Wakes sleepers.
    Wake(Whom),
}

/// Where a party is. A number is what it found in `EVENTS`, where nothing else is said.
#[derive(Clone, Copy)]
pub enum Phase {
    /// Between two calls.
    Idle,
    /// It begins to prepare.
    Starting,
    /// It has loaded `EVENTS`.
    Loaded(u64),
    /// It is counted in `SLEEPERS`, and its caller looks at what it waits for.
    Prepared(u64),
    /// Its caller did not find it.
    Missed(u64),
    /// It has waited, and its caller looks again.
    Returned,
    /// Its caller has given an item.
    Given,
    /// It goes to wake one. The number is what it found in `SLEEPERS`.
    Taking(u64),
    /// Its caller has made what all wait for come.
    Clearing,
    /// It goes to move `EVENTS`.
    Moving(Whom),
    /// It has moved `EVENTS`.
    Waking(Whom),
}

/// How many numbers 32 bits tell apart.
const LOW: u64 = 1 << 32;

impl Phase {
    /// What the party does next.
    #[inline(always)]
    pub fn step(self) -> Step
        ensures { result ≡ step_of self }
    {
        match self {
            Phase::Idle | Phase::Prepared(_) | Phase::Returned => Step::Rest,
            Phase::Starting => Step::Load(Word::Events),
            Phase::Loaded(_) => Step::Add(Word::Sleepers),
            Phase::Missed(events) => Step::Park((events % LOW) as u32),
            Phase::Given => Step::Load(Word::Sleepers),
            Phase::Taking(sleepers) => Step::Take(sleepers),
            Phase::Clearing => Step::Clear,
            Phase::Moving(_) => Step::Add(Word::Events),
            Phase::Waking(whom) => Step::Wake(whom),
        }
    }

    /// Where the party is after that step, which found a number in its word.
    #[inline(always)]
    pub fn after(self, found: u64) -> Phase
        ensures { result ≡ after_of self found }
    {
        match self {
            Phase::Starting => Phase::Loaded(found),
            Phase::Loaded(events) => Phase::Prepared(events),
            Phase::Missed(_) => Phase::Returned,
            Phase::Given => {
                if found == 0 {
                    Phase::Idle
                } else {
                    Phase::Taking(found)
                }
            }
            Phase::Taking(_) => Phase::Moving(Whom::One),
            Phase::Clearing => Phase::Moving(Whom::All),
            Phase::Moving(whom) => Phase::Waking(whom),
            Phase::Waking(_) => Phase::Idle,
            Phase::Idle | Phase::Prepared(_) | Phase::Returned => self,
        }
    }

    /// Where the party is after its caller has looked, and has found what it waits for or not.
    #[inline(always)]
    pub fn looked(self, found: bool) -> Phase
        ensures { result ≡ looked_of self found }
    {
        match self {
            Phase::Prepared(events) => {
                if found {
                    Phase::Idle
                } else {
                    Phase::Missed(events)
                }
            }
            Phase::Returned => Phase::Idle,
            other => other,
        }
    }
}
