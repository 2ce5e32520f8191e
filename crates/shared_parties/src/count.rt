//! The count of the parties of a shared queue: how a party is parted, and two are made one or brought together, whatever the queue is made of.
ghost use Rattle.std.specs.Prelude.{◌≡◌, ℕ, MatchResult, MatchBool};
ghost use Rattle.queue_steps.specs.Shares.{IsEntire};
ghost use Rattle.shared_parties.specs.declared.known.CallState.{CallState as SpecCallState};
ghost use Rattle.shared_parties.specs.declared.count.Change.{Change as SpecChange};
ghost use Rattle.shared_parties.specs.declared.count.Change.TheVariants as change;
ghost use Rattle.shared_parties.specs.CallStates.{IsResting};
ghost use Rattle.shared_parties.specs.Parting.{IsParty, IsTwo, Parts, Joins, Meets, first_part, second_part, both_parts};
ghost use Rattle.shared_parties.specs.PartyCount.{MayAct};

use queue_steps::sizes::MAX_PARTIES;

/// What an act does to the count.
pub enum Change {
    /// It is one more.
    Raise,
    /// It is one less.
    Lower,
    /// It is read.
    Look,
}

/// An act on the count of parties, by a seat.
pub trait CountAct<T> {
    /// What it tells, of the count as it was and of what the seat knew and knows.
    ghost tells: { ℕ → SpecCallState T → SpecCallState T → Type 0 };

    ghost changes: { SpecChange };

    /// What it does to the count.
    fn change() -> Change
        ensures { result ≡ changes };
}

/// The count is raised for a second party.
pub struct Admit;

impl<T> CountAct<T> for Admit {
    ghost use Rattle.shared_parties.specs.Parting.{Entered};

    ghost tells = { Entered };

    ghost changes = { change.Raise };

    #[inline(always)]
    fn change() -> Change {
        Change::Raise
    }
}

/// The count, raised in vain, is lowered.
pub struct Withdraw;

impl<T> CountAct<T> for Withdraw {
    ghost use Rattle.shared_parties.specs.Parting.{Withdrew};

    ghost tells = { λ n. Withdrew };

    ghost changes = { change.Lower };

    #[inline(always)]
    fn change() -> Change {
        Change::Lower
    }
}

/// The count is lowered for two parties that are one.
pub struct Unite;

impl<T> CountAct<T> for Unite {
    ghost use Rattle.shared_parties.specs.Parting.{BecameOne};

    ghost tells = { λ n. BecameOne };

    ghost changes = { change.Lower };

    #[inline(always)]
    fn change() -> Change {
        Change::Lower
    }
}

/// The count is read by two parties that meet.
pub struct SeeAll;

impl<T> CountAct<T> for SeeAll {
    ghost use Rattle.shared_parties.specs.Parting.{SawAll};

    ghost tells = { λ n. SawAll };

    ghost changes = { change.Look };

    #[inline(always)]
    fn change() -> Change {
        Change::Look
    }
}

/// The count is read by a party that may be the only one.
pub struct ReadCount;

impl<T> CountAct<T> for ReadCount {
    ghost use Rattle.shared_parties.specs.Parting.{Counted};

    ghost tells = { Counted };

    ghost changes = { change.Look };

    #[inline(always)]
    fn change() -> Change {
        Change::Look
    }
}

/// The count of the parties of one queue, and the seats that it counts. `S` is such a seat.
pub trait PartyCount<T, S> {
    /// The seat is one of this queue's, and has nothing in hand.
    ghost sits: { Self → S → Type 0 };

    /// Which of the seats it is.
    ghost id: { S → ℕ };

    /// What the seat knows.
    ghost knows: { S → SpecCallState T };

    /// Acts on the count, and answers with it as it was.
    fn act<A: CountAct<T>>(&self, seat: &mut S) -> u64
        requires sits { sits self.now seat.old }
        requires may { MayAct A.changes A.tells (id seat.old) (knows seat.old) }
        ensures { sits self.now seat.new × (id seat.new ≡ id seat.old) × A.tells result (knows seat.old) (knows seat.new) };

    /// Parts the seat of two parties.
    fn part(&self, seat: S) -> (S, S)
        requires { sits self.now seat × IsTwo (knows seat) }
        ensures { sits self.now result.0 × sits self.now result.1 × (knows result.0 ≡ first_part (knows seat)) × (knows result.1 ≡ second_part (knows seat)) };

    /// Makes one seat of the seats of two parties.
    fn pair(&self, first: S, second: S) -> S
        requires { sits self.now first × sits self.now second × IsResting (knows first) × IsResting (knows second) }
        ensures { sits self.now result × (knows result ≡ both_parts (knows first) (knows second)) };
}

/// Parts the seat of a party in two, or hands it back where there are too many. The only party is parted.
pub fn split<T, S, C: PartyCount<T, S>>(count: &C, party: S) -> Result<(S, S), S>
    requires { C.sits count.now party × IsParty (C.knows party) }
    ensures same { MatchResult result (λ r. C.sits count.now r.0 × C.sits count.now r.1) (λ s. C.sits count.now s × (C.id s ≡ C.id party)) }
    ensures parted { MatchResult result (λ r. Parts (C.knows party) (C.knows r.0) (C.knows r.1)) (λ s. (C.knows s ≡ C.knows party) × ¬ (IsEntire (C.knows party).known.share)) }
{
    let mut seat = party;
    if count.act::<Admit>(&mut seat) >= MAX_PARTIES {
        count.act::<Withdraw>(&mut seat);
        return Err(seat);
    }
    Ok(count.part(seat))
}

/// Makes one seat of the seats of two parties, who are one then.
pub fn join<T, S, C: PartyCount<T, S>>(count: &C, first: S, second: S) -> S
    requires sit { C.sits count.now first × C.sits count.now second }
    requires rest { IsParty (C.knows first) × IsParty (C.knows second) }
    ensures { C.sits count.now result × Joins (C.knows first) (C.knows second) (C.knows result) }
{
    let mut seat = count.pair(first, second);
    count.act::<Unite>(&mut seat);
    seat
}

/// Lets two parties see what either has seen, and gives their seats back.
pub fn meet<T, S, C: PartyCount<T, S>>(count: &C, first: S, second: S) -> (S, S)
    requires sit { C.sits count.now first × C.sits count.now second }
    requires rest { IsParty (C.knows first) × IsParty (C.knows second) }
    ensures sit { C.sits count.now result.0 × C.sits count.now result.1 }
    ensures met { Meets (C.knows first) (C.knows second) (C.knows result.0) (C.knows result.1) }
{
    let mut seat = count.pair(first, second);
    count.act::<SeeAll>(&mut seat);
    count.part(seat)
}

/// Whether this is the only party, which it is exactly where all shares are its own.
pub fn is_only<T, S, C: PartyCount<T, S>>(count: &C, seat: &mut S) -> bool
    requires { C.sits count.now seat.old × IsResting (C.knows seat.old) }
    ensures same { C.sits count.now seat.new × (C.id seat.new ≡ C.id seat.old) × (C.knows seat.new ≡ C.knows seat.old) }
    ensures counted { MatchBool result (IsEntire (C.knows seat.old).known.share) (¬ (IsEntire (C.knows seat.old).known.share)) }
{
    count.act::<ReadCount>(seat) == 1
}
