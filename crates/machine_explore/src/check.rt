//! The check that a table of positions has where every run of a program comes, and a list of outcomes what each ends with.
ghost use Rattle.std.specs.Prelude.{◌≡◌, ◌<◌, true, Contains, IfOk, length, map};
ghost use Rattle.std.specs.List.{All};
ghost use Rattle.machine_replay.specs.Replays.{CanReplay};
ghost use Rattle.machine_explore.specs.Explored.{HasNoOther};
ghost use Rattle.machine_explore.specs.Moves.{led};
ghost use Rattle.machine_explore.specs.Positions.{Standing};
ghost use Rattle.machine_explore.specs.Reports.{outcome_in};
ghost use Rattle.machine_explore.specs.Starts.{IsStart};
ghost use Rattle.machine_explore.specs.Tables.{EndsAmong, IsClosed, Stays, StaysForAll, StaysOnce};

use crate::outcome::Outcome;
use crate::position::Position;
use crate::program::Program;
use crate::shown::ShownOutcome;
use queue_steps::steps::Kind;
use std::alloc::{AllocError, Allocator};

/// Where the table has what a party's way on leads to. Nothing rests on it: the check looks there.
#[derive(Clone, Copy)]
pub struct Edge {
    /// The place of the position after its event, whose request, if it makes one, is granted.
    pub granted: usize,
    /// The same where the request is refused.
    pub refused: usize,
}

/// What was found: the positions, and for each of them an edge for each party.
#[derive(Drop)]
pub struct Table<A: Allocator> {
    /// The positions. The first is where runs start.
    pub positions: Vec<Position<A>, A>,
    /// The edges of the first position, by party, then those of the second, and so on.
    pub edges: Vec<Edge, A>,
}

/// Whether the program has no outcome but these, as the table shows. Whoever made the table is not trusted.
///
/// With `refuses` each request for a block may also be refused.
///
/// # Errors
///
/// Where there is no memory, for a block too, or no queue may have the capacity.
pub fn check<A: Allocator + Copy>(
    alloc: A,
    kind: Kind,
    refuses: bool,
    program: &Program<A>,
    table: &Table<A>,
    outcomes: &[ShownOutcome<A>],
) -> Result<bool, AllocError>
    requires { CanReplay kind }
    ensures { IfOk result (λ yes. yes ≡ true → HasNoOther kind refuses program.now.before program.now.parties.items (map outcome_in outcomes.now)) }
{
    if !is_closed(alloc, kind, refuses, program, table)? {
        return Ok(false);
    }
    all_end_among(alloc, program, &table.positions, outcomes)
}

/// Whether the table has where runs of the program start, and where each party leads from each of its positions. Whoever made it is not trusted.
///
/// # Errors
///
/// As of `check`.
pub(crate) fn is_closed<A: Allocator + Copy>(
    alloc: A,
    kind: Kind,
    refuses: bool,
    program: &Program<A>,
    table: &Table<A>,
) -> Result<bool, AllocError>
    requires { CanReplay kind }
    ensures { IfOk result (λ yes. yes ≡ true → IsClosed kind refuses program.now.before program.now.parties.items table.now.positions.items) }
{
    if !has_start(alloc, kind, program, &table.positions)? {
        return Ok(false);
    }
    for (index, position) in table.positions.iter().enumerate() {
        if !fits(kind, program, position) {
            return Ok(false);
        }
        if !stays(alloc, refuses, program, table, index, position)? {
            return Ok(false);
        }
    }
    Ok(true)
}

// Whether the table has where runs of the program start, at its first place.
fn has_start<A: Allocator + Copy>(
    alloc: A,
    kind: Kind,
    program: &Program<A>,
    positions: &[Position<A>],
) -> Result<bool, AllocError>
    requires { CanReplay kind }
    ensures { IfOk result (λ yes. yes ≡ true → (start : Standing) × IsStart kind program.now.before (length program.now.parties.items) start × Contains positions.now start) }
{
    match Position::start(alloc, kind, program)? {
        Some(start) => Ok(has_at(positions, 0, &start)),
        None => Ok(false),
    }
}

// Whether the position is one of this kind of queue, which the program's parties share.
fn fits<A: Allocator + Copy>(kind: Kind, program: &Program<A>, position: &Position<A>) -> bool
    ensures kind { result ≡ true → position.now.kind ≡ kind }
    ensures parties { result ≡ true → length position.now.parties ≡ length program.now.parties.items }
    ensures calls { result ≡ true → length position.now.world.calls ≡ length program.now.parties.items }
{
    position.kind() == kind && position.has_parties(program.parties.len())
}

// Whether the table has this position at that place.
fn has_at<A: Allocator + Copy>(
    positions: &[Position<A>],
    place: usize,
    position: &Position<A>,
) -> bool
    ensures { result ≡ true → Contains positions.now position.now }
{
    match positions.get(place) {
        Some(other) => position.is_same(other),
        None => false,
    }
}

// Whether the table has where each party leads from the position, which stands at this place.
fn stays<A: Allocator + Copy>(
    alloc: A,
    refuses: bool,
    program: &Program<A>,
    table: &Table<A>,
    index: usize,
    position: &Position<A>,
) -> Result<bool, AllocError>
    ensures { IfOk result (λ yes. yes ≡ true → StaysForAll (led position.now.kind) refuses program.now.parties.items table.now.positions.items position.now) }
{
    let count = program.parties.len();
    let Some(first) = index.checked_mul(count) else {
        return Ok(false);
    };
    for party in 0..count {
        let Some(place) = first.checked_add(party) else {
            return Ok(false);
        };
        let Some(edge) = table.edges.get(place).copied() else {
            return Ok(false);
        };
        if !stays_by(
            alloc,
            refuses,
            program,
            &table.positions,
            position,
            party,
            edge,
        )? {
            return Ok(false);
        }
    }
    Ok(true)
}

// Whether the table has where the party leads from the position, at the places that the link names.
fn stays_by<A: Allocator + Copy>(
    alloc: A,
    refuses: bool,
    program: &Program<A>,
    positions: &[Position<A>],
    position: &Position<A>,
    party: usize,
    edge: Edge,
) -> Result<bool, AllocError>
    ensures { IfOk result (λ yes. yes ≡ true → Stays (led position.now.kind) refuses program.now.parties.items positions.now position.now party) }
{
    if !leads_to(
        alloc,
        program,
        positions,
        position,
        party,
        true,
        edge.granted,
    )? {
        return Ok(false);
    }
    if refuses && position.asks(party) {
        return leads_to(
            alloc,
            program,
            positions,
            position,
            party,
            false,
            edge.refused,
        );
    }
    Ok(true)
}

// Whether the party leads from the position to what the table has at that place, if it goes on at all.
fn leads_to<A: Allocator + Copy>(
    alloc: A,
    program: &Program<A>,
    positions: &[Position<A>],
    position: &Position<A>,
    party: usize,
    granted: bool,
    place: usize,
) -> Result<bool, AllocError>
    ensures { IfOk result (λ yes. yes ≡ true → StaysOnce (led position.now.kind) program.now.parties.items positions.now position.now party granted) }
{
    match position.after(alloc, program, party, granted)? {
        None => Ok(true),
        Some(next) => Ok(has_at(positions, place, &next)),
    }
}

// Whether what each position ends with is among these, if it is an end.
fn all_end_among<A: Allocator + Copy>(
    alloc: A,
    program: &Program<A>,
    positions: &[Position<A>],
    outcomes: &[ShownOutcome<A>],
) -> Result<bool, AllocError>
    ensures { IfOk result (λ yes. yes ≡ true → All (EndsAmong program.now.parties.items (map outcome_in outcomes.now)) positions.now) }
{
    for position in positions {
        if !ends_among(alloc, program, position, outcomes)? {
            return Ok(false);
        }
    }
    Ok(true)
}

// Whether what the position ends with is among these, if it is an end.
fn ends_among<A: Allocator + Copy>(
    alloc: A,
    program: &Program<A>,
    position: &Position<A>,
    outcomes: &[ShownOutcome<A>],
) -> Result<bool, AllocError>
    ensures { IfOk result (λ yes. yes ≡ true → EndsAmong program.now.parties.items (map outcome_in outcomes.now) position.now) }
{
    if !position.is_final(program) {
        return Ok(true);
    }
    Ok(is_among(&position.outcome(alloc)?, outcomes))
}

// Whether the outcome is one of these.
fn is_among<A: Allocator>(outcome: &Outcome<A>, outcomes: &[ShownOutcome<A>]) -> bool
    ensures { result ≡ true → Contains (map outcome_in outcomes.now) outcome.now }
{
    for other in outcomes {
        if outcome.is_same(&other.outcome) {
            return true;
        }
    }
    false
}
