//! A finder of orders for long histories in which pushed values differ. Nobody has to trust it: an order is shown to be one, and where none is found, nothing is known.
//!
//! First the values are put in an order. Given that, all that an order of the calls can be at is how many values are in and how many are out, so that few points are beside each other.
use crate::calls::{Calls, put_at};
use crate::crowd::Crowd;
use crate::found_moves::FoundMoves;
use crate::point::{Point, Role, Watch};
use crate::recorded::{Event, Move, Rules};
use crate::steps::Steps;
use crate::value_order::{CHOICES, Choice, in_order};
use crate::values::{Claim, Value, values_of};
use std::alloc::{AllocError, Allocator};
use std::collections::HashSet;
use std::hash::{BuildHasherDefault, FoldHasher};

/// How many points are looked at beside each other.
const WIDEST: usize = 4_000;

/// How many points are looked at for each event, on the whole.
const POINTS_EACH: usize = 40;

/// How many points are looked at in any case.
const POINTS: usize = 200_000;

/// An order of the effects of the calls, if one is found: first by these values, whose gaps are narrowed, and then by the values as the calls have them.
///
/// # Errors
///
/// Where there is no memory.
pub fn look_for_order<'a, A: Allocator + Copy>(
    alloc: A,
    rules: Rules,
    parties: usize,
    calls: &'a Calls<'a, A>,
    narrowed: &'a [Value],
) -> Result<Option<Vec<Move, A>>, AllocError> {
    if let Some(moves) = try_choice(alloc, rules, parties, calls, narrowed, Choice::PopBegin)? {
        return Ok(Some(moves));
    }
    let Claim::Values(mut values) = values_of(alloc, calls)? else {
        return Ok(None);
    };
    let crowd = Crowd::of(alloc, calls, &values)?;
    let needed = crowd.needed(&values);
    crowd.give(&mut values, needed, calls.last_gap());
    for choice in CHOICES {
        if let Some(moves) = try_choice(alloc, rules, parties, calls, &values, choice)? {
            return Ok(Some(moves));
        }
    }
    Ok(None)
}

// An order of the calls in which the values come in the order of this choice, if one is found.
fn try_choice<A: Allocator + Copy>(
    alloc: A,
    rules: Rules,
    parties: usize,
    calls: &Calls<'_, A>,
    values: &[Value],
    choice: Choice,
) -> Result<Option<Vec<Move, A>>, AllocError> {
    match in_order(alloc, values, choice)? {
        Some(order) => find_along(alloc, rules, parties, calls, values, &order),
        None => Ok(None),
    }
}

// What each call is there for, if the values come in this order.
fn roles_of<A: Allocator + Copy>(
    alloc: A,
    calls: &Calls<'_, A>,
    values: &[Value],
    order: &[usize],
) -> Result<Vec<Role, A>, AllocError> {
    let mut roles = Vec::with_capacity(alloc, calls.len())?;
    for index in 0..calls.len() {
        roles.push(match calls.get(index) {
            Some(made) => Role::without_value(made),
            None => Role::Unended,
        })?;
    }
    for (place, index) in order.iter().enumerate() {
        let Some(value) = values.get(*index) else {
            continue;
        };
        if let Some(role) = roles.get_mut(value.push) {
            *role = role.bringing(place);
        }
        if let Some(pop) = value.pop {
            if let Some(role) = roles.get_mut(pop) {
                *role = role.taking(place);
            }
        }
    }
    Ok(roles)
}

// A point, and the place of the move that led to it.
#[derive(Clone, Copy)]
struct Branch {
    point: Point,
    last: Option<usize>,
}

// An order of the calls in which the values come in this order, if one is found.
fn find_along<'a, A: Allocator + Copy>(
    alloc: A,
    rules: Rules,
    parties: usize,
    calls: &'a Calls<'a, A>,
    values: &'a [Value],
    order: &'a [usize],
) -> Result<Option<Vec<Move, A>>, AllocError> {
    let events = calls.events();
    let roles = roles_of(alloc, calls, values, order)?;
    let mut search = Search {
        alloc,
        steps: Steps::new(alloc, rules, calls, values, order),
        found: FoundMoves::new(alloc, events.len().saturating_add(calls.len()))?,
        branches: Vec::new(alloc),
        points: events
            .len()
            .saturating_mul(POINTS_EACH)
            .saturating_add(POINTS),
    };
    search.branches.push(Branch {
        point: Point::default(),
        last: None,
    })?;
    // The call that each party is in.
    let mut now = vec![in alloc; 0usize; parties]?;
    let mut begun = 0usize;
    for (at, event) in events.iter().enumerate() {
        match *event {
            Event::Begin(party, _) => {
                let role = roles.get(begun).copied().unwrap_or(Role::Unended);
                put_at(&mut now, party, begun);
                if !search.begin(at.saturating_add(1), begun, role)? {
                    return Ok(None);
                }
                begun = begun.saturating_add(1);
            }
            Event::End(party, _) => {
                let call = now.get(party).copied().unwrap_or(0);
                let role = roles.get(call).copied().unwrap_or(Role::Unended);
                if !search.end(at, call, role)? {
                    return Ok(None);
                }
            }
        }
        search.settle()?;
    }
    search.finish(events.len())
}

// A search along an order of the values.
#[derive(Drop)]
struct Search<'a, A: Allocator> {
    alloc: A,
    steps: Steps<'a, A>,
    found: FoundMoves<A>,
    branches: Vec<Branch, A>,
    // How many points may still be looked at.
    points: usize,
}

impl<'a, A: Allocator + Copy> Search<'a, A> {
    // A call begins. False where it cannot be followed.
    fn begin(&mut self, gap: usize, call: usize, role: Role) -> Result<bool, AllocError> {
        let Some(watch) = self.steps.begin(call, role)? else {
            return Ok(role != Role::Looks);
        };
        for index in 0..self.branches.len() {
            let Some(branch) = self.branches.get(index).copied() else {
                continue;
            };
            if self.steps.sees(branch.point, watch) {
                let then = self.see(gap, branch, watch)?;
                put_at(&mut self.branches, index, then);
            }
        }
        Ok(true)
    }

    // The call that watches has seen its reply.
    fn see(&mut self, gap: usize, branch: Branch, watch: Watch) -> Result<Branch, AllocError> {
        Ok(Branch {
            point: branch.point.with_seen(watch.mask),
            last: Some(self.found.note(branch.last, gap, watch.answer)?),
        })
    }

    // A call ends. False where no branch leads on.
    fn end(&mut self, gap: usize, call: usize, role: Role) -> Result<bool, AllocError> {
        let mask = self.steps.mask_of(call);
        let mut done = Vec::new(self.alloc);
        let mut rest = Vec::new(self.alloc);
        for branch in self.branches.iter() {
            if branch.point.has_done(role, mask) {
                done.push(*branch)?;
            } else {
                rest.push(*branch)?;
            }
        }
        if !rest.is_empty() {
            self.explore(gap, role, mask, &mut done, rest)?;
        }
        self.steps.end(call, mask);
        for index in 0..done.len() {
            if let Some(branch) = done.get_mut(index) {
                branch.point = branch.point.without_seen(mask);
            }
        }
        self.branches = done;
        Ok(!self.branches.is_empty() && self.branches.len() <= WIDEST)
    }

    // Adds the branches at which the call is done to which these lead, at which it is not.
    fn explore(
        &mut self,
        gap: usize,
        role: Role,
        mask: u64,
        done: &mut Vec<Branch, A>,
        mut rest: Vec<Branch, A>,
    ) -> Result<(), AllocError> {
        let mut met: Met<A> = HashSet::with_hasher(self.alloc, BuildHasherDefault::new());
        for branch in done.iter().chain(rest.iter()) {
            met.insert(branch.point)?;
        }
        for place in 0..self.points {
            let Some(branch) = rest.get(place).copied() else {
                break;
            };
            self.points = self.points.saturating_sub(1);
            for step in self.steps.from(branch.point) {
                let Some((point, next)) = step else {
                    continue;
                };
                let seen = self.steps.all_seen(point);
                if met.insert(point.with_seen(seen))? {
                    let then = self.follow(gap, branch, point, next)?;
                    if then.point.has_done(role, mask) {
                        done.push(then)?;
                    } else {
                        rest.push(then)?;
                    }
                }
            }
        }
        Ok(())
    }

    // The branch after a move, and after all that calls see there.
    fn follow(
        &mut self,
        gap: usize,
        branch: Branch,
        point: Point,
        next: Move,
    ) -> Result<Branch, AllocError> {
        let mut then = Branch {
            point,
            last: Some(self.found.note(branch.last, gap, next)?),
        };
        for index in 0..self.steps.watches() {
            if let Some(watch) = self.steps.watch(index) {
                if self.steps.sees(then.point, watch) {
                    then = self.see(gap, then, watch)?;
                }
            }
        }
        Ok(then)
    }

    // Forgets the moves that led nowhere, where it is time.
    fn settle(&mut self) -> Result<(), AllocError> {
        if !self.found.is_long(self.branches.len()) {
            return Ok(());
        }
        let mut lasts = Vec::with_capacity(self.alloc, self.branches.len())?;
        for branch in self.branches.iter() {
            lasts.push(branch.last)?;
        }
        self.found.settle(self.alloc, &mut lasts)?;
        for (branch, last) in self.branches.iter_mut().zip(lasts.iter()) {
            branch.last = *last;
        }
        Ok(())
    }

    // The moves of the first branch.
    fn finish(self, events: usize) -> Result<Option<Vec<Move, A>>, AllocError> {
        let Some(branch) = self.branches.first().copied() else {
            return Ok(None);
        };
        Ok(Some(self.found.finish(self.alloc, branch.last, events)?))
    }
}

// The points that were met.
type Met<A> = HashSet<Point, BuildHasherDefault<FoldHasher>, A>;
