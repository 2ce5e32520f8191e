//! What is counted of an outcome. Nothing rests on it.
use crate::program::Program;
use crate::schedule::Move;
use crate::search::counts::{ScheduleCount, sum};
use crate::search::orders::{Order, calls_of};
use std::alloc::Allocator;

/// What is counted of an outcome, over the table that was found.
#[derive(Drop)]
pub struct Figure<A: Allocator> {
    /// How many schedules lead to it.
    pub schedules: ScheduleCount,
    /// How many steps a shortest one of them has.
    pub steps: usize,
    /// The parties of an order of whole calls with this outcome.
    pub order: Order<A>,
}

/// What is counted of the outcome of this number, to which this shortest schedule leads.
pub(crate) fn figure_of<A: Allocator>(
    program: &Program<A>,
    number: usize,
    schedule: &[Move],
    counts: &[ScheduleCount],
    orders: &mut [Order<A>],
) -> Figure<A> {
    Figure {
        schedules: counts.get(number).copied().unwrap_or(Some(0)),
        steps: schedule.len().saturating_sub(calls_of(program)),
        order: take_order(orders, number),
    }
}

// The order of the outcome of this number.
fn take_order<A: Allocator>(orders: &mut [Order<A>], number: usize) -> Order<A> {
    orders.get_mut(number)?.take()
}

/// The sum of numbers of schedules.
pub(crate) fn total(counts: &[ScheduleCount]) -> ScheduleCount {
    let mut total = Some(0);
    for count in counts {
        total = sum(total, *count);
    }
    total
}
