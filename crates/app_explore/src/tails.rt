//! What is told of an outcome behind its text, and of all outcomes.
ghost use Rattle.std.specs.Prelude.{◌≡◌, ◌++◌, OnOk, flat_map, string_bytes};
ghost use Rattle.app_explore.specs.Tails.{alone_text, count_text, figure_tail, items_in, last_text, order_text, outcomes_text, schedule_word, schedules_text, tail_line, unordered_text, with_space};

use machine_explore::search::counts::ScheduleCount;
use machine_explore::search::figures::Figure;
use std::alloc::{AllocError, Allocator};

/// Appends what is told of an outcome behind its text: how many schedules lead to it, its fewest steps, and an order of whole calls, if there is one.
pub(crate) fn write_tail<A: Allocator, B: Allocator>(
    figure: &Figure<A>,
    text: &mut String<B>,
) -> Result<(), AllocError>
    ensures { OnOk result (string_bytes text.new ≡ string_bytes text.old ++ tail_line (figure_tail figure.now)) }
{
    text.push_str(" | schedules ")?;
    write_count(figure.schedules, text)?;
    write!(text, " | steps {} | order", figure.steps)?;
    write_order(&figure.order, text)
}

/// What is told of all outcomes.
#[derive(Clone, Copy)]
pub(crate) struct Totals {
    /// How many there are.
    pub outcomes: usize,
    /// How many schedules lead to them.
    pub schedules: ScheduleCount,
    /// The most steps that a call alone takes.
    pub alone: u64,
    /// How many of them no order of whole calls has.
    pub unordered: usize,
}

/// Appends the line of all outcomes.
pub(crate) fn write_last<A: Allocator>(
    totals: Totals,
    text: &mut String<A>,
) -> Result<(), AllocError>
    ensures { OnOk result (string_bytes text.new ≡ string_bytes text.old ++ last_text totals.outcomes totals.schedules totals.alone totals.unordered) }
{
    let Totals {
        outcomes,
        schedules,
        alone,
        unordered,
    } = totals;
    write_outcomes(outcomes, text)?;
    write_schedules(schedules, text)?;
    write_alone(alone, text)?;
    write_unordered(unordered, text)
}

// Appends the most steps that a call alone takes.
fn write_alone<A: Allocator>(alone: u64, text: &mut String<A>) -> Result<(), AllocError>
    ensures { OnOk result (string_bytes text.new ≡ string_bytes text.old ++ alone_text alone) }
{
    write!(text, ", most steps alone {alone}")
}

// Appends how many outcomes no order of whole calls has.
fn write_unordered<A: Allocator>(unordered: usize, text: &mut String<A>) -> Result<(), AllocError>
    ensures { OnOk result (string_bytes text.new ≡ string_bytes text.old ++ unordered_text unordered) }
{
    writeln!(text, ", {unordered} with order none")
}

// Appends how many outcomes there are.
fn write_outcomes<A: Allocator>(outcomes: usize, text: &mut String<A>) -> Result<(), AllocError>
    ensures { OnOk result (string_bytes text.new ≡ string_bytes text.old ++ outcomes_text outcomes) }
{
    if outcomes == 1 {
        write!(text, "all {outcomes} outcome, ")
    } else {
        write!(text, "all {outcomes} outcomes, ")
    }
}

// Appends how many schedules there are.
fn write_schedules<A: Allocator>(
    count: ScheduleCount,
    text: &mut String<A>,
) -> Result<(), AllocError>
    ensures { OnOk result (string_bytes text.new ≡ string_bytes text.old ++ schedules_text count) }
{
    write_count(count, text)?;
    text.push_str(schedule_word(count))
}

// The word behind that number.
fn schedule_word(count: ScheduleCount) -> &'static str
    ensures { result.now ≡ schedule_word count }
{
    match count {
        Some(count) => {
            if count == 1 {
                " schedule"
            } else {
                " schedules"
            }
        }
        None => " schedules",
    }
}

// Appends a number of schedules.
fn write_count<A: Allocator>(count: ScheduleCount, text: &mut String<A>) -> Result<(), AllocError>
    ensures { OnOk result (string_bytes text.new ≡ string_bytes text.old ++ count_text count) }
{
    match count {
        Some(count) => write!(text, "{count}"),
        None => text.push_str("many"),
    }
}

// Appends an order of parties, or that there is none.
fn write_order<A: Allocator, B: Allocator>(
    order: &Option<Vec<usize, A>>,
    text: &mut String<B>,
) -> Result<(), AllocError>
    ensures { OnOk result (string_bytes text.new ≡ string_bytes text.old ++ order_text (items_in order.now)) }
{
    match order {
        Some(parties) => write_parties(parties, text),
        None => text.push_str(" none"),
    }
}

// Appends the numbers of parties, a space before each.
fn write_parties<A: Allocator>(parties: &[usize], text: &mut String<A>) -> Result<(), AllocError>
    ensures { OnOk result (string_bytes text.new ≡ string_bytes text.old ++ flat_map with_space parties.now) }
{
    for party in parties {
        write!(text, " {party}")?;
    }
    Ok(())
}
