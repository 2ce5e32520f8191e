//! How it is printed who waits for whom.
ghost use Rattle.std.specs.Prelude.{◌≡◌, ◌++◌, map, OnOk, string_bytes};
ghost use Rattle.machine_explore.specs.Waiting.{wait_of};
ghost use Rattle.app_explore.specs.Listed.{listed_wait};
ghost use Rattle.app_explore.specs.WaitLines.{party_call_text, side_text, sides_text, wait_line, wait_text, waits_text};

use crate::listed::{Listed, Told};
use app_text::calls::ShownCall;
use machine_explore::waiting::{Side, Wait};
use machine_memory::places::label;
use queue_steps::model::Call;
use std::alloc::{AllocError, Allocator};

/// Appends a line for each, with its number from 1, and a line that tells how many there are.
pub fn write_waits<A: Allocator, B: Allocator>(
    waits: &[Listed<Wait<B>, B>],
    text: &mut String<A>,
) -> Result<(), AllocError>
    ensures { OnOk result (string_bytes text.new ≡ string_bytes text.old ++ waits_text (map listed_wait waits.now)) }
{
    for (index, wait) in waits.iter().enumerate() {
        write_wait(index as u64 + 1, wait.item.waiter, wait.item.other, text)?;
    }
    let count = waits.len();
    writeln!(text, "{count} in all")
}

/// Appends the line of this number: the party that waits, and the one that it waits for, each with its call and the label of its step.
pub fn write_wait<A: Allocator>(
    number: u64,
    waiter: Side,
    other: Side,
    text: &mut String<A>,
) -> Result<(), AllocError>
    ensures { OnOk result (string_bytes text.new ≡ string_bytes text.old ++ wait_line number waiter other) }
{
    write!(text, "wait {number} | ")?;
    write_sides(waiter, other, text)?;
    text.push_str("\n")
}

/// Appends that line without its number, by which waits are kept apart and sorted.
pub fn write_sides<A: Allocator>(
    waiter: Side,
    other: Side,
    text: &mut String<A>,
) -> Result<(), AllocError>
    ensures { OnOk result (string_bytes text.new ≡ string_bytes text.old ++ sides_text waiter other) }
{
    write_side(waiter, text)?;
    text.push_str(" | ")?;
    write_side(other, text)
}

impl<A: Allocator> Told for Wait<A> {
    ghost text_of = { λ wait. wait_text (wait_of wait) };

    fn write_to<B: Allocator>(&self, text: &mut String<B>) -> Result<(), AllocError> {
        write_sides(self.waiter, self.other, text)
    }
}

// Appends a party, its call, and the label of its step.
fn write_side<A: Allocator>(side: Side, text: &mut String<A>) -> Result<(), AllocError>
    ensures { OnOk result (string_bytes text.new ≡ string_bytes text.old ++ side_text side) }
{
    write_party_call(side.party, side.call, text)?;
    text.push_str(" at ")?;
    text.push_str(label(side.local))
}

// Appends a party and its call.
fn write_party_call<A: Allocator>(
    party: usize,
    call: Option<Call<u64>>,
    text: &mut String<A>,
) -> Result<(), AllocError>
    ensures { OnOk result (string_bytes text.new ≡ string_bytes text.old ++ party_call_text party call) }
{
    match call {
        Some(call) => write!(text, "{party}: {}", ShownCall(call)),
        None => write!(text, "{party}:"),
    }
}
