//! A schedule as a picture in text: a column for each party, a row for each of its moves, and the list beside it.
ghost use Rattle.std.specs.Prelude.{◌≡◌, ◌++◌, [], ◌∷◌, if◌then◌else◌, ◌==◌, IfOk, OnOk, length, map, string_bytes};
ghost use Rattle.app_explore.specs.Lanes.{cell_text, column, head_text, lanes_text, move_text, row_text, rows_text, told_text, widest};

use crate::schedules::party_of;
use app_text::calls::ShownCall;
use app_text::effects::ShownEffect;
use app_text::items::write_items;
use app_text::replies::ReplyText;
use machine_explore::trace::TraceEntry;
use machine_memory::places::label;
use machine_replay::types::{Event, Told};
use queue_steps::steps::Local;
use std::alloc::{AllocError, Allocator};

/// How many columns there are, and how wide each is.
#[derive(Clone, Copy)]
struct Grid {
    parties: usize,
    width: usize,
}

/// Appends the picture of what was seen of a schedule, from the list behind the calls that come first on.
///
/// A cell has the call that the party begins, or the label of its step as docs/STEPS.md has it, with ` refused` where the step's request
/// for a block is refused, then what it did to the list, and behind ` = ` the reply that ended the call.
pub fn write_lanes<A: Allocator + Copy, B: Allocator>(
    alloc: A,
    parties: usize,
    opening: &[u64],
    seen: &[TraceEntry<B>],
    text: &mut String<A>,
) -> Result<(), AllocError>
    ensures { OnOk result (string_bytes text.new ≡ string_bytes text.old ++ lanes_text parties opening.now seen.now) }
{
    let cells = cells_of(alloc, seen)?;
    let grid = Grid {
        parties,
        width: widest(&cells),
    };
    write_head(alloc, grid, text)?;
    write_row(grid, 0, "", opening, text)?;
    write_rows(grid, seen, &cells, text)
}

// The cell of each of these.
fn cells_of<A: Allocator + Copy, B: Allocator>(
    alloc: A,
    seen: &[TraceEntry<B>],
) -> Result<Vec<String<A>, A>, AllocError>
    ensures { IfOk result (λ cells. map string_bytes cells.items ≡ map cell_text seen.now) }
{
    let mut cells = Vec::new(alloc);
    for entry in seen {
        let mut cell = String::new(alloc);
        write_move(entry.event(), entry.local(), &mut cell)?;
        write_told(entry.told(), &mut cell)?;
        cells.push(cell)?;
    }
    Ok(cells)
}

// Appends what a party does.
fn write_move<A: Allocator>(
    event: Event<u64>,
    local: Option<Local<usize>>,
    text: &mut String<A>,
) -> Result<(), AllocError>
    ensures { OnOk result (string_bytes text.new ≡ string_bytes text.old ++ move_text event local) }
{
    match event {
        Event::Begin(_, call) => write!(text, "{}", ShownCall(call)),
        Event::Step(_, true) => text.push_str(label(local)),
        Event::Step(_, false) => {
            text.push_str(label(local))?;
            text.push_str(" refused")
        }
    }
}

// Appends what was told of it.
fn write_told<A: Allocator>(told: Told<u64>, text: &mut String<A>) -> Result<(), AllocError>
    ensures { OnOk result (string_bytes text.new ≡ string_bytes text.old ++ told_text told) }
{
    match told {
        Told::Skipped | Told::Ran(None, None) => Ok(()),
        Told::Ran(None, Some(reply)) => write!(text, " = {}", ReplyText(reply)),
        Told::Ran(Some(effect), None) => write!(text, " {}", ShownEffect(effect)),
        Told::Ran(Some(effect), Some(reply)) => {
            write!(text, " {} = {}", ShownEffect(effect), ReplyText(reply))
        }
    }
}

// The length of the longest of these cells, and 1 at the least.
fn widest<A: Allocator>(cells: &[String<A>]) -> usize
    ensures { result ≡ widest 1 (map string_bytes cells.now) }
{
    let mut width = 1;
    for cell in cells {
        if width < cell.len() {
            width = cell.len();
        }
    }
    width
}

// Appends the row of the parties' numbers.
fn write_head<A: Allocator + Copy>(
    alloc: A,
    grid: Grid,
    text: &mut String<A>,
) -> Result<(), AllocError>
    ensures { OnOk result (string_bytes text.new ≡ string_bytes text.old ++ head_text grid.parties grid.width) }
{
    for party in 0..grid.parties {
        let number = format!(in alloc; "{party}")?;
        write_column(grid, number.as_str(), text)?;
    }
    text.push_str("| list\n")
}

// Appends the rows of these.
fn write_rows<A: Allocator, B: Allocator>(
    grid: Grid,
    seen: &[TraceEntry<B>],
    cells: &[String<A>],
    text: &mut String<A>,
) -> Result<(), AllocError>
    requires { map string_bytes cells.now ≡ map cell_text seen.now }
    ensures { OnOk result (string_bytes text.new ≡ string_bytes text.old ++ rows_text grid.parties grid.width seen.now) }
{
    for (index, entry) in seen.iter().enumerate() {
        write_row(
            grid,
            party_of(entry.event()),
            cells[index].as_str(),
            entry.list(),
            text,
        )?;
    }
    Ok(())
}

// Appends a row: the cell of one party, and the list.
fn write_row<A: Allocator>(
    grid: Grid,
    party: usize,
    cell: &str,
    list: &[u64],
    text: &mut String<A>,
) -> Result<(), AllocError>
    ensures { OnOk result (string_bytes text.new ≡ string_bytes text.old ++ row_text grid.parties grid.width party cell.now list.now) }
{
    for column in 0..grid.parties {
        write_column(grid, cell_at(party, cell, column), text)?;
    }
    text.push_str("|")?;
    write_items(list, text)?;
    text.push_str("\n")
}

// What stands in this column, where the party of that number has the cell.
fn cell_at(party: usize, cell: &str, column: usize) -> &str
    ensures { result.now ≡ (if column == party then cell.now else []) }
{
    if column == party { cell } else { "" }
}

// Appends a column with this text in it.
fn write_column<A: Allocator>(
    grid: Grid,
    cell: &str,
    text: &mut String<A>,
) -> Result<(), AllocError>
    ensures { OnOk result (string_bytes text.new ≡ string_bytes text.old ++ column grid.width cell.now) }
{
    text.push_str("| ")?;
    text.push_str(cell)?;
    for _place in 0..grid.width.saturating_sub(cell.len()) {
        text.push_str(" ")?;
    }
    text.push_str(" ")
}
