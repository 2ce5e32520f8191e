//! How items are printed.
ghost use Rattle.std.specs.Prelude.{◌≡◌, ◌++◌, OnOk, string_bytes};
ghost use Rattle.app_text.specs.Items.{items_text};

use std::alloc::{AllocError, Allocator};

/// Appends the items, each behind a space.
pub fn write_items<A: Allocator>(items: &[u64], text: &mut String<A>) -> Result<(), AllocError>
    ensures { OnOk result (string_bytes text.new ≡ string_bytes text.old ++ items_text items.now) }
{
    for item in items {
        write!(text, " {item}")?;
    }
    Ok(())
}
