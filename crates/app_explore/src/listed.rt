//! What a list has a line for, in the order of its texts.
ghost use Rattle.std.specs.Prelude.{◌≡◌, ◌++◌, List, ℕ, IfOk, OnOk, map, string_bytes, true};
ghost use Rattle.std.specs.List.{All};
ghost use Rattle.app_explore.specs.Listed.{AreListed, HasText, bytes_of, item_of};
ghost use Rattle.app_explore.specs.Outcomes.{AreInOrder};

use machine_explore::search::faults::SearchFault;
use std::alloc::{AllocError, Allocator};

/// What a list has a line for, by a text of its own.
pub trait Told: Drop {
    /// The text.
    ghost text_of: { Self → List ℕ };

    /// Appends the text.
    fn write_to<B: Allocator>(&self, text: &mut String<B>) -> Result<(), AllocError>
        ensures { OnOk result (string_bytes text.new ≡ string_bytes text.old ++ text_of self.now) };
}

/// What has a line in a list, with its text.
#[derive(Drop)]
pub struct Listed<X, A: Allocator> {
    /// Its text, by which it is kept apart and sorted.
    pub text: String<A>,
    /// What it is.
    pub item: X,
}

/// Each of these with its text, in the order of the texts by their bytes.
///
/// # Errors
///
/// `NoMemory`, and `NotShown` where two have the same text.
pub fn sorted_by_text<X: Told, A: Allocator + Copy>(
    alloc: A,
    items: Vec<X, A>,
) -> Result<Vec<Listed<X, A>, A>, SearchFault>
    ensures { IfOk result (λ all. AreListed X.text_of items.items all.items) }
{
    let mut all = with_texts(alloc, items)?;
    all.sort_by(|one, other| one.text.as_str().cmp(other.text.as_str()))?;
    if !are_in_order(&all) {
        return Err(SearchFault::NotShown);
    }
    Ok(all)
}

// Each of these with its text.
fn with_texts<X: Told, A: Allocator + Copy>(
    alloc: A,
    items: Vec<X, A>,
) -> Result<Vec<Listed<X, A>, A>, AllocError>
    ensures same { IfOk result (λ all. map item_of all.items ≡ items.items) }
    ensures texts { IfOk result (λ all. All (HasText X.text_of) all.items) }
{
    let mut all = Vec::new(alloc);
    for item in items {
        let mut text = String::new(alloc);
        item.write_to(&mut text)?;
        all.push(Listed { text, item })?;
    }
    Ok(all)
}

/// Whether each text is below the next one, byte for byte.
pub fn are_in_order<X, A: Allocator>(all: &[Listed<X, A>]) -> bool
    ensures { result ≡ true → AreInOrder (map bytes_of all.now) }
{
    for index in 1..all.len() {
        if all[index - 1].text.as_str() >= all[index].text.as_str() {
            return false;
        }
    }
    true
}
