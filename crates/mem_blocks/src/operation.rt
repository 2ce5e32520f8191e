// What one step does with a word or a link.

#[derive(Clone, Copy)]
pub(crate) enum Operation {
    Load,
    Store,
    Add,
    Subtract,
    Or,
    /// Writes the second operand where the word is the first.
    Exchange,
}

// What one step does with a link.
#[derive(Clone, Copy)]
pub(crate) enum LinkOperation {
    Load,
    Store,
    /// Writes the operand where the link is unset.
    Install,
}
