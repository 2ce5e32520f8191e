//! What `{:?}` prints of a queue.
ghost use Rattle.std.specs.Fmt.{WritesOnOk};
ghost use Rattle.exclusive_queue.specs.QueueText.{queue_text};

use std::fmt;

/// Writes a queue's name and its three fields, as a derived `Debug` of a struct with these fields would: `Exclusive { len: 1, capacity: Some(2), is_closed: false }`.
///
/// # Errors
///
/// That of the writer.
pub fn write_queue<W: fmt::Write>(
    f: &mut fmt::Formatter<W>,
    name: &str,
    len: usize,
    capacity: Option<usize>,
    is_closed: bool,
) -> fmt::Result
    ensures { WritesOnOk W.write_str_gives f.old result (queue_text name.now len capacity is_closed) f.new }
{
    write!(
        f,
        "{name} {{ len: {len}, capacity: {capacity:?}, is_closed: {is_closed} }}"
    )
}
