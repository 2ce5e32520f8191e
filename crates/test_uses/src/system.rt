//! What the system tells of this process: how many threads it has, and how much processor time it had.
use std::fs;

/// Where it tells that.
const PROCESS: &str = "/proc/self/stat";

/// The number after so many fields of that text, where it can be read.
fn field(host: &HostRuntime, after: usize) -> Option<u64> {
    let text = fs::read_to_string(host, PROCESS).ok()?;
    text.split(' ').nth(after)?.parse().ok()
}

/// How many threads this process has, or more than there may be where that cannot be read.
pub(crate) fn threads(host: &HostRuntime) -> u64 {
    field(host, 19).unwrap_or(u64::MAX)
}

/// How much processor time all threads of this process had, in hundredths of a second, where that can be read.
pub(crate) fn time(host: &HostRuntime) -> Option<u64> {
    Some(field(host, 13)?.wrapping_add(field(host, 14)?))
}
