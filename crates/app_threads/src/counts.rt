//! How often each value came.
ghost use Rattle.std.specs.Prelude.{◌≡◌, ◌<◌, ◌-◌, ◌^◌, All, Some, IfOk, replicate};
ghost use Rattle.app_threads.specs.Counts.{counted, EachSumFits, AreSums, first_wrong, judged, finding_text, finding_verdict};

use crate::verdict::Verdict;
use std::alloc::{AllocError, Global};
use std::fmt;

/// No value below `items` has come.
pub fn none_counted(alloc: Global, items: u64) -> Result<Vec<u64>, AllocError>
    ensures { IfOk result (λ counts. counts.items ≡ replicate items 0) }
{
    let mut counts = Vec::new(alloc);
    for _ in 0..items {
        counts.push(0)?;
    }
    Ok(counts)
}

/// The value has come once more. A value past the last count is not counted.
pub fn count(counts: &mut Vec<u64>, value: u64)
    requires { All (λ c. c < 2 ^ 64 - 1) counts.old.items }
    ensures { counts.new.items ≡ counted value counts.old.items }
{
    let index = value as usize;
    if index < counts.len() {
        counts[index] += 1;
    }
}

/// Each value has come as often as both say. A value past the end of `more` came no more often.
pub fn add(counts: &mut [u64], more: &[u64])
    requires { EachSumFits counts.old more.now }
    ensures { AreSums counts.old more.now counts.new }
{
    for index in 0..counts.len().min(more.len()) {
        counts[index] += more[index];
    }
}

/// The first value that did not come `pushers` times.
fn wrong_value(pushers: u64, counts: &[u64]) -> Option<usize>
    ensures { result ≡ first_wrong pushers counts.now }
{
    counts.iter().position(|count| *count != pushers)
}

/// What the counts have shown.
#[derive(Clone, Copy, Debug, PartialEq)]
pub enum Finding {
    /// Each of so many values came so often.
    Right { values: usize, times: u64 },
    /// This value is the first that did not come as often as it was pushed. It came so often.
    Wrong { value: usize, times: u64 },
}

impl fmt::Display for Finding {
    ghost output = { λ finding. Some (finding_text finding) };

    fn fmt<W: fmt::Write>(&self, f: &mut fmt::Formatter<W>) -> fmt::Result {
        match self {
            Finding::Right { values, times } => {
                write!(f, "{values} values, each counted {times} times")
            }
            Finding::Wrong { value, times } => write!(f, "value {value} counted {times} times"),
        }
    }
}

impl Finding {
    /// Whether all counts are right.
    pub fn verdict(self) -> Verdict
        ensures { result ≡ finding_verdict self }
    {
        match self {
            Finding::Right { .. } => Verdict::Right,
            Finding::Wrong { .. } => Verdict::Wrong,
        }
    }
}

/// Whether each value came `pushers` times.
pub fn judge(pushers: u64, counts: &[u64]) -> Finding
    ensures { result ≡ judged pushers counts.now }
{
    match wrong_value(pushers, counts) {
        None => Finding::Right {
            values: counts.len(),
            times: pushers,
        },
        Some(value) => Finding::Wrong {
            value,
            times: counts[value],
        },
    }
}
