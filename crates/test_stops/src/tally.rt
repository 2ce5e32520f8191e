//! What was tried, and how it went.
use crate::flaw::Flaw;
use std::fmt::Debug;
use std::io;

/// How many flawed runs are told one by one, of each sort.
const MOST_TOLD: u64 = 5;

/// How many cases there were, in how many of them one call waited for another, and how many were flawed.
#[derive(Clone, Copy)]
pub struct Tally {
    pub cases: u64,
    pub waits: u64,
    pub flawed: u64,
}

impl Tally {
    /// Of no cases.
    pub const NONE: Tally = Tally {
        cases: 0,
        waits: 0,
        flawed: 0,
    };

    /// Counts a case, and whether a call waited there, or the flaw that was found. The first flaws are told.
    pub fn count<R: Print, C: Debug>(
        &mut self,
        rt: &R,
        case: &C,
        found: Result<bool, Flaw>,
    ) -> io::Result<()> {
        self.cases = self.cases.wrapping_add(1);
        match found {
            Ok(waits) => self.waits = self.waits.wrapping_add(u64::from(waits)),
            Err(flaw) => {
                self.flawed = self.flawed.wrapping_add(1);
                if self.flawed <= MOST_TOLD {
                    println!(rt; "{flaw:?} in {case:?}")?;
                }
            }
        }
        Ok(())
    }
}
